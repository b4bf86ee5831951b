// What a monitor is doing, as it tells it.

/// Stakes are taken while armed, slips while staked, rearms while not staked.
#[derive(Clone, Copy, Debug, PartialEq, Eq)]
pub enum State {
    /// ready for a stake
    Armed,
    /// a slip is out
    Staked,
    /// the alarm has rung, and waits to be rearmed
    Rung,
}
