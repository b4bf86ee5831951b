// Why a monitor refuses a call, and what it hands back.
ghost use Rattle.std.specs.Prelude.{◌≡◌};
ghost use Rattle.edetector.specs.Monitors.{monitor_number};

use super::value::ValueFault;

/// Each by its number.
#[derive(Clone, Copy, Debug, PartialEq, Eq)]
pub enum MonitorFault {
    /// all rounds that a monitor may settle are settled: a million
    Spent = 31,
    /// a stake finds the monitor staked or rung, or a rearm finds it staked
    NotArmed = 32,
    /// nothing is staked, or the slip has another tag or round than what is
    Misfit = 34,
}

impl From<MonitorFault> for u8 {
    ghost from_gives = { λ fault n. n ≡ monitor_number fault };

    fn from(fault: MonitorFault) -> u8 {
        fault as u8
    }
}

/// A refused slip, handed back.
pub struct Refused<S> {
    pub fault: MonitorFault,
    pub slip: S,
}

/// Why a monitor was not made, with what was handed over.
#[derive(Drop)]
pub struct Unmade<B, R> {
    pub fault: ValueFault,
    pub bettor: B,
    pub rule: R,
}
