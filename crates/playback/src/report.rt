// What a replay comes to, once its monitor is made.
use super::stop::Fault;
use edetector::monitor::Reading;
use plantlog::record::RuleChoice;

// A replay whose monitor was made: the monitor, how it stands at last, and the fault that stopped the replay.
#[derive(Clone, Copy, Debug, PartialEq, Eq)]
pub struct Run {
    pub classes: usize,
    pub total: u32,
    pub threshold: u32,
    pub rule: RuleChoice,
    pub last: Reading,
    pub fault: Option<Fault>,
}
