// An alarm: its day and round, and the ledger that rang.
use super::Keyed;
use edetector::wealth::Wealth;

#[derive(Clone, Copy, Debug, PartialEq, Eq, Default)]
pub struct Alarm {
    pub day: u32,
    pub round: u32,
    pub ledger: Wealth,
}

impl Keyed for Alarm {
    ghost key = { λ a. a.day };

    fn key(&self) -> u64 {
        u64::from(self.day)
    }
}
