// A day whose count was passed over, and the number of its record.
use super::Keyed;

#[derive(Clone, Copy, Debug, PartialEq, Eq, Default)]
pub struct Unwatched {
    pub day: u32,
    pub record: usize,
}

impl Keyed for Unwatched {
    ghost key = { λ u. u.day };

    fn key(&self) -> u64 {
        u64::from(self.day)
    }
}
