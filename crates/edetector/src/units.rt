// The units of the subject. Each is a type of its own, and no operator takes two of them.
use super::table::MOST_CLASSES;

/// A class's weight in a table.
#[derive(Clone, Copy, Debug, Default, PartialEq, Eq)]
pub struct Weight(pub u32);

/// The factor that leaves a bet as it is.
pub const UNIT_FACTOR: u64 = 4096;

/// What a bet is multiplied by, in parts of 4,096.
#[derive(Clone, Copy, Debug, Default, PartialEq, Eq)]
pub struct Factor(pub u32);

/// A factor for each class, and zeros behind them.
pub type Row = [Factor; MOST_CLASSES];

/// What a round is bet with: the ledger and at most one bet more, in parts of a bet.
#[derive(Clone, Copy, Debug, PartialEq, Eq)]
pub struct Base(pub u64);
