// What a record says.
ghost use Rattle.std.specs.Prelude.{◌≡◌};
ghost use Rattle.plantlog.specs.Choices.{rule_number, bettor_number, NamesRule, NamesBettor};
ghost use Rattle.plantlog.specs.Layouts.{kind_byte};

use super::fault::RecordFault;
use edetector::table::{AlternativeTable, NullTable};

// The restart rule that a setup names.
#[derive(Clone, Copy, Debug, PartialEq, Eq)]
pub enum RuleChoice {
    ShiryaevRoberts = 1,
    Page = 2,
}

// The bettor that a setup names.
#[derive(Clone, Copy, Debug, PartialEq, Eq)]
pub enum BettorChoice {
    Fixed = 1,
    Adaptive = 2,
    Mixture = 3,
}

#[derive(Clone, Copy, Debug, PartialEq, Eq)]
pub struct Setup {
    pub threshold: u32,
    pub rule: RuleChoice,
    pub bettor: BettorChoice,
}

// What reading gives: any record but a count, which only a slip may learn.
#[derive(Clone, Copy, Debug, PartialEq, Eq)]
pub enum Record {
    Table(NullTable),
    Setup(Setup),
    Alternative(AlternativeTable),
    Rearm,
    // how many count records the log has
    End { counts: u32 },
}

// The kinds of records, each with the first byte of its bodies.
#[derive(Clone, Copy, Debug, PartialEq, Eq)]
pub enum RecordKind {
    Table = 1,
    Setup = 2,
    Alternative = 3,
    Count = 4,
    Rearm = 5,
    End = 6,
}

// What anybody may know of a count before a slip learns its number.
#[derive(Clone, Copy, Debug, PartialEq, Eq)]
pub struct CountHead {
    pub day: u32,
}

// What asking tells of the next record. `Other` never holds the kind of a count.
#[derive(Clone, Copy, Debug, PartialEq, Eq)]
pub enum Announced {
    Count(CountHead),
    Other(RecordKind),
}

// A record taken apart, before it is known which call it is for.
#[derive(Clone, Copy, Debug, PartialEq, Eq)]
pub(super) enum Parsed {
    Count { head: CountHead, count: u32 },
    Other(Record),
}

impl From<RuleChoice> for u32 {
    ghost from_gives = { λ rule n. n ≡ rule_number rule };

    fn from(rule: RuleChoice) -> u32 {
        rule as u32
    }
}

impl TryFrom<u32> for RuleChoice {
    type Error = RecordFault;

    ghost try_from_gives = { NamesRule };

    fn try_from(number: u32) -> Result<RuleChoice, RecordFault> {
        match number {
            1 => Ok(RuleChoice::ShiryaevRoberts),
            2 => Ok(RuleChoice::Page),
            _ => Err(RecordFault::UnknownChoice),
        }
    }
}

impl From<BettorChoice> for u32 {
    ghost from_gives = { λ bettor n. n ≡ bettor_number bettor };

    fn from(bettor: BettorChoice) -> u32 {
        bettor as u32
    }
}

impl TryFrom<u32> for BettorChoice {
    type Error = RecordFault;

    ghost try_from_gives = { NamesBettor };

    fn try_from(number: u32) -> Result<BettorChoice, RecordFault> {
        match number {
            1 => Ok(BettorChoice::Fixed),
            2 => Ok(BettorChoice::Adaptive),
            3 => Ok(BettorChoice::Mixture),
            _ => Err(RecordFault::UnknownChoice),
        }
    }
}

// The kind byte.
impl From<RecordKind> for u8 {
    ghost from_gives = { λ kind n. n ≡ kind_byte kind };

    fn from(kind: RecordKind) -> u8 {
        kind as u8
    }
}

impl From<Record> for RecordKind {
    ghost use Rattle.plantlog.specs.Format.{kind_of};
    ghost use Rattle.plantlog.specs.Views.{record_said};

    ghost from_gives = { λ r kind. kind ≡ kind_of (record_said r) };

    fn from(record: Record) -> RecordKind {
        match record {
            Record::Table(_) => RecordKind::Table,
            Record::Setup(_) => RecordKind::Setup,
            Record::Alternative(_) => RecordKind::Alternative,
            Record::Rearm => RecordKind::Rearm,
            Record::End { .. } => RecordKind::End,
        }
    }
}

impl Parsed {
    ghost use Rattle.plantlog.specs.Results.{of_ok};
    ghost use Rattle.plantlog.specs.Calls.{no_count, only_count};
    ghost use Rattle.plantlog.specs.Views.{record_said, parsed_said};

    // For a call that wants a count.
    pub(super) fn count(self) -> Result<u32, RecordFault>
        ensures { result ≡ only_count (parsed_said self) }
    {
        match self {
            Parsed::Count { count, .. } => Ok(count),
            Parsed::Other(_) => Err(RecordFault::WrongCall),
        }
    }

    // For a call that wants another record.
    pub(super) fn record(self) -> Result<Record, RecordFault>
        ensures { of_ok record_said result ≡ no_count (parsed_said self) }
    {
        match self {
            Parsed::Count { .. } => Err(RecordFault::WrongCall),
            Parsed::Other(record) => Ok(record),
        }
    }
}
