// Tables of class weights.
use super::units::Weight;
use std::marker::Model;

pub mod make;
pub mod reads;

/// The fewest classes of a table.
pub const FEWEST_CLASSES: usize = 2;

/// The most classes of a table.
pub const MOST_CLASSES: usize = 16;

/// The largest weight of a class.
pub const MOST_WEIGHT: u32 = 65536;

/// The largest total of all weights.
pub const MOST_TOTAL: u32 = 65536;

/// The weights of 2 to 16 classes, none below `LEAST`. A contract sees the list of them, as numbers.
#[derive(Clone, Copy, Debug, PartialEq, Eq)]
pub struct Table<const LEAST: u32> {
    classes: usize,
    weights: [Weight; MOST_CLASSES],
    total: u32,
}

impl<const LEAST: u32> Model for Table<LEAST> {
    ghost use Rattle.std.specs.Prelude.{ℕ, List, length, sum, take};
    ghost use Rattle.edetector.specs.Tables.{weights_in};
    ghost use Rattle.edetector.specs.Lemmas.Places.{IsTable, places_for, held_long, held_back};

    ghost Value = { List ℕ };

    ghost view = { λ t. take t.classes (weights_in t.weights) };

    ghost invariant = { λ t. IsTable LEAST t.classes t.weights t.total };

    ghost inverse = { λ ws.
        record { classes = length ws; weights = places_for ws; total = sum ws } };

    ghost inverse_ok = { λ t h i. record {
      classes = held_long LEAST t.classes t.weights t.total h i;
      weights = held_back LEAST t.classes t.weights t.total h i;
      total = h.sums i;
    } };
}

/// How often each class comes on a sound line. No weight is 0.
pub type NullTable = Table<1>;

/// How often each class would come on a worn line. Some weights may be 0, but not all.
pub type AlternativeTable = Table<0>;
