// A bettor: a null table, and the rows of factors that it plays, whatever it learns.
ghost use Rattle.std.specs.Prelude.{◌≡◌, ◌≤◌, [], length, slice_index};
ghost use Rattle.edetector.specs.Tables.{factors_in, padded_row};
ghost use Rattle.edetector.specs.Bettors.{Meaning, IsBettor, meaning_after};

use super::units::{Factor, Row, Weight};
use std::array;

/// An own bettor shows its meaning and the law of its meaning, and the bound holds for it.
pub trait Bettor {
    ghost meaning: { Self → Meaning };

    /// How many classes the null table has.
    fn classes(&self) -> usize
        ensures { result ≡ length (meaning self.now).nulls };

    /// The weight of a class, or 0 past the last.
    fn weight(&self, class: usize) -> Weight
        ensures { result.0 ≡ slice_index (meaning self.now).nulls class };

    /// The factor of a class in the row now, or 0 past the last.
    fn factor(&self, class: usize) -> Factor
        ensures { result.0 ≡ slice_index ((meaning self.now).strategy []) class };

    /// A number that is no class changes nothing.
    fn learn(&mut self, class: usize)
        ensures step { meaning self.new ≡ meaning_after (meaning self.old) class }
        ensures same { length (meaning self.old).nulls ≤ class → self.new ≡ self.old };

    /// The row now, with zeros behind it.
    fn row(&self) -> Row
        ensures { factors_in result ≡ padded_row ((meaning self.now).strategy []) }
    {
        array::from_fn(|k| self.factor(k))
    }

    ghost law: { (b : Self) → IsBettor (meaning b) };
}
