// What a table holds.
ghost use Rattle.std.specs.Prelude.{◌≡◌, length, sum, None, slice_index};
ghost use Rattle.edetector.specs.Tables.{table_fault, class_of};

use super::super::units::Weight;
use super::Table;

impl<const LEAST: u32> Table<LEAST> {
    /// How many classes the table has: 2 to 16. Nor does it break any other limit.
    pub fn classes(&self) -> usize
        ensures value { result ≡ length self.now }
        ensures unbroken { table_fault LEAST self.now ≡ None }
    {
        self.classes
    }

    /// The total of all weights.
    pub fn total(&self) -> u32
        ensures { result ≡ sum self.now }
    {
        self.total
    }

    /// The weight of a class, or 0 past the last.
    pub fn weight(&self, class: usize) -> Weight
        ensures { result.0 ≡ slice_index self.now class }
    {
        let held = &self.weights[..self.classes];
        held.get(class).copied().unwrap_or_default()
    }
}

/// The class of a count: its own number, or the last class.
pub fn class_of(classes: usize, count: u32) -> usize
    ensures { result ≡ class_of classes count }
{
    (count as usize).min(classes.saturating_sub(1))
}
