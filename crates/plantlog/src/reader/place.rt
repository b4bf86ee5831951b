// Where a reader stands.
ghost use Rattle.std.specs.Prelude.{◌≡◌, ◌≤◌, ◌↔◌, [], length, IsTrue};
ghost use Rattle.plantlog.specs.Position.{position, log_of, left_in};

use super::Reader;

impl<'a> Reader<'a> {
    // How many bytes of the log lie behind the reader, and so where it looks for a record.
    pub fn place(&self) -> usize
        ensures value { result ≡ (position self.now).place }
        ensures inside { result ≤ length (log_of self.now) }
    {
        self.place
    }

    // Whether no byte is left.
    pub fn is_over(&self) -> bool
        ensures { IsTrue result ↔ (left_in self.now ≡ []) }
    {
        self.log.len() == self.place
    }

    // How many records were moved past.
    pub fn records(&self) -> usize
        ensures value { result ≡ (position self.now).records }
        ensures few { result ≤ length (log_of self.now) }
        ensures passed { result ≤ (position self.now).place }
    {
        self.records
    }
}
