// The line of a day whose count was passed over.
ghost use Rattle.std.specs.Prelude.{Some};
ghost use Rattle.daybook.specs.Lines.{unwatched_line};

use crate::entry::unwatched::Unwatched;
use std::fmt;

impl fmt::Display for Unwatched {
    ghost output = { λ u. Some (unwatched_line u) };

    fn fmt<W: fmt::Write>(&self, f: &mut fmt::Formatter<W>) -> fmt::Result {
        let Unwatched { day, record } = self;
        write!(f, "unwatched day {day} record {record}")
    }
}
