// The line of an alarm.
ghost use Rattle.std.specs.Prelude.{Some};
ghost use Rattle.daybook.specs.Lines.{alarm_line};

use super::wealth::InBets;
use crate::entry::alarm::Alarm;
use std::fmt;

impl fmt::Display for Alarm {
    ghost output = { λ a. Some (alarm_line a) };

    fn fmt<W: fmt::Write>(&self, f: &mut fmt::Formatter<W>) -> fmt::Result {
        let Alarm { day, round, ledger } = *self;
        let wealth = InBets(ledger);
        write!(f, "alarm round {round} day {day} wealth {wealth}")
    }
}
