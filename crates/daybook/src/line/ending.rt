// The line of a log that was read to its end.
ghost use Rattle.std.specs.Prelude.{Some};
ghost use Rattle.daybook.specs.Lines.{end_line};

use std::fmt;

#[derive(Clone, Copy, Debug, PartialEq, Eq)]
pub struct EndLine {
    pub rounds: u32,
    pub alarms: usize,
    pub unwatched: usize,
}

impl fmt::Display for EndLine {
    ghost output = { λ e. Some (end_line e) };

    fn fmt<W: fmt::Write>(&self, f: &mut fmt::Formatter<W>) -> fmt::Result {
        let EndLine {
            rounds,
            alarms,
            unwatched,
        } = self;
        write!(
            f,
            "end rounds {rounds} alarms {alarms} unwatched {unwatched}"
        )
    }
}
