// Why a replay stops before its end. The lower layer's cause is kept whole.
ghost use Rattle.std.specs.Prelude.{◌≡◌};
ghost use Rattle.playback.specs.declared.stop.ReplayFault.TheVariants.{Record as InRecord, Value as InValue, Monitor as InMonitor, Book as InBook};

use daybook::fault::BookFault;
use edetector::fault::MonitorFault;
use edetector::value::ValueFault;
use plantlog::fault::RecordFault;

pub mod tells;

#[derive(Clone, Copy, Debug, PartialEq, Eq)]
pub enum ReplayFault {
    Record(RecordFault),
    Value(ValueFault),
    Monitor(MonitorFault),
    Book(BookFault),
    // a record of a kind that has no place at this point of a log
    NotAllowed,
    // a count whose day does not come after that of the count before it
    DayNotAbove,
    // an end that tells another number of counts than were read
    CountsDiffer,
    // a log that goes on behind its end
    Trailing,
    // a log of more than 65,536 bytes
    TooLong,
}

// A fault, with the number of the record that it is about, counted from 1, and how many bytes of the log lie before that.
#[derive(Clone, Copy, Debug, PartialEq, Eq)]
pub struct Fault {
    pub cause: ReplayFault,
    pub record: usize,
    pub byte: usize,
}

impl From<RecordFault> for ReplayFault {
    ghost from_gives = { λ e r. r ≡ InRecord e };

    fn from(e: RecordFault) -> ReplayFault {
        ReplayFault::Record(e)
    }
}

impl From<ValueFault> for ReplayFault {
    ghost from_gives = { λ e r. r ≡ InValue e };

    fn from(e: ValueFault) -> ReplayFault {
        ReplayFault::Value(e)
    }
}

impl From<MonitorFault> for ReplayFault {
    ghost from_gives = { λ e r. r ≡ InMonitor e };

    fn from(e: MonitorFault) -> ReplayFault {
        ReplayFault::Monitor(e)
    }
}

impl From<BookFault> for ReplayFault {
    ghost from_gives = { λ e r. r ≡ InBook e };

    fn from(e: BookFault) -> ReplayFault {
        ReplayFault::Book(e)
    }
}
