// The replay of a whole log.
ghost use Rattle.std.specs.Prelude.{◌≡◌};
ghost use Rattle.daybook.specs.Books.{Keeps};
ghost use Rattle.playback.specs.Accepted.{NoFault, Accepted, Takes};
ghost use Rattle.playback.specs.Course.{HasWholeCourse, OneFinish};
ghost use Rattle.playback.specs.Figures.{Figures};
ghost use Rattle.playback.specs.Held.{places_in};
ghost use Rattle.playback.specs.Planned.{Planned};
ghost use Rattle.playback.specs.Promised.{Promised};
ghost use Rattle.playback.specs.Replayed.{replay_of, replay_told};

use super::books::Books;
use super::open::open;
use super::records::Records;
use super::report::Run;
use super::stop::Fault;
use daybook::book::Book;
use daybook::entry::alarm::Alarm;
use daybook::entry::unwatched::Unwatched;

// Both books begin empty, and keep at a fault what earlier records entered. Every replay has a course of events, which
// say what became of each count and rearm, and why it ended; without a fault the log holds what it should and no more,
// and a log that holds this is replayed without a fault if both books have the places. The events are the run of a plan of
// calls, and the monitor of a replay keeps the bound on alarms, with this plan and every other.
pub fn replay(
    log: &[u8],
    alarms: &mut Book<'_, Alarm>,
    unwatched: &mut Book<'_, Unwatched>,
) -> Result<Run, Fault>
    ensures value { replay_told result alarms.new unwatched.new
        ≡ replay_of (places_in alarms.old unwatched.old) log.now }
    ensures kept { Keeps alarms.old alarms.new × Keeps unwatched.old unwatched.new }
    ensures accepts { NoFault result → Accepted log.now }
    ensures takes { Takes }
    ensures whole_course { HasWholeCourse }
    ensures one_finish { OneFinish }
    ensures is_run { Planned }
    ensures bound { Promised }
    ensures figures { Figures }
{
    let mut books = Books { alarms, unwatched };
    books.alarms.clear();
    books.unwatched.clear();
    open(Records::new(log)?, &mut books)
}
