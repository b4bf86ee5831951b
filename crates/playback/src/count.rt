// A count record: watched, or passed over while the alarm rings. Each of the two books is asked for a
// place before the record is taken, and each function says what it leaves alone (`terms`, `kept`): one that did both would
// take the record's two ways as closures.
ghost use Rattle.std.specs.Prelude.{◌≡◌, Ok};
ghost use Rattle.edetector.specs.Monitors.{view, terms_of};
ghost use Rattle.plantlog.specs.declared.record.Announced.TheVariants.{Count as CountAhead};
ghost use Rattle.plantlog.specs.Results.{of_ok};
ghost use Rattle.plantlog.specs.Format.{announced};
ghost use Rattle.playback.specs.Front.{next_fields, count_next};
ghost use Rattle.playback.specs.Held.{watch_of, places_lent, KeepsBooks};
ghost use Rattle.playback.specs.Rest.{behind_count, moved_if};
ghost use Rattle.playback.specs.Rising.{Rising};
ghost use Rattle.playback.specs.Watch.{done, count_read};

use super::books::Books;
use super::records::Records;
use super::round::watch_count;
use super::stop::ReplayFault;
use daybook::entry::unwatched::Unwatched;
use daybook::fault::BookFault;
use edetector::bettor::Bettor;
use edetector::monitor::Monitor;
use edetector::rule::RestartRule;
use edetector::state::State;

pub(super) fn count<B: Bettor, R: RestartRule>(
    records: &mut Records<'_>,
    monitor: &mut Monitor<B, R>,
    books: &mut Books<'_, '_, '_>,
    day: u32,
) -> Result<(), ReplayFault>
    requires count { of_ok announced (next_fields records.old.left)
        ≡ Ok (CountAhead (record { day = day })) }
    requires rises { Rising (watch_of (view B.meaning monitor.old) records.old books.old) }
    ensures does { done result (watch_of (view B.meaning monitor.new) records.new books.new)
        ≡ count_read (terms_of B.meaning R.base monitor.old) (places_lent books.old)
        (watch_of (view B.meaning monitor.old) records.old books.old) records.old.at.number
        day (count_next (next_fields records.old.left)) }
    ensures moved { records.new ≡ moved_if result (behind_count day records.old) records.old }
    ensures terms { terms_of B.meaning R.base monitor.new ≡ terms_of B.meaning R.base monitor.old }
    ensures kept { KeepsBooks books.old books.new }
{
    if !records.is_above_last(day) {
        return Err(ReplayFault::DayNotAbove);
    }
    match monitor.read().state {
        State::Rung => {
            if books.unwatched.is_full() {
                return Err(BookFault::Full.into());
            }
            let record = records.spot().number;
            records.pass_over(day)?;
            books.unwatched.enter(Unwatched { day, record })?;
            Ok(())
        }
        _ => {
            if books.alarms.is_full() {
                return Err(BookFault::Full.into());
            }
            watch_count(records, monitor, books.alarms, day)
        }
    }
}
