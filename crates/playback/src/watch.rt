// The records after the header, one by one, until the end or the first fault.
ghost use Rattle.std.specs.Prelude.{◌≡◌};
ghost use Rattle.edetector.specs.Monitors.{view, terms_of};
ghost use Rattle.playback.specs.Held.{watch_of, places_lent, NothingYet, KeepsBooks};
ghost use Rattle.playback.specs.Rising.{Rising};
ghost use Rattle.playback.specs.Replaying.{stopped};
ghost use Rattle.playback.specs.Stepping.{comes_to, ends_as, Stepped, GoesOn, IfOn};
ghost use Rattle.playback.specs.Watch.{Watch};

use super::books::Books;
use super::count::count;
use super::records::Records;
use super::step::{end, rearm};
use super::stop::{Fault, ReplayFault};
use edetector::bettor::Bettor;
use edetector::monitor::Monitor;
use edetector::rule::RestartRule;
use plantlog::record::{Announced, RecordKind};

// The next record; whether more may follow it.
// What it leaves alone (`terms`, `kept`) each call below says of what it is lent: a struct of monitor and books would say it as
// often.
fn step<B: Bettor, R: RestartRule>(
    records: &mut Records<'_>,
    monitor: &mut Monitor<B, R>,
    books: &mut Books<'_, '_, '_>,
) -> Result<bool, ReplayFault>
    requires { Rising (watch_of (view B.meaning monitor.old) records.old books.old) }
    ensures does { Stepped (terms_of B.meaning R.base monitor.old) (places_lent books.old)
        records.old (watch_of (view B.meaning monitor.old) records.old books.old) result
        records.new (watch_of (view B.meaning monitor.new) records.new books.new) }
    ensures goes { IfOn result (GoesOn records.old records.new
        (watch_of (view B.meaning monitor.new) records.new books.new)) }
    ensures terms { terms_of B.meaning R.base monitor.new ≡ terms_of B.meaning R.base monitor.old }
    ensures kept { KeepsBooks books.old books.new }
{
    match records.next_told()? {
        Announced::Count(head) => count(records, monitor, books, head.day).and(Ok(true)),
        Announced::Other(kind) => match kind {
            RecordKind::Rearm => rearm(records, monitor).and(Ok(true)),
            RecordKind::End => end(records).and(Ok(false)),
            _ => Err(ReplayFault::NotAllowed),
        },
    }
}

// The fault of what stands behind the end, if anything does.
fn after_end(records: &Records<'_>) -> Option<Fault>
    ensures { (w : Watch) → stopped w result ≡ ends_as records.now w }
{
    if records.is_over() {
        return None;
    }
    Some(records.spot().fault(ReplayFault::Trailing))
}

// The fault that stops the replay, or none at its end.
pub(super) fn watch<B: Bettor, R: RestartRule>(
    records: &mut Records<'_>,
    monitor: &mut Monitor<B, R>,
    books: &mut Books<'_, '_, '_>,
) -> Option<Fault>
    requires { NothingYet records.old books.old }
    ensures value { stopped (watch_of (view B.meaning monitor.new) records.new books.new) result
        ≡ comes_to (terms_of B.meaning R.base monitor.old) (places_lent books.old) records.old
        (watch_of (view B.meaning monitor.old) records.old books.old) }
    ensures kept { KeepsBooks books.old books.new }
{
    loop {
        let at = records.spot();
        match step(records, monitor, books) {
            Ok(true) => {}
            Ok(false) => return after_end(records),
            Err(cause) => return Some(at.fault(cause)),
        }
    }
}
