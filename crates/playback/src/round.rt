// One watched count: stake, show, settle, and enter the alarm if it rang.
ghost use Rattle.std.specs.Prelude.{◌≡◌, true, false, Ok};
ghost use Rattle.edetector.specs.Monitors.{is_fitting, view, terms_of};
ghost use Rattle.plantlog.specs.declared.record.Announced.TheVariants.{Count as CountAhead};
ghost use Rattle.plantlog.specs.Results.{of_ok};
ghost use Rattle.plantlog.specs.Format.{announced};
ghost use Rattle.daybook.specs.Books.{entries_of, places_of, all_used};
ghost use Rattle.daybook.specs.Keys.{above_in};
ghost use Rattle.playback.specs.Front.{next_fields, count_next};
ghost use Rattle.playback.specs.Held.{Grows};
ghost use Rattle.playback.specs.Rest.{behind_count, moved_if};
ghost use Rattle.playback.specs.Watch.{round as leads, settled_slip, watched};

use super::records::Records;
use super::stop::ReplayFault;
use daybook::book::Book;
use daybook::entry::alarm::Alarm;
use edetector::bettor::Bettor;
use edetector::monitor::Monitor;
use edetector::rule::RestartRule;
use edetector::slip::ShownSlip;

// Settles a slip that fits.
fn settle_shown<B: Bettor, R: RestartRule>(
    monitor: &mut Monitor<B, R>,
    slip: ShownSlip,
    day: u32,
    alarms: &mut Book<'_, Alarm>,
) -> Result<(), ReplayFault>
    requires fits { is_fitting (view B.meaning monitor.old) slip.stake ≡ true }
    requires room { all_used (places_of alarms.old) (entries_of alarms.old) ≡ false }
    requires rises { above_in (λ a. a.day) (entries_of alarms.old) day ≡ true }
    ensures does { leads result (view B.meaning monitor.new) (entries_of alarms.new)
        ≡ settled_slip (terms_of B.meaning R.base monitor.old) (view B.meaning monitor.old)
        (entries_of alarms.old) day slip }
    ensures ok { result ≡ Ok tt }
    ensures terms { terms_of B.meaning R.base monitor.new ≡ terms_of B.meaning R.base monitor.old }
    ensures kept { Grows alarms.old alarms.new }
{
    // A slip that is handed back may not be dropped, so it needs an arm with a name.
    let rang = match monitor.settle(slip) {
        Ok(rang) => rang,
        Err(_refused) => return unreachable(),
    };
    if !rang {
        return Ok(());
    }
    let now = monitor.read();
    alarms.enter(Alarm {
        day,
        round: now.rounds,
        ledger: now.ledger,
    })?;
    Ok(())
}

// A count in front is watched: it is staked on before it is seen.
pub(super) fn watch_count<B: Bettor, R: RestartRule>(
    records: &mut Records<'_>,
    monitor: &mut Monitor<B, R>,
    alarms: &mut Book<'_, Alarm>,
    day: u32,
) -> Result<(), ReplayFault>
    requires count { of_ok announced (next_fields records.old.left)
        ≡ Ok (CountAhead (record { day = day })) }
    requires room { all_used (places_of alarms.old) (entries_of alarms.old) ≡ false }
    requires rises { above_in (λ a. a.day) (entries_of alarms.old) day ≡ true }
    ensures does { leads result (view B.meaning monitor.new) (entries_of alarms.new)
        ≡ watched (terms_of B.meaning R.base monitor.old) (view B.meaning monitor.old)
        (entries_of alarms.old) day (count_next (next_fields records.old.left)) }
    ensures moved { records.new ≡ moved_if result (behind_count day records.old) records.old }
    ensures terms { terms_of B.meaning R.base monitor.new ≡ terms_of B.meaning R.base monitor.old }
    ensures kept { Grows alarms.old alarms.new }
{
    let slip = monitor.stake()?;
    match records.show(slip, day) {
        Ok(shown) => settle_shown(monitor, shown, day, alarms),
        Err(_unshown) => unreachable(),
    }
}
