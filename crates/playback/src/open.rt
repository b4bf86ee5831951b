// The header, and the monitor that it asks for.
ghost use Rattle.std.specs.Prelude.{◌≡◌, IfOk, OnOk};
ghost use Rattle.edetector.specs.NamedBettors.{tables_of};
ghost use Rattle.plantlog.specs.Results.{of_ok};
ghost use Rattle.playback.specs.Held.{places_lent, NothingYet, KeepsBooks};
ghost use Rattle.playback.specs.Replayed.{monitored, replayed, replay_told, alternative_for};
ghost use Rattle.playback.specs.Rest.{at_spot, behind_record};
ghost use Rattle.playback.specs.Stream.{stream_of};

use super::books::Books;
use super::header::header;
use super::records::Records;
use super::report::Run;
use super::rule::ChosenRule;
use super::stop::Fault;
use super::watch::watch;
use edetector::adaptive::Adaptive;
use edetector::bettor::Bettor;
use edetector::fixed::Fixed;
use edetector::mixture::Mixture;
use edetector::monitor::Monitor;
use edetector::table::{AlternativeTable, NullTable};
use plantlog::record::{BettorChoice, Setup};

// A type for records and books before the first count would only wrap both, so three functions ask for `NothingYet`.

// The monitor with tag 1 watches the rest of the log.
fn run<B: Bettor + Drop>(
    bettor: B,
    null: NullTable,
    setup: Setup,
    mut records: Records<'_>,
    books: &mut Books<'_, '_, '_>,
) -> Result<Run, Fault>
    requires table { (B.meaning bettor).nulls ≡ null }
    requires begins { NothingYet records books.old }
    ensures value { replay_told result books.new.alarms.now books.new.unwatched.now
        ≡ monitored (places_lent books.old) setup (B.meaning bettor)
        (stream_of records.entry.left) records.entry.at }
    ensures kept { KeepsBooks books.old books.new }
{
    let at = records.spot();
    let rule = ChosenRule(setup.rule);
    let made = Monitor::new(bettor, rule, setup.threshold, 1);
    let mut monitor = made.map_err(|back| at.fault(back.fault.into()))?;
    let fault = watch(&mut records, &mut monitor, books);
    Ok(Run {
        classes: null.classes(),
        total: null.total(),
        threshold: setup.threshold,
        rule: setup.rule,
        last: monitor.read(),
        fault,
    })
}

// The fixed bettor of the alternative in front.
fn fixed(null: NullTable, records: &mut Records<'_>) -> Result<Fixed, Fault>
    ensures value { of_ok (λ b. (tables_of b).1) result
        ≡ at_spot records.old.at (alternative_for null records.old.left) }
    ensures table { IfOk result (λ b. (tables_of b).0 ≡ null) }
    ensures moved { OnOk result (records.new ≡ behind_record records.old) }
{
    let at = records.spot();
    let alternative = header::<AlternativeTable>(records)?;
    Fixed::new(null, alternative).map_err(|cause| at.fault(cause.into()))
}

// A log from its first record on.
pub(super) fn open(mut records: Records<'_>, books: &mut Books<'_, '_, '_>) -> Result<Run, Fault>
    requires begins { NothingYet records books.old }
    ensures value { replay_told result books.new.alarms.now books.new.unwatched.now
        ≡ replayed (places_lent books.old) (stream_of records.entry.left) records.entry.at }
    ensures kept { KeepsBooks books.old books.new }
{
    let null = header::<NullTable>(&mut records)?;
    let setup = header::<Setup>(&mut records)?;
    match setup.bettor {
        BettorChoice::Adaptive => run(Adaptive::new(null), null, setup, records, books),
        BettorChoice::Fixed => run(fixed(null, &mut records)?, null, setup, records, books),
        BettorChoice::Mixture => {
            let mixture = Mixture::new(fixed(null, &mut records)?, Adaptive::new(null));
            run(mixture, null, setup, records, books)
        }
    }
}
