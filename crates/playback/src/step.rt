// A rearm record, and the end.
ghost use Rattle.std.specs.Prelude.{◌≡◌, Ok};
ghost use Rattle.edetector.specs.Monitors.{outcome, view, terms_of};
ghost use Rattle.plantlog.specs.declared.record.Announced.TheVariants.{Other as OtherAhead};
ghost use Rattle.plantlog.specs.declared.record.RecordKind.TheVariants.{Rearm as ARearm, End as AnEnd};
ghost use Rattle.plantlog.specs.Results.{of_ok};
ghost use Rattle.plantlog.specs.Format.{announced};
ghost use Rattle.playback.specs.Front.{next_fields, end_next};
ghost use Rattle.playback.specs.Rest.{behind_record};
ghost use Rattle.playback.specs.Watch.{rearm_leads, end_answer};

use super::records::Records;
use super::stop::ReplayFault;
use edetector::bettor::Bettor;
use edetector::monitor::Monitor;
use edetector::rule::RestartRule;
use plantlog::record::Record;

pub(super) fn rearm<B: Bettor, R: RestartRule>(
    records: &mut Records<'_>,
    monitor: &mut Monitor<B, R>,
) -> Result<(), ReplayFault>
    requires { of_ok announced (next_fields records.old.left) ≡ Ok (OtherAhead ARearm) }
    ensures does { outcome result (view B.meaning monitor.new)
        ≡ rearm_leads (terms_of B.meaning R.base monitor.old) (view B.meaning monitor.old) }
    ensures moved { records.new ≡ behind_record records.old }
    ensures terms { terms_of B.meaning R.base monitor.new ≡ terms_of B.meaning R.base monitor.old }
{
    let _ = records.read()?;
    monitor.rearm()?;
    Ok(())
}

// The end names the number of counts before it.
pub(super) fn end(records: &mut Records<'_>) -> Result<(), ReplayFault>
    requires { of_ok announced (next_fields records.old.left) ≡ Ok (OtherAhead AnEnd) }
    ensures value { result
        ≡ end_answer records.old.counts (end_next (next_fields records.old.left)) }
    ensures moved { records.new ≡ behind_record records.old }
{
    let Record::End { counts } = records.read()? else {
        return unreachable();
    };
    if counts as usize != records.counts() {
        return Err(ReplayFault::CountsDiffer);
    }
    Ok(())
}
