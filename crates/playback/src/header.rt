// The records before the counts: a table, a setup, and an alternative where the bettor needs one.
ghost use Rattle.std.specs.Prelude.{◌≡◌, ℕ, Err, Result, OnOk, refl};
ghost use Rattle.plantlog.specs.Format.{Fields, Count as CountFields};
ghost use Rattle.plantlog.specs.Results.{and_then};
ghost use Rattle.plantlog.specs.declared.record.CountHead.{CountHead};
ghost use Rattle.plantlog.specs.Views.{record_said};
ghost use Rattle.playback.specs.declared.stop.ReplayFault.{ReplayFault};
ghost use Rattle.playback.specs.declared.stop.ReplayFault.TheVariants.{NotAllowed};
ghost use Rattle.playback.specs.Front.{next_fields, only_table, only_setup, only_alternative};
ghost use Rattle.playback.specs.Rest.{at_spot, behind_record};

use super::records::Records;
use super::stop::{Fault, ReplayFault};
use edetector::table::{AlternativeTable, NullTable};
use plantlog::record::{Announced, Record, Setup};

// One of the records of a header. No `TryFrom` of the log's, since it is the replay that wants this record here.
pub(super) trait HeaderRecord: Copy {
    // what a record says that has to be this one
    ghost only: { Fields → Result Self ReplayFault };

    fn from_record(record: Record) -> Result<Self, ReplayFault>
        ensures { result ≡ only (record_said «record») };

    // no count is one of them
    ghost no_count: { (head : CountHead) (n : ℕ) → only (CountFields head n) ≡ Err NotAllowed };
}

impl HeaderRecord for NullTable {
    ghost only = { only_table };

    ghost no_count = { λ head n. refl };

    fn from_record(record: Record) -> Result<NullTable, ReplayFault> {
        match record {
            Record::Table(null) => Ok(null),
            _ => Err(ReplayFault::NotAllowed),
        }
    }
}

impl HeaderRecord for Setup {
    ghost only = { only_setup };

    ghost no_count = { λ head n. refl };

    fn from_record(record: Record) -> Result<Setup, ReplayFault> {
        match record {
            Record::Setup(setup) => Ok(setup),
            _ => Err(ReplayFault::NotAllowed),
        }
    }
}

impl HeaderRecord for AlternativeTable {
    ghost only = { only_alternative };

    ghost no_count = { λ head n. refl };

    fn from_record(record: Record) -> Result<AlternativeTable, ReplayFault> {
        match record {
            Record::Alternative(alternative) => Ok(alternative),
            _ => Err(ReplayFault::NotAllowed),
        }
    }
}

// The next record, which has to be a T, or why it is none.
fn next<T: HeaderRecord>(records: &mut Records<'_>) -> Result<T, ReplayFault>
    ensures value { result ≡ and_then (next_fields records.old.left) T.only }
    ensures moved { OnOk result (records.new ≡ behind_record records.old) }
{
    match records.next_told()? {
        Announced::Count(_) => Err(ReplayFault::NotAllowed),
        Announced::Other(_) => T::from_record(records.read()?),
    }
}

// The next record, which has to be a T, or the fault where it begins.
pub(super) fn header<T: HeaderRecord>(records: &mut Records<'_>) -> Result<T, Fault>
    ensures value { result
        ≡ at_spot records.old.at (and_then (next_fields records.old.left) T.only) }
    ensures moved { OnOk result (records.new ≡ behind_record records.old) }
{
    let at = records.spot();
    next(records).map_err(|cause| at.fault(cause))
}
