// A body taken apart by its kind byte.
ghost use Rattle.std.specs.Prelude.{◌≡◌};
ghost use Rattle.plantlog.specs.declared.record.RecordKind.TheVariants.{Table as ATable, Setup as ASetup, Alternative as AnAlternative, Count as ACount, Rearm as ARearm, End as AnEnd};
ghost use Rattle.plantlog.specs.Results.{of_ok};
ghost use Rattle.plantlog.specs.FirstRecord.{kind_fields, body_fields};
ghost use Rattle.plantlog.specs.Views.{parsed_said};

use super::fault::RecordFault;
use super::field::FieldsLeft;
use super::record::{BettorChoice, CountHead, Parsed, Record, RuleChoice, Setup};
use super::weights::table;
use edetector::monitor::calls::MOST_THRESHOLD;
use edetector::value::ValueFault;

#[tactic(auto, unfolding(crate::specs::FirstRecord::kind_fields, crate::specs::FirstRecord::number_within))]
#[inline(always)]
fn setup_fields(bytes: &[u8]) -> Result<Parsed, RecordFault>
    ensures { of_ok parsed_said result ≡ kind_fields ASetup bytes.now }
{
    let mut fields = FieldsLeft { bytes };
    let threshold = fields.within(1, MOST_THRESHOLD, RecordFault::Value(ValueFault::Threshold))?;
    let rule = RuleChoice::try_from(fields.number()?)?;
    let bettor = BettorChoice::try_from(fields.number()?)?;
    fields.end()?;
    Ok(Parsed::Other(Record::Setup(Setup {
        threshold,
        rule,
        bettor,
    })))
}

#[tactic(auto, unfolding(crate::specs::FirstRecord::kind_fields))]
#[inline(always)]
fn count_fields(bytes: &[u8]) -> Result<Parsed, RecordFault>
    ensures { of_ok parsed_said result ≡ kind_fields ACount bytes.now }
{
    let mut fields = FieldsLeft { bytes };
    let day = fields.number()?;
    let count = fields.number()?;
    fields.end()?;
    let head = CountHead { day };
    Ok(Parsed::Count { head, count })
}

#[tactic(auto, unfolding(crate::specs::FirstRecord::kind_fields))]
#[inline(always)]
fn end_fields(bytes: &[u8]) -> Result<Parsed, RecordFault>
    ensures { of_ok parsed_said result ≡ kind_fields AnEnd bytes.now }
{
    let mut fields = FieldsLeft { bytes };
    let counts = fields.number()?;
    fields.end()?;
    Ok(Parsed::Other(Record::End { counts }))
}

#[tactic(auto, unfolding(crate::specs::FirstRecord::kind_fields))]
#[inline(always)]
fn rearm_fields(bytes: &[u8]) -> Result<Parsed, RecordFault>
    ensures { of_ok parsed_said result ≡ kind_fields ARearm bytes.now }
{
    FieldsLeft { bytes }.end()?;
    Ok(Parsed::Other(Record::Rearm))
}

#[tactic(auto, unfolding(crate::specs::FirstRecord::kind_fields))]
#[inline(always)]
fn null_fields(bytes: &[u8]) -> Result<Parsed, RecordFault>
    ensures { of_ok parsed_said result ≡ kind_fields ATable bytes.now }
{
    Ok(Parsed::Other(Record::Table(table(bytes)?)))
}

#[tactic(auto, unfolding(crate::specs::FirstRecord::kind_fields))]
#[inline(always)]
fn alternative_fields(bytes: &[u8]) -> Result<Parsed, RecordFault>
    ensures { of_ok parsed_said result ≡ kind_fields AnAlternative bytes.now }
{
    Ok(Parsed::Other(Record::Alternative(table(bytes)?)))
}

// Kind bytes are told apart here and nowhere else: an enum in between would be made by this same match. All cases are taken
// in place, each by a function of its own, so that room for a table is cleared only where one is read.
#[inline(always)]
pub(super) fn parse(body: &[u8]) -> Result<Parsed, RecordFault>
    ensures { of_ok parsed_said result ≡ body_fields body.now }
{
    match body {
        [1, rest @ ..] => null_fields(rest),
        [2, rest @ ..] => setup_fields(rest),
        [3, rest @ ..] => alternative_fields(rest),
        [4, rest @ ..] => count_fields(rest),
        [5, rest @ ..] => rearm_fields(rest),
        [6, rest @ ..] => end_fields(rest),
        _ => Err(RecordFault::UnknownKind),
    }
}
