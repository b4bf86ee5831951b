// Records written at the front of a buffer, one call for each kind. Each gives the record's length; the bytes behind it
// stay, and a refusal writes nothing.
// One call over an enum of what to write would hold a lent slice in one variant, and its callers could not be proved.
ghost use Rattle.std.specs.Prelude.{◌≡◌, ◌+◌, ◌-◌, []};
ghost use Rattle.edetector.specs.Tables.{weights_in};
ghost use Rattle.plantlog.specs.Format.{Fields, Table as InTable, Setup as InSetup, Alternative as InAlternative, Count as InCount, Rearm as InRearm, End as InEnd};
ghost use Rattle.plantlog.specs.Written.{fields_judged, SaysTable, Wrote};

use self::numbers::table_numbers;
use self::put::{MOST_NUMBERS, put_record};
use super::fault::RecordFault;
use super::record::{BettorChoice, RecordKind, RuleChoice};
use edetector::monitor::calls::MOST_THRESHOLD;
use edetector::table::Table;
use edetector::units::Weight;
use edetector::value::ValueFault;

mod numbers;
mod put;

// A record of the weights of a table, which are at least `LEAST`.
fn write_weights<const LEAST: u32>(
    kind: RecordKind,
    weights: &[Weight],
    out: &mut [u8],
) -> Result<usize, RecordFault>
    ghost said: { Fields }
    requires { SaysTable kind LEAST (weights_in weights.now) said }
    ensures { Wrote said out.old result out.new }
{
    let _ = Table::<LEAST>::new(weights)?;
    // a fixed array, since nothing here takes memory
    let mut list = [0; MOST_NUMBERS];
    let numbers = &mut list[..weights.len() + 1];
    table_numbers(weights, numbers);
    put_record(kind, numbers, out)
}

pub fn write_table(weights: &[Weight], out: &mut [u8]) -> Result<usize, RecordFault>
    ensures { Wrote (InTable (weights_in weights.now)) out.old result out.new }
{
    write_weights::<1>(RecordKind::Table, weights, out)
}

fn judge_setup(threshold: u32, rule: u32, bettor: u32) -> Result<(), RecordFault>
    ensures { result ≡ fields_judged (InSetup (record { threshold = threshold; rule = rule; bettor = bettor })) }
{
    if !(1..=MOST_THRESHOLD).contains(&threshold) {
        return Err(RecordFault::Value(ValueFault::Threshold));
    }
    let _ = RuleChoice::try_from(rule)?;
    let _ = BettorChoice::try_from(bettor)?;
    Ok(())
}

// Rule and bettor are the numbers that the log has for them, here and in `judge_setup`, so that a caller
// may hand over any two.
pub fn write_setup(
    threshold: u32,
    rule: u32,
    bettor: u32,
    out: &mut [u8],
) -> Result<usize, RecordFault>
    ensures { Wrote (InSetup (record { threshold = threshold; rule = rule; bettor = bettor }))
        out.old result out.new }
{
    judge_setup(threshold, rule, bettor)?;
    put_record(RecordKind::Setup, &[threshold, rule, bettor], out)
}

pub fn write_alternative(weights: &[Weight], out: &mut [u8]) -> Result<usize, RecordFault>
    ensures { Wrote (InAlternative (weights_in weights.now)) out.old result out.new }
{
    write_weights::<0>(RecordKind::Alternative, weights, out)
}

pub fn write_count(day: u32, count: u32, out: &mut [u8]) -> Result<usize, RecordFault>
    ensures { Wrote (InCount (record { day = day }) count) out.old result out.new }
{
    put_record(RecordKind::Count, &[day, count], out)
}

pub fn write_rearm(out: &mut [u8]) -> Result<usize, RecordFault>
    ensures { Wrote InRearm out.old result out.new }
{
    put_record(RecordKind::Rearm, &[], out)
}

// `counts` is how many count records the log has.
pub fn write_end(counts: u32, out: &mut [u8]) -> Result<usize, RecordFault>
    ensures { Wrote (InEnd counts) out.old result out.new }
{
    put_record(RecordKind::End, &[counts], out)
}
