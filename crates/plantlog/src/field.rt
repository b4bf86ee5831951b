// The fields of a record, taken one after the other.
ghost use Rattle.std.specs.Prelude.{◌≡◌, ◌-◌, ◌≤◌, [], length, IfOk};
ghost use Rattle.edetector.specs.Tables.{weights_in};
ghost use Rattle.plantlog.specs.Results.{of_ok};
ghost use Rattle.plantlog.specs.FirstRecord.{any_number, number_within, no_more, weights as weights_read};

use super::fault::RecordFault;
use super::number::read_number;
use edetector::table::MOST_WEIGHT;
use edetector::units::Weight;
use edetector::value::ValueFault;

// The bytes of the fields that are still to be taken.
#[derive(Drop)]
pub(super) struct FieldsLeft<'a> {
    pub(super) bytes: &'a [u8],
}

impl<'a> FieldsLeft<'a> {
    #[tactic(auto, unfolding(crate::specs::FirstRecord::any_number))]
    pub(super) fn number(&mut self) -> Result<u32, RecordFault>
        ensures { of_ok (λ n. (n, self.new.bytes.now)) result ≡ any_number self.old.bytes.now }
    {
        let (n, rest) = read_number(self.bytes)?;
        self.bytes = rest;
        Ok(n)
    }

    // A number from `low` to `high`.
    #[tactic(auto, unfolding(crate::specs::FirstRecord::number_within))]
    pub(super) fn within(
        &mut self,
        low: u32,
        high: u32,
        fault: RecordFault,
    ) -> Result<u32, RecordFault>
        ensures value { of_ok (λ n. (n, self.new.bytes.now)) result
            ≡ number_within low high fault self.old.bytes.now }
        ensures limits { IfOk result (λ n. (low ≤ n) × (n ≤ high)) }
    {
        let n = self.number()?;
        if !(low..=high).contains(&n) {
            return Err(fault);
        }
        Ok(n)
    }

    // As many weights of at least `low` as the slice has places.
    pub(super) fn weights(&mut self, low: u32, weights: &mut [Weight]) -> Result<(), RecordFault>
        ensures { of_ok (λ _. (weights_in weights.new, self.new.bytes.now)) result
            ≡ weights_read low (length weights.old) self.old.bytes.now }
    {
        for weight in weights.iter_mut() {
            *weight = Weight(self.within(
                low,
                MOST_WEIGHT,
                RecordFault::Value(ValueFault::Weight),
            )?);
        }
        Ok(())
    }

    // Nothing may follow the last field.
    pub(super) fn end(&self) -> Result<(), RecordFault>
        ensures { result ≡ no_more self.now.bytes.now }
    {
        match self.bytes {
            [] => Ok(()),
            [_, ..] => Err(RecordFault::LeftOver),
        }
    }
}
