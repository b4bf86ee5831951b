// A table of weights in a body.
ghost use Rattle.std.specs.Prelude.{◌≡◌, ◌-◌, [], ◌∷◌};
ghost use Rattle.plantlog.specs.Results.{of_ok};
ghost use Rattle.plantlog.specs.Layouts.{TableWeights};
ghost use Rattle.plantlog.specs.FirstRecord.{read_fields};

use super::fault::RecordFault;
use super::field::FieldsLeft;
use edetector::table::{FEWEST_CLASSES, MOST_CLASSES, Table};
use edetector::units::Weight;
use edetector::value::ValueFault;

#[inline(never)]
pub(super) fn table<const LEAST: u32>(bytes: &[u8]) -> Result<Table<LEAST>, RecordFault>
    ensures { of_ok (λ ws. (ws, tt)) result ≡ read_fields (TableWeights LEAST ∷ []) bytes.now }
{
    let mut fields = FieldsLeft { bytes };
    let fault = RecordFault::Value(ValueFault::Classes);
    let classes = fields.within(FEWEST_CLASSES as u32, MOST_CLASSES as u32, fault)? as usize;
    // a fixed array, since nothing here takes memory
    let mut list = [Weight(0); MOST_CLASSES];
    let weights = &mut list[..classes];
    fields.weights(LEAST, weights)?;
    let table = Table::new(weights)?;
    fields.end()?;
    Ok(table)
}
