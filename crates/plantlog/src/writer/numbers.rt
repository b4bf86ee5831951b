// The numbers of a table to be written.
ghost use Rattle.std.specs.Prelude.{◌≡◌, ◌+◌, ◌≤◌, ◌∷◌, length};
ghost use Rattle.edetector.specs.Tables.{most_classes, weights_in};

use edetector::units::Weight;

// A table's numbers: how many weights there are, and then each.
// A loop, since it writes a place in each turn.
pub(super) fn table_numbers(weights: &[Weight], numbers: &mut [u32])
    requires few { length weights.now ≤ most_classes }
    requires room { length numbers.old ≡ length weights.now + 1 }
    ensures { numbers.new ≡ length (weights_in weights.now) ∷ weights_in weights.now }
{
    numbers[0] = weights.len() as u32;
    for (k, weight) in weights.iter().enumerate() {
        numbers[k + 1] = weight.0;
    }
}
