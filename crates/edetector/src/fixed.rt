// The fixed bettor: it plays the likelihood ratios of one alternative, whatever it learns.
ghost use Rattle.std.specs.Prelude.{◌≡◌, [], length, None};
ghost use Rattle.edetector.specs.Tables.{factors_in, padded_row, null_fault, alternative_fault};
ghost use Rattle.edetector.specs.Bettors.{fixed_meaning};

use super::table::{AlternativeTable, NullTable};
use super::units::Row;

pub mod plays;

/// Its row is reckoned once, when it is made.
#[derive(Drop)]
pub struct Fixed {
    pub(super) null: NullTable,
    pub(super) alternative: AlternativeTable,
    pub(super) row: Row,
    ghost null_unbroken: { null_fault null ≡ None },
    ghost alternative_unbroken: { alternative_fault alternative ≡ None },
    ghost same_classes: { length alternative ≡ length null },
    ghost played: { factors_in row ≡ padded_row ((fixed_meaning null alternative).strategy []) },
}
