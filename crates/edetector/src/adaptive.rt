// The adaptive bettor: its alternative is the null table with what it has learned added, up to a million classes.
ghost use Rattle.std.specs.Prelude.{◌≡◌, ◌≤◌, length, take, sum, None};
ghost use Rattle.edetector.specs.Tables.{null_fault, most_classes};
ghost use Rattle.edetector.specs.Bettors.{most_tallied};

use super::table::{MOST_CLASSES, NullTable};

pub mod plays;

/// It learns up to a million classes, and nothing more after them.
// How often each class was learned, and how many classes in all.
#[derive(Drop)]
pub struct Adaptive {
    pub(super) null: NullTable,
    pub(super) counts: [u32; MOST_CLASSES],
    pub(super) tallied: u32,
    ghost null_unbroken: { null_fault null ≡ None },
    ghost room: { length counts ≡ most_classes },
    ghost counted: { sum (take (length null) counts) ≡ tallied },
    ghost within: { tallied ≤ most_tallied },
}
