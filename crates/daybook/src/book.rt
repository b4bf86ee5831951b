// A book: the caller's places, of which the first ones hold entries whose keys rise.
ghost use Rattle.std.specs.Prelude.{◌≤◌, length, take};
ghost use Rattle.daybook.specs.Keys.{KeysRise};

use crate::entry::Keyed;

pub mod calls;

#[derive(Drop)]
pub struct Book<'a, E: Keyed> {
    // the caller's lent memory, as there is no heap here: `used` says how many of the places hold entries
    places: &'a mut [E],
    used: usize,
    ghost within: { used ≤ length places.now },
    ghost rising: { KeysRise E.key (take used places.now) },
}
