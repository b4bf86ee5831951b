// How a book is made, filled, read and emptied.
ghost use Rattle.std.specs.Prelude.{◌≡◌, [], ◌∷◌, ◌++◌, length, OnOk, OnErr};
ghost use Rattle.daybook.specs.Books.{entries_of, unused_of, places_of, lender_of, all_used, enter_answer, Keeps};
ghost use Rattle.daybook.specs.Keys.{KeysRise, above_in};

use super::Book;
use crate::entry::Keyed;
use crate::fault::BookFault;

impl<'a, E: Keyed + Copy> Book<'a, E> {
    // An empty book over the caller's places.
    pub fn new(places: &'a mut [E]) -> Book<'a, E>
        ensures entries { entries_of result ≡ [] }
        ensures unused { unused_of result ≡ places.old }
        ensures lender { lender_of result ≡ places.entry.ghost_name }
    {
        Book { places, used: 0 }
    }

    // Writes e into the first unused place.
    pub fn enter(&mut self, e: E) -> Result<(), BookFault>
        ensures answer { result ≡ enter_answer E.key (places_of self.old) (entries_of self.old) e }
        ensures entered { OnOk result (entries_of self.new ≡ entries_of self.old ++ (e ∷ [])) }
        ensures kept { Keeps self.old self.new }
        ensures refused { OnErr result (self.new ≡ self.old) }
    {
        if self.is_full() {
            return Err(BookFault::Full);
        }
        if !self.may_follow(&e) {
            return Err(BookFault::KeyNotAbove);
        }
        self.places[self.used] = e;
        self.used += 1;
        Ok(())
    }

    pub fn is_full(&self) -> bool
        ensures { result ≡ all_used (places_of self.now) (entries_of self.now) }
    {
        self.used >= self.places.len()
    }

    pub fn len(&self) -> usize
        ensures { result ≡ length (entries_of self.now) }
    {
        self.entries().len()
    }

    pub fn entries(&self) -> &[E]
        ensures value { result.now ≡ entries_of self.now }
        ensures rising { KeysRise E.key result.now }
    {
        &self.places[..self.used]
    }

    // Leaves no entry; the places keep what they hold.
    pub fn clear(&mut self)
        ensures entries { entries_of self.new ≡ [] }
        ensures kept { Keeps self.old self.new }
    {
        self.used = 0;
    }

    // Whether the key of e is above the last entry's.
    fn may_follow(&self, e: &E) -> bool
        ensures { result ≡ above_in E.key (entries_of self.now) (E.key e.now) }
    {
        self.entries()
            .last()
            .is_none_or(|last| last.key() < e.key())
    }
}
