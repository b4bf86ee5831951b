// Why a book refuses an entry.
ghost use Rattle.std.specs.Prelude.{◌≡◌};
ghost use Rattle.daybook.specs.Faults.{book_number};

#[derive(Clone, Copy, Debug, PartialEq, Eq)]
pub enum BookFault {
    // no place is free
    Full = 37,
    // the last entry has the same key or a greater one
    KeyNotAbove = 38,
}

impl From<BookFault> for u8 {
    ghost from_gives = { λ fault n. n ≡ book_number fault };

    fn from(fault: BookFault) -> u8 {
        fault as u8
    }
}
