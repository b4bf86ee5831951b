// An entry of a book, and its place in the order of a book.
ghost use Rattle.std.specs.Prelude.{◌≡◌, ℕ};

pub mod alarm;
pub mod unwatched;

pub trait Keyed {
    // the entry's key
    ghost key: { Self → ℕ };

    fn key(&self) -> u64
        ensures { result ≡ key self.now };
}
