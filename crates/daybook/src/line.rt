// The lines of a listing, each by the exact bytes that it prints.
pub mod alarm;
pub mod block;
pub mod ending;
pub mod fault;
pub mod setup;
pub mod unwatched;
pub mod wealth;
