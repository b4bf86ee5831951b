// Books of entries with keys, and the lines of a listing.
#![tactic(auto)]

pub mod book;
pub mod entry;
pub mod fault;
pub mod line;
