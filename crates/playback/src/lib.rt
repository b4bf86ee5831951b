// The replay of a log.
#![tactic(auto)]

mod books;
mod count;
mod header;
pub mod listing;
mod open;
mod progress;
mod records;
pub mod replay;
pub mod report;
mod round;
mod rule;
mod spot;
mod step;
pub mod stop;
mod watch;
