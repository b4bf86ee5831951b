// The plant log: numbers, records, a reader and a writer.
#![tactic(auto)]

pub mod fault;
mod field;
mod guard;
mod judge;
pub mod number;
mod parse;
pub mod reader;
pub mod record;
mod weights;
pub mod writer;
