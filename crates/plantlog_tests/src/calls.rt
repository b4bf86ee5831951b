// The calls on a log or a buffer of a test, with each refusal told by its number.
use edetector::table::{AlternativeTable, NullTable};
use edetector::units::Weight;
use edetector::value::ValueFault;
use plantlog::fault::RecordFault;
use plantlog::reader::{RECEIVE_BUFFER, Reader};
use plantlog::record::{Announced, Record};

// The same answer with the number of a refusal.
pub(super) fn numbered<T: Drop, E: Into<u8>>(answer: Result<T, E>) -> Result<T, u8> {
    answer.map_err(|fault| fault.into())
}

// The number of the refusal, if it is one: a line, as the library's tests have it.
pub(super) fn refusal<T: Drop, E: Into<u8>>(answer: Result<T, E>) -> Option<u8> {
    numbered(answer).err()
}

pub(super) fn read(log: &[u8]) -> Result<Record, RecordFault> {
    Reader::new(log).read(&mut [7u8; RECEIVE_BUFFER])
}

pub(super) fn pass_over(log: &[u8]) -> Result<(), RecordFault> {
    Reader::new(log).pass_over(&mut [7u8; RECEIVE_BUFFER])
}

pub(super) fn ask(log: &[u8]) -> Result<Option<Announced>, RecordFault> {
    Reader::new(log).ask(&mut [7u8; RECEIVE_BUFFER])
}

pub(super) fn table_of(weights: &[Weight]) -> Result<Record, ValueFault> {
    Ok(Record::Table(NullTable::new(weights)?))
}

pub(super) fn alternative_of(weights: &[Weight]) -> Result<Record, ValueFault> {
    Ok(Record::Alternative(AlternativeTable::new(weights)?))
}
