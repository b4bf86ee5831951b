// Why a record is refused. The fault of a front, a number or a value stands inside it unchanged.
ghost use Rattle.std.specs.Prelude.{◌≡◌};
ghost use Rattle.plantlog.specs.declared.fault.RecordFault.TheVariants.{Front as InFront, Number as InNumber, Value as InValue};
ghost use Rattle.plantlog.specs.RecordFaults.{front_fault_number, record_fault_number, record_fault_layer};

use super::number::NumberFault;
use edetector::value::ValueFault;

// Why no body stands in front, so that nothing tells where another record would begin.
#[derive(Clone, Copy, Debug, PartialEq, Eq)]
pub enum FrontFault {
    // the log is used up
    NoneLeft = 45,
    // no body has the length that the first byte says
    LengthByte = 21,
    // the log stops inside the body
    Truncated = 22,
}

#[derive(Clone, Copy, Debug, PartialEq, Eq)]
pub enum RecordFault {
    // no body stands in front
    Front(FrontFault),
    // one of the values is out of bounds
    Value(ValueFault),
    // one of the numbers is no number
    Number(NumberFault),
    // the longest body might not fit into the buffer lent for it
    ReceiveBuffer,
    // no kind of record has this first byte
    UnknownKind,
    // no rule, or no bettor, has this number
    UnknownChoice,
    // the body goes on behind its fields
    LeftOver,
    // the call is for counts and this is none, or the other way round
    WrongCall,
    // the record does not fit into the buffer lent for writing it
    WriteBuffer,
}

// Where a refusal was found.
#[derive(Clone, Copy, Debug, PartialEq, Eq)]
pub enum Layer {
    Value,
    Number,
    Record,
}

impl From<FrontFault> for u8 {
    ghost from_gives = { λ fault n. n ≡ front_fault_number fault };

    fn from(fault: FrontFault) -> u8 {
        fault as u8
    }
}

impl From<RecordFault> for u8 {
    ghost from_gives = { λ fault n. n ≡ record_fault_number fault };

    fn from(fault: RecordFault) -> u8 {
        match fault {
            RecordFault::Front(cause) => u8::from(cause),
            RecordFault::Value(cause) => u8::from(cause),
            RecordFault::Number(cause) => u8::from(cause),
            RecordFault::ReceiveBuffer => 27,
            RecordFault::UnknownKind => 23,
            RecordFault::UnknownChoice => 25,
            RecordFault::LeftOver => 24,
            RecordFault::WrongCall => 28,
            RecordFault::WriteBuffer => 26,
        }
    }
}

impl RecordFault {
    pub fn layer(self) -> Layer
        ensures { result ≡ record_fault_layer self }
    {
        match self {
            RecordFault::Value(_) => Layer::Value,
            RecordFault::Number(_) => Layer::Number,
            _ => Layer::Record,
        }
    }
}

impl From<FrontFault> for RecordFault {
    ghost from_gives = { λ e r. r ≡ InFront e };

    fn from(e: FrontFault) -> RecordFault {
        RecordFault::Front(e)
    }
}

impl From<NumberFault> for RecordFault {
    ghost from_gives = { λ e r. r ≡ InNumber e };

    fn from(e: NumberFault) -> RecordFault {
        RecordFault::Number(e)
    }
}

impl From<ValueFault> for RecordFault {
    ghost from_gives = { λ e r. r ≡ InValue e };

    fn from(e: ValueFault) -> RecordFault {
        RecordFault::Value(e)
    }
}
