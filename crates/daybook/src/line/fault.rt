// The line that tells why a replay stopped, and where.
ghost use Rattle.std.specs.Prelude.{Some};
ghost use Rattle.daybook.specs.Lines.{layer_text, fault_line};

use plantlog::fault::Layer as LogLayer;
use std::fmt;

// The place of a check.
#[derive(Clone, Copy, Debug, PartialEq, Eq)]
pub enum Layer {
    Log(LogLayer),
    Monitor,
    Book,
    Replay,
}

impl fmt::Display for Layer {
    ghost output = { λ l. Some (layer_text l) };

    fn fmt<W: fmt::Write>(&self, f: &mut fmt::Formatter<W>) -> fmt::Result {
        f.write_str(match self {
            Layer::Log(LogLayer::Value) => "value",
            Layer::Log(LogLayer::Number) => "number",
            Layer::Log(LogLayer::Record) => "record",
            Layer::Monitor => "monitor",
            Layer::Book => "book",
            Layer::Replay => "replay",
        })
    }
}

#[derive(Clone, Copy, Debug, PartialEq, Eq)]
pub struct FaultLine {
    pub number: u8,
    pub record: usize,
    pub byte: usize,
    pub layer: Layer,
}

impl fmt::Display for FaultLine {
    ghost output = { λ l. Some (fault_line l) };

    fn fmt<W: fmt::Write>(&self, f: &mut fmt::Formatter<W>) -> fmt::Result {
        let FaultLine {
            number,
            record,
            byte,
            layer,
        } = self;
        write!(
            f,
            "fault {number} record {record} byte {byte} layer {layer}"
        )
    }
}
