// A reader over a lent log.
use super::fault::RecordFault;
use super::judge::JudgedCount;
use edetector::slip::OpenSlip;
use std::marker::Model;

pub mod calls;
pub mod place;

// The most bytes that a body may have, and so what a receive buffer has to hold.
pub const RECEIVE_BUFFER: usize = 63;

// Where a reader stands: at the byte `place`, with so many records moved past. A count that was asked for is kept, so that it
// is judged once; no call shows that.
#[derive(Drop)]
pub struct Reader<'a> {
    log: &'a [u8],
    place: usize,
    records: usize,
    judged: Option<JudgedCount>,
}

impl<'a> Model for Reader<'a> {
    ghost use Rattle.plantlog.specs.Position.{Reading};

    ghost Value = { Reading };

    ghost use Rattle.plantlog.specs.InReader.{reading_of, Stands};

    ghost view = { reading_of };

    ghost invariant = { Stands };
}

// A slip to which no count was shown, and why. As one type with the monitor's `Refused` each mention of either would have
// to name the fault.
pub struct Unshown {
    pub fault: RecordFault,
    pub slip: OpenSlip,
}
