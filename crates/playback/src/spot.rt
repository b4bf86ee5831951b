// A place in a log at which a record is looked for.
ghost use Rattle.std.specs.Prelude.{◌≡◌};
ghost use Rattle.playback.specs.Replaying.{fault_in};

use super::stop::{Fault, ReplayFault};

// The record's number, from 1, and its first byte, from 0.
#[derive(Clone, Copy, Debug, PartialEq, Eq)]
pub(super) struct Spot {
    pub(super) number: usize,
    pub(super) byte: usize,
}

impl Spot {
    // The fault of a cause there.
    pub(super) fn fault(self, cause: ReplayFault) -> Fault
        ensures { result ≡ fault_in self cause }
    {
        Fault {
            cause,
            record: self.number,
            byte: self.byte,
        }
    }
}
