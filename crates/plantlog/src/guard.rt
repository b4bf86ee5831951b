// The receive buffer, held for one record.
ghost use Rattle.std.specs.Prelude.{◌≡◌, ◌<◌, ◌≤◌, length, MatchResult};
ghost use Rattle.plantlog.specs.declared.fault.RecordFault.TheVariants.{ReceiveBuffer};
ghost use Rattle.plantlog.specs.Bytes.{zeros};

use super::fault::RecordFault;
use super::reader::RECEIVE_BUFFER;

// However a call ends, the lent receive buffer is wiped.
pub(super) struct Guard<'a> {
    pub(super) buf: &'a mut [u8],
}

impl Guard<'_> {
    // Any body fits.
    pub(super) fn fits(&self) -> Result<(), RecordFault>
        ensures { MatchResult result
            (λ _. RECEIVE_BUFFER ≤ length self.now.buf.now)
            (λ fault. (fault ≡ ReceiveBuffer) × (length self.now.buf.now < RECEIVE_BUFFER)) }
    {
        if self.buf.len() < RECEIVE_BUFFER {
            return Err(RecordFault::ReceiveBuffer);
        }
        Ok(())
    }
}

impl Drop for Guard<'_> {
    fn drop(self)
        ensures { self.exit.0.now ≡ zeros self.entry.buf.now }
    {
        self.buf.fill(0);
        let Guard { buf: _ } = self;
    }
}
