// The calls of a reader. That no byte of a count stays behind, and that a refusal moves nothing, each call promises for itself.
ghost use Rattle.std.specs.Prelude.{◌≡◌, ◌+◌, ◌-◌, ◌<◌, ◌≤◌, ◌↔◌, [], length, MatchResult};
ghost use Rattle.plantlog.specs.Bytes.{zeros};
ghost use Rattle.plantlog.specs.Results.{of_ok};
ghost use Rattle.plantlog.specs.Views.{record_said, parsed_said};
ghost use Rattle.plantlog.specs.FirstRecord.{longest_body};
ghost use Rattle.plantlog.specs.Calls.{span, asked, next_in, next_count, next_other};
ghost use Rattle.plantlog.specs.Laws.{ReadBack, WrittenSo, RefusedSo, SoRefused, CallsRefusedSo, SoCallsRefused, WorkedRefusals, LogReadBack, LogWrittenSo, OneWriting};
ghost use Rattle.plantlog.specs.Slips.{shown_to};
ghost use Rattle.plantlog.specs.Position.{position, log_of, left_in, left_after, behind, moved};

use super::super::fault::RecordFault;
use super::super::judge::{JudgedCount, judge_next, wiped};
use super::super::record::{Announced, Parsed, Record, RecordKind};
use super::{Reader, Unshown};
use edetector::slip::{OpenSlip, ShownSlip};

impl<'a> Reader<'a> {
    pub fn new(log: &'a [u8]) -> Reader<'a>
        ensures value { position result ≡ record { place = 0; records = 0 } }
        ensures log { log_of result ≡ log.now }
        ensures written { WrittenSo }
        ensures all_written { LogWrittenSo }
        ensures one_writing { OneWriting }
        ensures back { ReadBack }
        ensures all_back { LogReadBack }
        ensures refused { RefusedSo × SoRefused }
        ensures calls_refused { CallsRefusedSo × SoCallsRefused }
        ensures figures { WorkedRefusals }
    {
        Reader {
            log,
            place: 0,
            records: 0,
            judged: None,
        }
    }

    // What stands next, after all of it was checked; the reader stays where it is.
    #[inline(always)]
    pub fn ask(&mut self, buf: &mut [u8]) -> Result<Option<Announced>, RecordFault>
        ensures zero { buf.new ≡ zeros buf.old }
        ensures value { result ≡ asked (length buf.old) (left_in self.old) }
        ensures none { (result ≡ Ok None)
            ↔ ((longest_body ≤ length buf.old) × (left_in self.old ≡ [])) }
        ensures same { self.new ≡ self.old }
    {
        if self.is_over() {
            wiped(buf)?;
            return Ok(None);
        }
        let (parsed, span) = judge_next(&self.log[self.place..], buf)?;
        let (told, judged) = match parsed {
            Parsed::Count { head, count } => {
                (Announced::Count(head), Some(JudgedCount { count, span }))
            }
            Parsed::Other(record) => (Announced::Other(RecordKind::from(record)), None),
        };
        self.judged = judged;
        Ok(Some(told))
    }

    // Moves past the record in front, of so many bytes.
    fn move_past(&mut self, taken: usize)
        requires spans { taken ≡ span (left_in self.old) }
        requires within { taken ≤ length (left_in self.old) }
        requires some { 1 ≤ taken }
        ensures moved { position self.new ≡ behind (left_in self.old) (position self.old) }
        ensures same { log_of self.new ≡ log_of self.old }
    {
        self.place += taken;
        self.records += 1;
        self.judged = None;
    }

    // Moves past the next record if `take` accepts it, and gives what it makes of it.
    #[inline(never)]
    fn next<T, F: FnOnce(Parsed) -> Result<T, RecordFault>>(
        &mut self,
        buf: &mut [u8],
        take: F,
    ) -> Result<T, RecordFault>
        requires { (p : _) → F.pre take p }
        ensures zero { buf.new ≡ zeros buf.old }
        ensures value { MatchResult (next_in (length buf.old) (left_in self.old))
            (λ q. (p : _) × (parsed_said p ≡ q.0) × F.post take p result)
            (λ e. result ≡ Err e) }
        ensures moved { position self.new ≡ moved result (left_in self.old) (position self.old) }
        ensures same { log_of self.new ≡ log_of self.old }
    {
        let (parsed, span) = judge_next(&self.log[self.place..], buf)?;
        let taken = take(parsed)?;
        self.move_past(span);
        Ok(taken)
    }

    // Reads the next record, which is no count.
    pub fn read(&mut self, buf: &mut [u8]) -> Result<Record, RecordFault>
        ensures zero { buf.new ≡ zeros buf.old }
        ensures value { of_ok record_said result ≡ next_other (length buf.old) (left_in self.old) }
        ensures moved { position self.new ≡ moved result (left_in self.old) (position self.old) }
        ensures left { left_in self.new ≡ left_after result (left_in self.old) }
        ensures same { log_of self.new ≡ log_of self.old }
    {
        self.next(buf, Parsed::record)
    }

    // Moves past the next record, a count, and gives its number.
    fn next_count(&mut self, buf: &mut [u8]) -> Result<u32, RecordFault>
        ensures zero { buf.new ≡ zeros buf.old }
        ensures value { result ≡ next_count (length buf.old) (left_in self.old) }
        ensures moved { position self.new ≡ moved result (left_in self.old) (position self.old) }
        ensures left { left_in self.new ≡ left_after result (left_in self.old) }
        ensures same { log_of self.new ≡ log_of self.old }
    {
        if let Some(JudgedCount { count, span }) = self.judged {
            wiped(buf)?;
            self.move_past(span);
            return Ok(count);
        }
        self.next(buf, Parsed::count)
    }

    // The next record, a count, told to an open slip alone. A refusal hands the slip back: for `?` two closures would have to own it.
    pub fn show(&mut self, slip: OpenSlip, buf: &mut [u8]) -> Result<ShownSlip, Unshown>
        ensures zero { buf.new ≡ zeros buf.old }
        ensures value { result ≡ shown_to slip (next_count (length buf.old) (left_in self.old)) }
        ensures moved { position self.new ≡ moved result (left_in self.old) (position self.old) }
        ensures left { left_in self.new ≡ left_after result (left_in self.old) }
        ensures same { log_of self.new ≡ log_of self.old }
    {
        match self.next_count(buf) {
            Ok(count) => Ok(slip.show(count)),
            Err(fault) => Err(Unshown { fault, slip }),
        }
    }

    // Moves past the next record, a count, and tells it to nobody.
    pub fn pass_over(&mut self, buf: &mut [u8]) -> Result<(), RecordFault>
        ensures zero { buf.new ≡ zeros buf.old }
        ensures value { result ≡ of_ok (λ _. tt) (next_count (length buf.old) (left_in self.old)) }
        ensures moved { position self.new ≡ moved result (left_in self.old) (position self.old) }
        ensures left { left_in self.new ≡ left_after result (left_in self.old) }
        ensures same { log_of self.new ≡ log_of self.old }
    {
        let _ = self.next_count(buf)?;
        Ok(())
    }
}
