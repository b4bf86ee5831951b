// The records of a log, one after the other.
ghost use Rattle.std.specs.Prelude.{◌≡◌, ◌↔◌, [], IsTrue};
ghost use Rattle.plantlog.specs.Calls.{next_count, next_other};
ghost use Rattle.plantlog.specs.Format.{announced};
ghost use Rattle.plantlog.specs.FirstRecord.{longest_body};
ghost use Rattle.plantlog.specs.Results.{of_ok};
ghost use Rattle.plantlog.specs.Slips.{shown_to};
ghost use Rattle.plantlog.specs.Views.{record_said};
ghost use Rattle.playback.specs.Days.{is_after};
ghost use Rattle.playback.specs.Front.{of_record, next_fields};
ghost use Rattle.playback.specs.Rest.{taken_whole, behind_record, behind_count, moved_if};

use super::progress::Progress;
use super::spot::Spot;
use super::stop::{Fault, ReplayFault};
use edetector::slip::{OpenSlip, ShownSlip};
use plantlog::fault::{FrontFault, RecordFault};
use plantlog::reader::{RECEIVE_BUFFER, Reader, Unshown};
use plantlog::record::{Announced, Record};
use std::marker::Model;

// A log has so many bytes at most.
const LONGEST: usize = 65536;

#[derive(Drop)]
pub(super) struct Records<'a> {
    reader: Reader<'a>,
    buffer: [u8; RECEIVE_BUFFER],
    progress: Progress,
}

impl<'a> Model for Records<'a> {
    ghost use Rattle.playback.specs.Rest.{Rest};

    ghost Value = { Rest };

    ghost use Rattle.playback.specs.Reading.{rest_of, IsLog};

    ghost view = { rest_of };

    ghost invariant = { IsLog };
}

impl<'a> Records<'a> {
    pub(super) fn new(log: &'a [u8]) -> Result<Records<'a>, Fault>
        ensures { result ≡ taken_whole log.now }
    {
        if log.len() > LONGEST {
            let nowhere = Spot { number: 0, byte: 0 };
            return Err(nowhere.fault(ReplayFault::TooLong));
        }
        Ok(Records {
            reader: Reader::new(log),
            buffer: [0u8; RECEIVE_BUFFER],
            progress: Progress {
                last: None,
                counts: 0,
            },
        })
    }

    // Where the next record is looked for.
    pub(super) fn spot(&self) -> Spot
        ensures { result ≡ self.now.at }
    {
        Spot {
            number: self.reader.records() + 1,
            byte: self.reader.place(),
        }
    }

    pub(super) fn is_over(&self) -> bool
        ensures { IsTrue result ↔ (self.now.left ≡ []) }
    {
        self.reader.is_over()
    }

    // Whether the day is after the last count's.
    pub(super) fn is_above_last(&self, day: u32) -> bool
        ensures { result ≡ is_after self.now.last day }
    {
        self.progress.before(day)
    }

    pub(super) fn counts(&self) -> usize
        ensures { result ≡ self.now.counts }
    {
        self.progress.counts
    }

    // What the next record tells before it is read. It does not move on.
    #[inline(always)]
    pub(super) fn next_told(&mut self) -> Result<Announced, ReplayFault>
        ensures value { result ≡ of_ok announced (next_fields self.old.left) }
        ensures same { self.new ≡ self.old }
    {
        let told = self.reader.ask(&mut self.buffer)?;
        told.ok_or(ReplayFault::Record(RecordFault::Front(FrontFault::NoneLeft)))
    }

    // The next record, which is no count.
    pub(super) fn read(&mut self) -> Result<Record, ReplayFault>
        ensures value { of_ok record_said result ≡ of_record (next_other longest_body self.old.left) }
        ensures moved { self.new ≡ moved_if result (behind_record self.old) self.old }
    {
        Ok(self.reader.read(&mut self.buffer)?)
    }

    // Shows the next record, a count of the day, to an open slip.
    pub(super) fn show(&mut self, slip: OpenSlip, day: u32) -> Result<ShownSlip, Unshown>
        ensures value { result ≡ shown_to slip (next_count longest_body self.old.left) }
        ensures moved { self.new ≡ moved_if result (behind_count day self.old) self.old }
    {
        let shown = self.reader.show(slip, &mut self.buffer)?;
        self.progress.noted(day, self.reader.records());
        Ok(shown)
    }

    // Passes the next record over, a count of the day, unseen.
    pub(super) fn pass_over(&mut self, day: u32) -> Result<(), ReplayFault>
        ensures value { result ≡ of_record (of_ok (λ _. tt) (next_count longest_body self.old.left)) }
        ensures moved { self.new ≡ moved_if result (behind_count day self.old) self.old }
    {
        self.reader.pass_over(&mut self.buffer)?;
        self.progress.noted(day, self.reader.records());
        Ok(())
    }
}
