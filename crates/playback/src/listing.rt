// The listing of a replay, by its exact bytes.
ghost use Rattle.std.specs.Prelude.{◌≡◌, ◌++◌, IfOk, string_bytes, OnOk};
ghost use Rattle.playback.specs.Listing.{monitor_line_of, fault_line_of, monitor_part, last_part, listing_of};
ghost use Rattle.playback.specs.Replayed.{replay_of};

use super::replay::replay;
use super::report::Run;
use super::stop::Fault;
use daybook::book::Book;
use daybook::entry::alarm::Alarm;
use daybook::entry::unwatched::Unwatched;
use daybook::line::block::{put_line, put_lines};
use daybook::line::ending::EndLine;
use daybook::line::fault::FaultLine;
use daybook::line::setup::MonitorLine;
use std::alloc::{AllocError, Global};

impl From<Run> for MonitorLine {
    ghost from_gives = { λ run line. line ≡ monitor_line_of run };

    fn from(run: Run) -> MonitorLine {
        MonitorLine {
            classes: run.classes,
            total: run.total,
            threshold: run.threshold,
            rule: run.rule,
        }
    }
}

fn put_monitor(out: &mut String, report: &Result<Run, Fault>) -> Result<(), AllocError>
    ensures { OnOk result
        (string_bytes out.new ≡ string_bytes out.old ++ monitor_part report.now) }
{
    match *report {
        Err(_) => Ok(()),
        Ok(run) => put_line(out, MonitorLine::from(run)),
    }
}

impl From<Fault> for FaultLine {
    ghost from_gives = { λ fault line. line ≡ fault_line_of fault };

    fn from(fault: Fault) -> FaultLine {
        FaultLine {
            number: u8::from(fault.cause),
            record: fault.record,
            byte: fault.byte,
            layer: fault.cause.layer(),
        }
    }
}

fn put_end(out: &mut String, run: Run, unwatched: usize) -> Result<(), AllocError>
    ensures { OnOk result
        (string_bytes out.new ≡ string_bytes out.old ++ last_part (Ok run) unwatched) }
{
    match run.fault {
        Some(fault) => put_line(out, FaultLine::from(fault)),
        None => {
            let line = EndLine {
                rounds: run.last.rounds,
                alarms: run.last.alarms as usize,
                unwatched,
            };
            put_line(out, line)
        }
    }
}

fn put_last(
    out: &mut String,
    report: &Result<Run, Fault>,
    unwatched: usize,
) -> Result<(), AllocError>
    ensures { OnOk result
        (string_bytes out.new ≡ string_bytes out.old ++ last_part report.now unwatched) }
{
    match *report {
        Err(fault) => put_line(out, FaultLine::from(fault)),
        Ok(run) => put_end(out, run, unwatched),
    }
}

pub fn listing(
    alloc: Global,
    report: &Result<Run, Fault>,
    alarms: &[Alarm],
    unwatched: &[Unwatched],
) -> Result<String, AllocError>
    ensures { IfOk result (λ s. string_bytes s ≡ listing_of
        (record { said = report.now; alarms = alarms.now; unwatched = unwatched.now })) }
{
    let mut out = String::new(alloc);
    put_monitor(&mut out, report)?;
    put_lines(&mut out, alarms)?;
    put_lines(&mut out, unwatched)?;
    put_last(&mut out, report, unwatched.len())?;
    Ok(out)
}

// A log's listing, with 64 places in each book.
pub fn listed(alloc: Global, log: &[u8]) -> Result<String, AllocError>
    ensures { IfOk result (λ s. string_bytes s
        ≡ listing_of (replay_of (record { alarms = 64; unwatched = 64 }) log.now)) }
{
    let mut alarm_places = [Alarm::default(); 64];
    let mut unwatched_places = [Unwatched::default(); 64];
    let mut alarms = Book::new(&mut alarm_places);
    let mut unwatched = Book::new(&mut unwatched_places);
    let report = replay(log, &mut alarms, &mut unwatched);
    listing(alloc, &report, alarms.entries(), unwatched.entries())
}
