// Replays the log on standard input over and over, or only reads its records, and tells how long that took.
//
// The words are `replay` or `read`, and how many times. What came of it goes to standard output, the time in nanoseconds
// to standard error.
#![tactic(auto)]

use daybook::book::Book;
use daybook::entry::alarm::Alarm;
use daybook::entry::unwatched::Unwatched;
use plantlog::reader::{RECEIVE_BUFFER, Reader};
use plantlog::record::Announced;
use playback::replay::replay;
use std::env;
use std::io::Read;
use std::time::Instant;

// The rounds of a replay, with 64 places in each book. `listed` would have the listing timed too.
fn rounds_of(log: &[u8]) -> u64 {
    let mut alarm_places = [Alarm::default(); 64];
    let mut unwatched_places = [Unwatched::default(); 64];
    let mut alarms = Book::new(&mut alarm_places);
    let mut unwatched = Book::new(&mut unwatched_places);
    match replay(log, &mut alarms, &mut unwatched) {
        Ok(run) => u64::from(run.last.rounds),
        Err(_) => 0,
    }
}

// The next record is judged and moved past, as a replay does it.
fn move_past(reader: &mut Reader<'_>, buffer: &mut [u8]) -> bool {
    match reader.ask(buffer) {
        Ok(Some(Announced::Count(_))) => reader.pass_over(buffer).is_ok(),
        Ok(Some(Announced::Other(_))) => reader.read(buffer).is_ok(),
        _ => false,
    }
}

// How many records were moved past before the log's end or the first fault.
fn records_of(log: &[u8]) -> u64 {
    let mut reader = Reader::new(log);
    let mut buffer = [0u8; RECEIVE_BUFFER];
    (0..log.len())
        .take_while(|_| move_past(&mut reader, &mut buffer))
        .count() as u64
}

// What `count` gives for the log, added up over so many times.
fn repeated<F: Fn(&[u8]) -> u64>(log: &[u8], times: u32, count: F) -> u64
    requires { F.IsAlwaysCallable count }
{
    (0..times).fold(0, |sum: u64, _| sum.wrapping_add(count(log)))
}

fn main(rt: HostRuntime) -> anyhow::Result<()> {
    let mut words = env::args(&rt)?.skip(1);
    let reads = words.next().is_some_and(|word| word.as_str() == "read");
    let times = match words.next() {
        Some(word) => word.as_str().parse::<u32>()?,
        None => 1,
    };
    let mut log = Vec::new(rt.alloc());
    rt.stdin().read_to_end(&mut log)?;
    let begun = Instant::now(&rt)?;
    let sum = if reads {
        repeated(log.as_slice(), times, records_of)
    } else {
        repeated(log.as_slice(), times, rounds_of)
    };
    let took = begun.elapsed(&rt)?.as_nanos();
    println!(rt; "{sum}")?;
    eprintln!(rt; "{took}")?;
    Ok(())
}
