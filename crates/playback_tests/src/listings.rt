// Whole logs and their listings.
use daybook::book::Book;
use daybook::entry::alarm::Alarm;
use daybook::entry::unwatched::Unwatched;
use playback::listing::{listed, listing};
use playback::replay::replay;
use std::alloc::{AllocError, Global};
use std::test::Fail;

// A table, a setup and an alternative; the counts of days 1, 2 and 3; the end.
const THREE_DAYS: [u8; 30] = [
    4, 1, 2, 3, 1, 4, 2, 4, 1, 1, 4, 3, 2, 1, 1, 3, 4, 1, 0, 3, 4, 2, 1, 3, 4, 3, 5, 2, 6, 3,
];

// The same with the count of day 4, after the alarm.
const FOUR_DAYS: [u8; 34] = [
    4, 1, 2, 3, 1, 4, 2, 4, 1, 1, 4, 3, 2, 1, 1, 3, 4, 1, 0, 3, 4, 2, 1, 3, 4, 3, 5, 3, 4, 4, 0, 2,
    6, 4,
];

// The listing with two places in each book, where `listed` has 64.
fn briefly(alloc: Global, log: &[u8]) -> Result<String, AllocError> {
    let mut alarm_places = [Alarm::default(); 2];
    let mut unwatched_places = [Unwatched::default(); 2];
    let mut alarms = Book::new(&mut alarm_places);
    let mut unwatched = Book::new(&mut unwatched_places);
    let report = replay(log, &mut alarms, &mut unwatched);
    listing(alloc, &report, alarms.entries(), unwatched.entries())
}

#[test]
fn three_days_ring_once(rt: HostRuntime) -> Result<(), Fail> {
    let text = briefly(rt.alloc(), &THREE_DAYS)?;
    assert_eq!(rt;
        text.as_str(),
        "monitor classes 2 total 4 threshold 4 rule S\nalarm round 3 day 3 wealth 8.66\nend rounds 3 alarms 1 unwatched 0\n"
    );
    Ok(())
}

#[test]
fn a_day_twice_is_a_fault(rt: HostRuntime) -> Result<(), Fail> {
    let mut log = THREE_DAYS;
    log[21] = 1;
    let text = briefly(rt.alloc(), &log)?;
    assert_eq!(rt;
        text.as_str(),
        "monitor classes 2 total 4 threshold 4 rule S\nfault 43 record 5 byte 19 layer replay\n"
    );
    Ok(())
}

#[test]
fn a_day_after_the_alarm_is_unwatched(rt: HostRuntime) -> Result<(), Fail> {
    let text = briefly(rt.alloc(), &FOUR_DAYS)?;
    assert_eq!(rt;
        text.as_str(),
        "monitor classes 2 total 4 threshold 4 rule S\nalarm round 3 day 3 wealth 8.66\nunwatched day 4 record 7\nend rounds 3 alarms 1 unwatched 1\n"
    );
    Ok(())
}

#[test]
fn an_empty_log_has_no_table(rt: HostRuntime) -> Result<(), Fail> {
    let text = briefly(rt.alloc(), &[])?;
    assert_eq!(rt; text.as_str(), "fault 45 record 1 byte 0 layer record\n");
    Ok(())
}

#[test]
fn a_log_of_65537_bytes_is_not_taken(rt: HostRuntime) -> Result<(), Fail> {
    let log = [0u8; 65537];
    let text = briefly(rt.alloc(), &log)?;
    assert_eq!(rt; text.as_str(), "fault 48 record 0 byte 0 layer replay\n");
    Ok(())
}

#[test]
fn a_log_is_listed_with_64_places(rt: HostRuntime) -> Result<(), Fail> {
    let text = listed(rt.alloc(), &FOUR_DAYS)?;
    let brief = briefly(rt.alloc(), &FOUR_DAYS)?;
    assert_eq!(rt; text.as_str(), brief.as_str());
    Ok(())
}
