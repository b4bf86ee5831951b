// Counts shown to an open slip. A refused slip is handed back, and fits the monitor that gave it.
use edetector::bettor::Bettor;
use edetector::fault::MonitorFault;
use edetector::monitor::Monitor;
use edetector::rule::RestartRule;
use plantlog::fault::RecordFault;
use plantlog::reader::{RECEIVE_BUFFER, Reader, Unshown};

// Stakes and has the next record shown: whether it rang, or the refusal, with the slip withdrawn.
fn shown<B: Bettor, R: RestartRule>(
    monitor: &mut Monitor<B, R>,
    reader: &mut Reader,
) -> Result<Result<bool, RecordFault>, MonitorFault> {
    let slip = monitor.stake()?;
    match reader.show(slip, &mut [7u8; RECEIVE_BUFFER]) {
        Ok(shown) => match monitor.settle(shown) {
            Ok(rang) => Ok(Ok(rang)),
            Err(_refused) => unreachable(),
        },
        Err(Unshown { fault, slip }) => match monitor.withdraw(slip) {
            Ok(()) => Ok(Err(fault)),
            Err(_refused) => unreachable(),
        },
    }
}

#[cfg(test)]
mod tests {
    use super::super::calls::numbered;
    use super::*;
    use edetector::fixed::Fixed;
    use edetector::rules::Page;
    use edetector::value::ValueFault;
    use edetector_tests::example_bettor;
    use std::test::Fail;

    fn page_monitor() -> Result<Monitor<Fixed, Page>, ValueFault> {
        let bettor = example_bettor()?;
        Monitor::new(bettor, Page, 4, 1).map_err(|unmade| unmade.fault)
    }

    // The answer for a log's first record.
    fn first_shown(log: &[u8]) -> Result<Result<bool, RecordFault>, Fail> {
        let mut monitor = page_monitor()?;
        Ok(shown(&mut monitor, &mut Reader::new(log))?)
    }

    #[test]
    fn shown_or_refused(rt: HostRuntime) -> Result<(), Fail> {
        assert_eq!(rt;
            numbered(first_shown(&[0x03, 0x04, 0x01, 0x00])?),
            Ok(false)
        );
        assert_eq!(rt; numbered(first_shown(&[0x01, 0x05])?), Err(28));
        assert_eq!(rt; numbered(first_shown(&[0x02, 0x05, 0x00])?), Err(24));
        assert_eq!(rt; numbered(first_shown(&[0x02, 0x04, 0x01])?), Err(11));
        assert_eq!(rt; numbered(first_shown(&[])?), Err(45));
        Ok(())
    }

    // The count shown is the record's second number: a class 1 makes the ledger two bets.
    #[test]
    fn count_settled(rt: HostRuntime) -> Result<(), Fail> {
        let mut monitor = page_monitor()?;
        let mut reader = Reader::new(&[0x03, 0x04, 0x05, 0x01, 0x01, 0x05]);
        assert!(rt; shown(&mut monitor, &mut reader)?.is_ok());
        assert_eq!(rt; monitor.read().ledger.parts(), 2097152);
        assert_eq!(rt; reader.place(), 4);
        assert_eq!(rt; reader.records(), 1);
        Ok(())
    }
}
