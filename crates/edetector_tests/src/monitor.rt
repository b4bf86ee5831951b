// The monitor's calls, accepted and refused.
use crate::{example_bettor, refusal};
use edetector::bettor::Bettor;
use edetector::fault::{MonitorFault, Refused};
use edetector::fixed::Fixed;
use edetector::monitor::Monitor;
use edetector::rule::RestartRule;
use edetector::rules::Page;
use edetector::value::ValueFault;
use std::test::Fail;

fn page_monitor(threshold: u32, tag: u32) -> Result<Monitor<Fixed, Page>, ValueFault> {
    let bettor = example_bettor()?;
    Monitor::new(bettor, Page, threshold, tag).map_err(|unmade| unmade.fault)
}

// One round.
fn round<B: Bettor, R: RestartRule>(
    m: &mut Monitor<B, R>,
    count: u32,
) -> Result<bool, MonitorFault> {
    let slip = m.stake()?;
    match m.settle(slip.show(count)) {
        Ok(rang) => Ok(rang),
        Err(_refused) => unreachable(),
    }
}

#[test]
fn pages_rule_rings_exactly_at_the_threshold(rt: HostRuntime) -> Result<(), Fail> {
    let mut m = page_monitor(4, 1)?;
    assert!(rt; !round(&mut m, 1)?);
    assert!(rt; round(&mut m, 7)?);
    let now = m.read();
    assert_eq!(rt; now.ledger.parts(), 4194304);
    assert_eq!(rt; now.alarms, 1);
    assert_eq!(rt; refusal(round(&mut m, 0)), Some(32));
    assert!(rt; m.rearm().is_ok());
    assert_eq!(rt; m.read().ledger.parts(), 0);
    assert_eq!(rt; m.read().rounds, 2);
    Ok(())
}

// A slip offered to another monitor and then withdrawn: what the other answered.
fn offered<B: Bettor, R: RestartRule>(
    m: &mut Monitor<B, R>,
    other: &mut Monitor<B, R>,
) -> Result<(), MonitorFault> {
    let slip = m.stake()?;
    match other.withdraw(slip) {
        Ok(()) => Ok(()),
        Err(Refused { fault, slip }) => match m.withdraw(slip) {
            Ok(()) => Err(fault),
            Err(_refused) => unreachable(),
        },
    }
}

#[test]
fn a_slip_of_another_monitor_is_handed_back(rt: HostRuntime) -> Result<(), Fail> {
    let mut m = page_monitor(4, 1)?;
    let mut other = page_monitor(4, 2)?;
    assert_eq!(rt; refusal(offered(&mut m, &mut other)), Some(34));
    Ok(())
}

#[test]
fn a_million_rounds_are_settled(rt: HostRuntime) -> Result<(), Fail> {
    let mut m = page_monitor(4, 1)?;
    for _ in 0..1000000 {
        assert!(rt; !round(&mut m, 0)?);
    }
    assert_eq!(rt; refusal(round(&mut m, 0)), Some(31));
    assert_eq!(rt; m.read().rounds, 1000000);
    Ok(())
}

#[test]
fn a_threshold_is_1_to_4096(rt: HostRuntime) {
    assert_eq!(rt; refusal(page_monitor(0, 1)), Some(4));
    assert_eq!(rt; refusal(page_monitor(1, 1)), None);
    assert_eq!(rt; refusal(page_monitor(4096, 1)), None);
    assert_eq!(rt; refusal(page_monitor(4097, 1)), Some(4));
}
