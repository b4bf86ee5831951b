// Rows of the three bettors, and bases of the two rules.
use crate::{example_bettor, refusal};
use edetector::adaptive::Adaptive;
use edetector::bettor::Bettor;
use edetector::fixed::Fixed;
use edetector::mixture::Mixture;
use edetector::rule::RestartRule;
use edetector::rules::{Page, ShiryaevRoberts};
use edetector::table::{AlternativeTable, NullTable};
use edetector::units::Weight;
use edetector::value::ValueFault;
use edetector::wealth::Wealth;
use std::test::Fail;

fn null(first: u32, second: u32) -> Result<NullTable, ValueFault> {
    NullTable::new(&[Weight(first), Weight(second)])
}

#[test]
fn rows_are_the_likelihood_ratios(rt: HostRuntime) -> Result<(), Fail> {
    let fixed = example_bettor()?;
    assert_eq!(rt; fixed.factor(0).0, 2730);
    assert_eq!(rt; fixed.factor(1).0, 8192);
    assert_eq!(rt; fixed.factor(2).0, 0);
    assert_eq!(rt; fixed.weight(2).0, 0);
    let mut adaptive = Adaptive::new(null(3, 1)?);
    adaptive.learn(2);
    assert_eq!(rt; adaptive.factor(0).0, 4096);
    adaptive.learn(1);
    assert_eq!(rt; adaptive.factor(0).0, 3276);
    assert_eq!(rt; adaptive.factor(1).0, 6553);
    Ok(())
}

#[test]
fn a_million_classes_are_learned(rt: HostRuntime) -> Result<(), Fail> {
    let mut adaptive = Adaptive::new(null(1, 65535)?);
    for _ in 0..1000000 {
        adaptive.learn(0);
    }
    assert_eq!(rt; adaptive.factor(0).0, 251925532);
    adaptive.learn(1);
    assert_eq!(rt; adaptive.factor(0).0, 251925532);
    Ok(())
}

#[test]
fn a_mixture_averages_where_the_tables_agree(rt: HostRuntime) -> Result<(), Fail> {
    let both = Mixture::new(example_bettor()?, Adaptive::new(null(3, 1)?));
    assert!(rt; both.check().is_ok());
    assert_eq!(rt; both.factor(0).0, 3413);
    assert_eq!(rt; both.factor(1).0, 6144);
    let row = both.row();
    assert_eq!(rt; row[1].0, 6144);
    assert_eq!(rt; row[2].0, 0);
    let mut nested = Mixture::new(both, Adaptive::new(null(2, 1)?));
    assert_eq!(rt; refusal(nested.check()), Some(6));
    assert_eq!(rt; nested.factor(0).0, 3413);
    nested.learn(1);
    assert_eq!(rt; nested.factor(0).0, 3003);
    Ok(())
}

#[test]
fn an_alternative_has_as_many_classes(rt: HostRuntime) -> Result<(), Fail> {
    let three = AlternativeTable::new(&[Weight(1), Weight(0), Weight(1)])?;
    assert_eq!(rt; refusal(Fixed::new(null(3, 1)?, three)), Some(8));
    Ok(())
}

#[test]
fn bases_stop_growing_above_two_to_the_32(rt: HostRuntime) -> Result<(), Fail> {
    let low = Wealth::new(4294967296).ok_or("no wealth")?;
    let high = Wealth::new(4294967297).ok_or("no wealth")?;
    let small = Wealth::new(5).ok_or("no wealth")?;
    assert_eq!(rt; ShiryaevRoberts.restart(low).0, 4296015872);
    assert_eq!(rt; ShiryaevRoberts.restart(high).0, 4294967297);
    assert_eq!(rt; Page.restart(small).0, 1048576);
    assert_eq!(rt; Page.restart(low).0, 4294967296);
    assert!(rt; Wealth::new(562949953421312).is_some());
    assert!(rt; Wealth::new(562949953421313).is_none());
    Ok(())
}
