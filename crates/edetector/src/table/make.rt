// Tables made of what a host hands over, or refused.
ghost use Rattle.std.specs.Prelude.{◌≡◌, ◌^◌, ◌<◌, ◌≤◌, ◌↔◌, ◌-◌, All, IsTrue, length, sum_by, take, drop, replicate};
ghost use Rattle.edetector.specs.Tables.{weights_in, table_fault, unless_fault, most_classes, most_weight};

use super::super::units::Weight;
use super::super::value::ValueFault;
use super::{FEWEST_CLASSES, MOST_CLASSES, MOST_TOTAL, MOST_WEIGHT, Table};

// Whether every weight lies from `least` to the largest.
fn all_within(weights: &[Weight], least: u32) -> bool
    ensures { IsTrue result ↔ All (λ w. (least ≤ w.0) × (w.0 ≤ most_weight)) weights.now }
{
    weights.iter().all(|w| (least..=MOST_WEIGHT).contains(&w.0))
}

fn total_of(weights: &[Weight]) -> u32
    requires { sum_by (λ w. w.0) weights.now < 2 ^ 32 }
    ensures { result ≡ sum_by (λ w. w.0) weights.now }
{
    weights.iter().map(|w| w.0).sum()
}

// The weights with zeros behind them.
fn padded_weights(weights: &[Weight]) -> [Weight; MOST_CLASSES]
    requires { length weights.now ≤ most_classes }
    ensures front { take (length weights.now) result ≡ weights.now }
    ensures behind { let n = length weights.now in
        drop n result ≡ replicate (most_classes - n) (record { 0 = 0 }) }
    ensures room { length result ≡ most_classes }
{
    let mut held = [Weight(0); MOST_CLASSES];
    held[..weights.len()].copy_from_slice(weights);
    held
}

impl<const LEAST: u32> Table<LEAST> {
    /// Refused by the first limit broken: the number of classes, then a weight, then the total.
    pub fn new(weights: &[Weight]) -> Result<Self, ValueFault>
        ensures { let ws = weights_in weights.now in
            result ≡ unless_fault (table_fault LEAST ws) ws }
    {
        let classes @ FEWEST_CLASSES..=MOST_CLASSES = weights.len() else {
            return Err(ValueFault::Classes);
        };
        if !all_within(weights, LEAST) {
            return Err(ValueFault::Weight);
        }
        let total = total_of(weights);
        if !(1..=MOST_TOTAL).contains(&total) {
            return Err(ValueFault::Total);
        }
        Ok(Table {
            classes,
            weights: padded_weights(weights),
            total,
        })
    }
}
