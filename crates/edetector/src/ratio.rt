// The likelihood ratio of a class.
ghost use Rattle.std.specs.Prelude.{◌≡◌, ◌+◌, ◌≤◌};
ghost use Rattle.edetector.specs.Tables.{most_total};
ghost use Rattle.edetector.specs.Bettors.{ratio, most_tallied};

use super::units::{Factor, UNIT_FACTOR, Weight};

// The alternative's share of a class against the null table's: `a` out of `v` to `w` out of `total`, the remainder
// dropped.
pub(super) fn likelihood_ratio(total: u32, v: u32, w: Weight, a: Weight) -> Factor
    requires total { total ≤ most_total }
    requires within { (v ≤ most_total + most_tallied) × (w.0 ≤ most_total) }
    requires part { a.0 ≤ v }
    requires some { (1 ≤ v) × (1 ≤ w.0) }
    ensures { result.0 ≡ ratio total v w.0 a.0 }
{
    let above = UNIT_FACTOR * u64::from(a.0) * u64::from(total);
    let below = u64::from(v) * u64::from(w.0);
    Factor((above / below) as u32)
}
