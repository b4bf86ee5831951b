// The two named restart rules.
ghost use Rattle.std.specs.Prelude.{◌≡◌};
ghost use Rattle.edetector.specs.Rules.{base_for, shiryaev_roberts, page};
ghost use Rattle.std.proofs.Common.{rules};

use super::rule::RestartRule;
use super::units::Base;
use super::wealth::{BET, Wealth};

// Above so many parts no bet is begun.
const BEGIN_LIMIT: u64 = 4294967296;

fn base_for(wealth: Wealth, base: u64) -> Base
    ensures { result.0 ≡ base_for wealth base }
{
    if wealth.parts > BEGIN_LIMIT {
        Base(wealth.parts)
    } else {
        Base(base)
    }
}

/// Begins a bet each round, beside those that go on.
#[derive(Clone, Copy, Debug, PartialEq, Eq)]
pub struct ShiryaevRoberts;

impl RestartRule for ShiryaevRoberts {
    ghost base = { λ r. shiryaev_roberts };

    ghost law = { λ r. record { at_most_a_bet = Prim.search rules } };

    fn restart(&self, wealth: Wealth) -> Base {
        base_for(wealth, wealth.parts + BET)
    }
}

/// Begins a bet anew where what is left is less than a bet.
#[derive(Clone, Copy, Debug, PartialEq, Eq)]
pub struct Page;

impl RestartRule for Page {
    ghost base = { λ r. page };

    ghost law = { λ r. record { at_most_a_bet = Prim.search rules } };

    fn restart(&self, wealth: Wealth) -> Base {
        base_for(wealth, wealth.parts.max(BET))
    }
}
