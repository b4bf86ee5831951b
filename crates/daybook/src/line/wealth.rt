// A wealth printed in bets, to the hundredth.
ghost use Rattle.std.specs.Prelude.{◌≡◌, Some};
ghost use Rattle.daybook.specs.Lines.{hundredths_in, wealth_text};

use edetector::wealth::{BET, Wealth};
use std::fmt;

#[derive(Clone, Copy, Debug, PartialEq, Eq)]
pub struct InBets(pub Wealth);

// The hundredths of a bet, a part of one dropped.
fn hundredths(wealth: Wealth) -> u64
    ensures { result ≡ hundredths_in wealth }
{
    wealth.parts() * 100 / BET
}

impl fmt::Display for InBets {
    ghost output = { λ w. Some (wealth_text w.0) };

    #[tactic(auto, using(crate::proofs::Digits::last_two_digits))]
    fn fmt<W: fmt::Write>(&self, f: &mut fmt::Formatter<W>) -> fmt::Result {
        let h = hundredths(self.0);
        write!(f, "{}.{:02}", h / 100, h % 100)
    }
}
