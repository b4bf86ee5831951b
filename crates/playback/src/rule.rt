// The restart rule that a setup names.
ghost use Rattle.playback.specs.Replayed.{rule_base};
ghost use Rattle.std.proofs.Common.{rules};

use edetector::rule::RestartRule;
use edetector::rules::{Page, ShiryaevRoberts};
use edetector::units::Base;
use edetector::wealth::Wealth;
use plantlog::record::RuleChoice;

// One match a restart: chosen in `open`, the rule would make six kinds of monitor of three.
#[derive(Clone, Copy, Debug, PartialEq, Eq)]
pub(super) struct ChosenRule(pub(super) RuleChoice);

impl RestartRule for ChosenRule {
    ghost base = { λ r. rule_base r.0 };

    ghost law = { λ r. record { at_most_a_bet = Prim.search rules } };

    fn restart(&self, wealth: Wealth) -> Base {
        match self.0 {
            RuleChoice::ShiryaevRoberts => ShiryaevRoberts.restart(wealth),
            RuleChoice::Page => Page.restart(wealth),
        }
    }
}
