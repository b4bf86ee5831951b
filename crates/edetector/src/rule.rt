// A restart rule: with what base the next round is bet, for every wealth.
ghost use Rattle.std.specs.Prelude.{◌≡◌, ℕ};
ghost use Rattle.edetector.specs.Rules.{IsRestartRule};

use super::units::Base;
use super::wealth::Wealth;

/// An own rule shows that its base is at most a bet above the wealth, and the bound holds with it.
pub trait RestartRule {
    ghost base: { Self → ℕ → ℕ };

    /// The base of a round at a wealth; it changes nothing.
    fn restart(&self, wealth: Wealth) -> Base
        ensures { result.0 ≡ base self.now wealth };

    ghost law: { (r : Self) → IsRestartRule (base r) };
}
