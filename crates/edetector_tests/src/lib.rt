// Tests of the tables, bettors, rules and monitor.
#![tactic(auto)]

ghost use Rattle.std.specs.Prelude.{◌≡◌, [], ◌∷◌, MatchResult};
ghost use Rattle.edetector.specs.NamedBettors.{tables_of};

use edetector::fixed::Fixed;
use edetector::table::{AlternativeTable, NullTable};
use edetector::units::Weight;
use edetector::value::ValueFault;

// The fixed bettor with the null weights 3, 1 and the alternative 1, 1.
pub fn example_bettor() -> Result<Fixed, ValueFault>
    ensures { MatchResult result
        (λ b. tables_of b ≡ (3 ∷ 1 ∷ [], 1 ∷ 1 ∷ []))
        (λ _. ⊥) }
{
    let null = NullTable::new(&[Weight(3), Weight(1)])?;
    let alternative = AlternativeTable::new(&[Weight(1), Weight(1)])?;
    Fixed::new(null, alternative)
}

// The number of the refusal, if it is one.
#[cfg(test)]
fn refusal<T: Drop, E: Into<u8>>(answer: Result<T, E>) -> Option<u8> {
    answer.err().map(|fault| fault.into())
}

#[cfg(test)]
mod bettors;
#[cfg(test)]
mod monitor;
#[cfg(test)]
mod tables;
