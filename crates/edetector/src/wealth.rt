// A wealth, in parts of a bet: from 0 to 2^49.
ghost use Rattle.std.specs.Prelude.{◌≡◌, ℕ, ◌≤◌, if◌then◌else◌, Some, None, nat_le};
ghost use Rattle.edetector.specs.Rules.{most_parts};

use std::marker::Model;

/// One bet, in parts.
pub const BET: u64 = 1048576;

// The most parts.
const MOST_PARTS: u64 = 562949953421312;

/// From 0 to 2^49 parts of a bet; a contract sees their number.
#[derive(Clone, Copy, Debug, PartialEq, Eq)]
pub struct Wealth {
    pub(super) parts: u64,
}

impl Model for Wealth {
    ghost Value = { ℕ };

    ghost view = { λ wealth. wealth.parts };

    ghost invariant = { λ wealth. wealth.parts ≤ most_parts };

    ghost inverse = { λ parts. record { parts = parts } };
}

impl Wealth {
    /// The wealth of so many parts, unless these are more than 2^49.
    pub fn new(parts: u64) -> Option<Wealth>
        ensures { result ≡ (if nat_le parts most_parts then Some parts else None) }
    {
        if parts <= MOST_PARTS {
            Some(Wealth { parts })
        } else {
            None
        }
    }

    /// At most 2^49.
    pub fn parts(self) -> u64
        ensures value { result ≡ self }
        ensures within { self ≤ most_parts }
    {
        self.parts
    }
}

impl Default for Wealth {
    ghost is_default = { λ wealth. wealth ≡ 0 };

    fn default() -> Self {
        Wealth { parts: 0 }
    }
}
