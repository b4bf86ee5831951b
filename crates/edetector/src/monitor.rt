// What a monitor holds.
ghost use Rattle.std.specs.Prelude.{◌≡◌, ◌*◌, ◌≤◌, true};
ghost use Rattle.edetector.specs.Rules.{bet, most_threshold};
ghost use Rattle.edetector.specs.Lemmas.Invariants.{agrees_with_ledger, has_rounds_left};
ghost use Rattle.edetector.specs.States.{state_of};

use super::state::State;
use super::wealth::Wealth;
use phase::Phase;

pub mod calls;
mod phase;

/// A bettor, a restart rule, a threshold from 1 to 4,096 bets, and a tag by which it knows its slips.
#[derive(Drop)]
pub struct Monitor<B, R> {
    bettor: B,
    rule: R,
    threshold: u32,
    tag: u32,
    phase: Phase,
    ledger: Wealth,
    rounds: u32,
    alarms: u32,
    ghost least: { 1 ≤ threshold },
    ghost most: { threshold ≤ most_threshold },
    ghost rung_by_ledger: { agrees_with_ledger (state_of phase) (threshold * bet) ledger ≡ true },
    ghost fewer: { alarms ≤ rounds },
    ghost rounds_left: { has_rounds_left (state_of phase) rounds ≡ true },
}

/// What a monitor tells of itself.
#[derive(Clone, Copy, Debug, PartialEq, Eq)]
pub struct Reading {
    pub state: State,
    pub ledger: Wealth,
    pub rounds: u32,
    pub alarms: u32,
}
