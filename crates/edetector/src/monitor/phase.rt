// What a monitor is doing, and the row that a stake has copied.
ghost use Rattle.std.specs.Prelude.{◌≡◌, ℕ, ◌<◌, ◌≤◌, [], length, take, slice_index};
ghost use Rattle.edetector.specs.Tables.{factors_in, most_classes};
ghost use Rattle.edetector.specs.Lemmas.Limits.{most_factor};

use super::super::bettor::Bettor;
use super::super::state::State;
use super::super::units::{Factor, Row};

#[derive(Drop)]
pub struct StakedRow {
    pub(super) row: Row,
    ghost small: { (k : ℕ) → slice_index (factors_in row) k ≤ most_factor },
}

#[derive(Drop)]
pub enum Phase {
    Armed,
    Staked(StakedRow),
    Rung,
}

impl StakedRow {
    // The bettor's row now.
    pub(super) fn of<B: Bettor>(bettor: &B) -> Self
        ensures { let m = B.meaning bettor.now in
            take (length m.nulls) (factors_in result.row) ≡ m.strategy [] }
    {
        StakedRow { row: bettor.row() }
    }

    #[tactic(auto, using(crate::proofs::Copying::factor_at))]
    pub(super) fn factor(&self, class: usize) -> Factor
        requires { class < most_classes }
        ensures value { result.0 ≡ slice_index (factors_in self.now.row) class }
        ensures small { result.0 ≤ most_factor }
    {
        self.row[class]
    }
}

impl Phase {
    ghost use Rattle.edetector.specs.States.{state_of};

    pub(super) fn state(&self) -> State
        ensures { result ≡ state_of self.now }
    {
        match self {
            Phase::Armed => State::Armed,
            Phase::Staked(_) => State::Staked,
            Phase::Rung => State::Rung,
        }
    }
}
