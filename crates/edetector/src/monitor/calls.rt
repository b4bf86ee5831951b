// How a monitor is made, and its five calls.
ghost use Rattle.std.specs.Prelude.{◌≡◌, ◌+◌, ◌*◌, ◌/◌, ◌≤◌, ◌↔◌, IsTrue, OnErr, IsSome, IfSome};
ghost use Rattle.edetector.specs.declared.monitor.phase.Phase.TheVariants.{Staked};
ghost use Rattle.edetector.specs.Monitors.{is_fitting, Stake, Settle, Withdraw, Rearm, Read, OfStake, OfSettle, OfWithdraw, OfRearm, OfRead, Does, view, bettor_of, rule_of, whole_view, new_monitor, AfterCalls};
ghost use Rattle.edetector.specs.Plans.{Bound};
ghost use Rattle.edetector.specs.Rules.{bet, most_threshold};
ghost use Rattle.edetector.specs.Tables.{unit_factor};
ghost use Rattle.edetector.specs.Lemmas.Limits.{most_factor};
ghost use Rattle.std.specs.Result.{result_map_both};

use super::super::bettor::Bettor;
use super::super::fault::{MonitorFault, Refused, Unmade};
use super::super::rule::RestartRule;
use super::super::slip::{OpenSlip, ShownSlip};
use super::super::table::reads::class_of;
use super::super::units::{Base, Factor, UNIT_FACTOR};
use super::super::value::ValueFault;
use super::super::wealth::{BET, Wealth};
use super::phase::{Phase, StakedRow};
use super::{Monitor, Reading};

/// The largest threshold, in bets.
pub const MOST_THRESHOLD: u32 = 4096;

// After so many settled rounds a stake is refused.
const MOST_ROUNDS: u32 = 1000000;

// The ledger's step, the only place where a base meets a factor.
fn ledger_after(base: Base, factor: Factor) -> Wealth
    requires low { base.0 ≤ (most_threshold + 1) * bet }
    requires small { factor.0 ≤ most_factor }
    ensures { result ≡ (base.0 * factor.0) / unit_factor }
{
    Wealth {
        parts: base.0 * u64::from(factor.0) / UNIT_FACTOR,
    }
}

impl<B: Bettor, R: RestartRule> Monitor<B, R> {
    /// Refused where the threshold is not 1 to 4,096. Whatever the bettor, the rule and the plan of calls, the alarms are
    /// bounded; and what any calls in a row answer and leave follows from what each call promises.
    pub fn new(bettor: B, rule: R, threshold: u32, tag: u32) -> Result<Monitor<B, R>, Unmade<B, R>>
        ensures made { result_map_both (whole_view B.meaning R.base) (λ e. e) result
            ≡ new_monitor B.meaning R.base bettor rule threshold tag }
        ensures calls { AfterCalls B.meaning R.base }
        ensures bound { Bound (B.meaning bettor) (R.base rule) threshold tag }
    {
        if !(1..=MOST_THRESHOLD).contains(&threshold) {
            return Err(Unmade {
                fault: ValueFault::Threshold,
                bettor,
                rule,
            });
        }
        Ok(Monitor {
            bettor,
            rule,
            threshold,
            tag,
            phase: Phase::Armed,
            ledger: Wealth::default(),
            rounds: 0,
            alarms: 0,
        })
    }

    /// Copies the row now, before any count is seen. Refused while staked or rung, and after 1,000,000 settled rounds.
    pub fn stake(&mut self) -> Result<OpenSlip, MonitorFault>
        ensures does { Does B.meaning R.base self.old Stake (OfStake result) self.new }
        ensures bettor { bettor_of self.new ≡ bettor_of self.old }
        ensures rule { rule_of self.new ≡ rule_of self.old }
        ensures refused { OnErr result (self.new ≡ self.old) }
    {
        let Phase::Armed = self.phase else {
            return Err(MonitorFault::NotArmed);
        };
        if self.rounds >= MOST_ROUNDS {
            return Err(MonitorFault::Spent);
        }
        self.phase = Phase::Staked(StakedRow::of(&self.bettor));
        Ok(OpenSlip {
            tag: self.tag,
            number: self.rounds + 1,
        })
    }

    /// Answers whether it rang. A slip that does not fit is handed back.
    // The staked factor is read before the bettor learns the class.
    pub fn settle(&mut self, slip: ShownSlip) -> Result<bool, Refused<ShownSlip>>
        ensures does { Does B.meaning R.base self.old (Settle slip) (OfSettle result) self.new }
        ensures rule { rule_of self.new ≡ rule_of self.old }
        ensures refused { OnErr result (self.new ≡ self.old) }
    {
        let k = class_of(self.bettor.classes(), slip.count);
        let Some(row) = self.row_for(&slip.stake) else {
            return Err(Refused {
                fault: MonitorFault::Misfit,
                slip,
            });
        };
        let factor = row.factor(k);
        let ShownSlip {
            stake: open,
            count: _,
        } = slip;
        let OpenSlip { tag: _, number: _ } = open;
        self.ledger = ledger_after(self.rule.restart(self.ledger), factor);
        self.bettor.learn(k);
        self.rounds += 1;
        let rang = self.ledger.parts() >= u64::from(self.threshold) * BET;
        if rang {
            self.alarms += 1;
            self.phase = Phase::Rung;
        } else {
            self.phase = Phase::Armed;
        }
        Ok(rang)
    }

    /// Takes a stake back that was shown no count. A slip that does not fit is handed back.
    pub fn withdraw(&mut self, slip: OpenSlip) -> Result<(), Refused<OpenSlip>>
        ensures does { Does B.meaning R.base self.old (Withdraw slip) (OfWithdraw result) self.new }
        ensures bettor { bettor_of self.new ≡ bettor_of self.old }
        ensures rule { rule_of self.new ≡ rule_of self.old }
        ensures refused { OnErr result (self.new ≡ self.old) }
    {
        if self.row_for(&slip).is_none() {
            return Err(Refused {
                fault: MonitorFault::Misfit,
                slip,
            });
        }
        let OpenSlip { tag: _, number: _ } = slip;
        self.phase = Phase::Armed;
        Ok(())
    }

    /// Refused while staked.
    pub fn rearm(&mut self) -> Result<(), MonitorFault>
        ensures does { Does B.meaning R.base self.old Rearm (OfRearm result) self.new }
        ensures bettor { bettor_of self.new ≡ bettor_of self.old }
        ensures rule { rule_of self.new ≡ rule_of self.old }
        ensures refused { OnErr result (self.new ≡ self.old) }
    {
        if let Phase::Staked(_) = self.phase {
            return Err(MonitorFault::NotArmed);
        }
        self.ledger = Wealth::default();
        self.phase = Phase::Armed;
        Ok(())
    }

    /// Changes nothing.
    pub fn read(&self) -> Reading
        ensures { Does B.meaning R.base self.now Read (OfRead result) self.now }
    {
        Reading {
            state: self.phase.state(),
            ledger: self.ledger,
            rounds: self.rounds,
            alarms: self.alarms,
        }
    }

    // The row of the stake that a slip belongs to, if it is out.
    fn row_for(&self, slip: &OpenSlip) -> Option<&StakedRow>
        ensures fits { IsSome result ↔ IsTrue (is_fitting (view B.meaning self.now) slip.now) }
        ensures staked { IfSome result (λ row. self.now.phase ≡ Staked row.now) }
    {
        match &self.phase {
            Phase::Staked(row) if slip.tag == self.tag && slip.number == self.rounds + 1 => Some(
                row,
            ),
            _ => None,
        }
    }
}
