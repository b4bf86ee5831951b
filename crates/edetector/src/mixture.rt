// A mixture of any two bettors, which bets half on each.
ghost use Rattle.std.specs.Prelude.{◌≡◌, ◌+◌, ◌/◌, ◌<◌, ◌≤◌, ◌↔◌, if◌then◌else◌, length, Ok, Err, IsOk};
ghost use Rattle.edetector.specs.declared.value.ValueFault.TheVariants.{NullTables};
ghost use Rattle.edetector.specs.Tables.{factors_in};
ghost use Rattle.edetector.specs.Bettors.{meaning_after, averages, mixture_meaning, same_table};
ghost use Rattle.edetector.specs.Lemmas.Mixtures.{mixture_law};

use super::bettor::Bettor;
use super::units::{Factor, Row, Weight};
use super::value::ValueFault;
use std::array;
use std::marker::Model;

/// A mixture's null table is that of its first bettor. Over unlike null tables the second bettor bets nothing.
#[derive(Drop)]
pub struct Mixture<F: Bettor, S: Bettor> {
    first: F,
    second: S,
    // whether the two null tables are the same
    same: bool,
}

impl<F: Bettor, S: Bettor> Model for Mixture<F, S> {
    ghost use Rattle.std.specs.Prelude.{◌≡◌};
    ghost use Rattle.edetector.specs.Bettors.{TwoBettors, same_table};

    ghost Value = { TwoBettors F S };

    ghost view = { λ m. record { first = m.first; second = m.second } };

    ghost invariant = { λ m.
        m.same ≡ same_table (F.meaning m.first).nulls (S.meaning m.second).nulls };
}

// Whether two bettors have the same null table.
fn have_same_table<F: Bettor, S: Bettor>(first: &F, second: &S) -> bool
    ensures { result ≡ same_table (F.meaning first.now).nulls (S.meaning second.now).nulls }
{
    let n = first.classes();
    if n != second.classes() {
        return false;
    }
    (0..n).all(|k| first.weight(k) == second.weight(k))
}

fn average(f: Factor, g: Factor) -> Factor
    ensures { result.0 ≡ (f.0 + g.0) / 2 }
{
    Factor(f.0.midpoint(g.0))
}

// Half the sum of two rows.
fn average_row(f: Row, g: Row) -> Row
    ensures { factors_in result ≡ averages (factors_in f) (factors_in g) }
{
    array::from_fn(|k| average(f[k], g[k]))
}

impl<F: Bettor, S: Bettor> Mixture<F, S> {
    /// The two null tables are compared here, once.
    pub fn new(first: F, second: S) -> Mixture<F, S>
        ensures { result ≡ record { first = first; second = second } }
    {
        let same = have_same_table(&first, &second);
        Mixture {
            first,
            second,
            same,
        }
    }

    /// Refused where the two null tables differ.
    pub fn check(&self) -> Result<(), ValueFault>
        ensures value { let ws = (F.meaning self.now.first).nulls in
            let vs = (S.meaning self.now.second).nulls in
            result ≡ (if same_table ws vs then Ok tt else Err NullTables) }
        ensures equal { let ws = (F.meaning self.now.first).nulls in
            let vs = (S.meaning self.now.second).nulls in
            IsOk result ↔ (ws ≡ vs) }
    {
        if self.same {
            Ok(())
        } else {
            Err(ValueFault::NullTables)
        }
    }
}

impl<F: Bettor, S: Bettor> Bettor for Mixture<F, S> {
    ghost meaning = { λ m. mixture_meaning (F.meaning m.first) (S.meaning m.second) };

    ghost law = { λ m.
        mixture_law (F.meaning m.first) (S.meaning m.second) (F.law m.first) (S.law m.second) };

    fn classes(&self) -> usize {
        self.first.classes()
    }

    fn weight(&self, class: usize) -> Weight {
        self.first.weight(class)
    }

    fn factor(&self, class: usize) -> Factor {
        let f = self.first.factor(class);
        if !self.same {
            return f;
        }
        average(f, self.second.factor(class))
    }

    // Both learn every class of the mixture's own table, also where the two tables differ.
    fn learn(&mut self, class: usize)
        ensures first { class < length (F.meaning self.old.first).nulls →
            F.meaning self.new.first ≡ meaning_after (F.meaning self.old.first) class }
        ensures second { class < length (F.meaning self.old.first).nulls →
            S.meaning self.new.second ≡ meaning_after (S.meaning self.old.second) class }
        ensures same { length (F.meaning self.old.first).nulls ≤ class → self.new ≡ self.old }
    {
        if class < self.first.classes() {
            self.first.learn(class);
            self.second.learn(class);
        }
    }

    fn row(&self) -> Row {
        let row = self.first.row();
        if self.same {
            average_row(row, self.second.row())
        } else {
            row
        }
    }
}
