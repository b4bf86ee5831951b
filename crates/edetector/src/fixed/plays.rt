// How the fixed bettor is made, and what it plays.
ghost use Rattle.std.specs.Prelude.{◌≡◌, [], length, None, slice_index};
ghost use Rattle.std.specs.Result.{result_map_both};
ghost use Rattle.edetector.specs.Tables.{factors_in, padded_row, null_fault, alternative_fault};
ghost use Rattle.edetector.specs.Bettors.{fixed_meaning};
ghost use Rattle.edetector.specs.NamedBettors.{tables_of, new_fixed};
ghost use Rattle.edetector.specs.Lemmas.Ratios.{fixed_law};

use super::super::bettor::Bettor;
use super::super::ratio::likelihood_ratio;
use super::super::table::{AlternativeTable, NullTable};
use super::super::units::{Factor, Row, Weight};
use super::super::value::ValueFault;
use super::Fixed;
use std::array;

// The likelihood ratio of a class, or 0 past the last.
fn ratio_at(null: &NullTable, alternative: &AlternativeTable, class: usize) -> Factor
    requires null { null_fault null.now ≡ None }
    requires alternative { alternative_fault alternative.now ≡ None }
    requires same_classes { length alternative.now ≡ length null.now }
    ensures { result.0 ≡ slice_index ((fixed_meaning null.now alternative.now).strategy []) class }
{
    if class >= null.classes() {
        return Factor(0);
    }
    let w = null.weight(class);
    let a = alternative.weight(class);
    likelihood_ratio(null.total(), alternative.total(), w, a)
}

// The likelihood ratios of all classes, with zeros behind them.
fn ratios_of(null: &NullTable, alternative: &AlternativeTable) -> Row
    requires null { null_fault null.now ≡ None }
    requires alternative { alternative_fault alternative.now ≡ None }
    requires same_classes { length alternative.now ≡ length null.now }
    ensures { let m = fixed_meaning null.now alternative.now in
        factors_in result ≡ padded_row (m.strategy []) }
{
    array::from_fn(|k| ratio_at(null, alternative, k))
}

impl Fixed {
    /// Both tables must have the same number of classes.
    pub fn new(null: NullTable, alternative: AlternativeTable) -> Result<Fixed, ValueFault>
        ensures { result_map_both tables_of (λ e. e) result ≡ new_fixed null alternative }
    {
        if alternative.classes() != null.classes() {
            return Err(ValueFault::Alternative);
        }
        let row = ratios_of(&null, &alternative);
        Ok(Fixed {
            null,
            alternative,
            row,
        })
    }
}

impl Bettor for Fixed {
    ghost meaning = { λ b. fixed_meaning (tables_of b).0 (tables_of b).1 };

    ghost law = { λ b.
        fixed_law b.null b.alternative b.null_unbroken b.alternative_unbroken b.same_classes };

    fn classes(&self) -> usize {
        self.null.classes()
    }

    fn weight(&self, class: usize) -> Weight {
        self.null.weight(class)
    }

    fn factor(&self, class: usize) -> Factor {
        self.row.get(class).copied().unwrap_or_default()
    }

    fn row(&self) -> Row {
        self.row
    }

    fn learn(&mut self, _class: usize)
        ensures same { self.new ≡ self.old }
    {}
}
