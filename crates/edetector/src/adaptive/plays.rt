// How the adaptive bettor is made, what it plays and how it learns.
ghost use Rattle.std.specs.Prelude.{◌≡◌, ℕ, ◌≤◌, [], length};
ghost use Rattle.edetector.specs.Bettors.{most_tallied, times, adaptive_meaning};
ghost use Rattle.edetector.specs.NamedBettors.{null_of, tally_of, tally_after};
ghost use Rattle.edetector.specs.Lemmas.Tallies.{adaptive_law};

use super::super::bettor::Bettor;
use super::super::ratio::likelihood_ratio;
use super::super::table::{MOST_CLASSES, NullTable};
use super::super::units::{Factor, Weight};
use super::Adaptive;

// So many classes are tallied at most.
const MOST_TALLIED: u32 = 1000000;

impl Adaptive {
    /// A bettor that has learned nothing.
    pub fn new(null: NullTable) -> Adaptive
        ensures table { null_of result ≡ null }
        ensures tally { tally_of result ≡ [] }
    {
        // a table tells with its classes that it breaks no limit
        let _ = null.classes();
        Adaptive {
            null,
            counts: [0; MOST_CLASSES],
            tallied: 0,
        }
    }
}

impl Bettor for Adaptive {
    ghost meaning = { λ b. adaptive_meaning (null_of b) (tally_of b) };

    ghost law = { λ b. adaptive_law b.null (tally_of b) b.null_unbroken };

    fn classes(&self) -> usize {
        self.null.classes()
    }

    fn weight(&self, class: usize) -> Weight {
        self.null.weight(class)
    }

    fn factor(&self, class: usize) -> Factor {
        if class >= self.null.classes() {
            return Factor(0);
        }
        let w = self.null.weight(class);
        let a = Weight(w.0 + self.counts[class]);
        let total = self.null.total();
        likelihood_ratio(total, total + self.tallied, w, a)
    }

    // Once a million classes are tallied, nothing changes any more.
    fn learn(&mut self, class: usize)
        ensures table { null_of self.new ≡ null_of self.old }
        ensures times { let classes = length (null_of self.old) in
            let tally = tally_after classes (tally_of self.old) class in
            (k : ℕ) → times k (tally_of self.new) ≡ times k tally }
        ensures tallied { let classes = length (null_of self.old) in
            let tally = tally_after classes (tally_of self.old) class in
            length (tally_of self.new) ≡ length tally }
        ensures same { length (null_of self.old) ≤ class → self.new ≡ self.old }
        ensures full { most_tallied ≤ length (tally_of self.old) → self.new ≡ self.old }
    {
        if class < self.null.classes() && self.tallied < MOST_TALLIED {
            self.counts[class] += 1;
            self.tallied += 1;
        }
    }
}
