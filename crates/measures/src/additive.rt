// Measures that add up whole numbers.
ghost use Rattle.std.specs.Prelude.{◌≡◌};
ghost use Rattle.measures.specs.Capped.{Amounts};
ghost use Rattle.measures.specs.Additive.{Additive as IsAdditive, sums};
ghost use Rattle.measures.specs.Caps.{amounts_lawful, amounts_weigh};

use crate::capped::Capped;
use crate::measure::Measure;
use crate::weighed::Weighed;
use feeder::Figures;

/// A measure that adds up whole numbers.
///
/// Who says what one fault adds has with it the whole of a measure that can be weighed: its values are the sums, capped at 2^64 - 1.
pub trait Additive {
    ghost amounts: { Self → Amounts };

    /// What a fault on section `k` adds for a node that is out for `time` minutes; `s` is the switching time.
    fn amount(&self, k: u16, figures: &Figures, s: u16, time: u16) -> u64
        ensures { result ≡ (amounts self.now).amount k figures.now s time };

    /// How much more a near fault on section `k` adds than a far one.
    fn excess(&self, k: u16, figures: &Figures, s: u16) -> u64
        ensures { result ≡ (amounts self.now).excess k figures.now s };

    ghost additive: { (x : Self) → IsAdditive (amounts x) };
}

impl<A: Additive> Measure for A {
    type Value = Capped;

    ghost meaning = { λ x. sums (A.amounts x) };

    ghost lawful = { λ x. amounts_lawful (A.amounts x) (A.additive x).parts };

    fn nothing(&self) -> Capped {
        Capped::from(0)
    }

    fn join(&self, a: Capped, b: Capped) -> Capped {
        a.plus(b)
    }

    fn effect(&self, k: u16, figures: &Figures, s: u16, time: u16) -> Capped {
        Capped::from(self.amount(k, figures, s, time))
    }

    fn extra(&self, k: u16, figures: &Figures, s: u16) -> Capped {
        Capped::from(self.excess(k, figures, s))
    }
}

impl<A: Additive> Weighed for A {
    ghost number = { λ _ v. v.value };

    ghost weighs = { λ x. amounts_weigh (A.amounts x) (A.additive x).most };

    fn number(&self, v: Capped) -> u64 {
        v.value
    }
}
