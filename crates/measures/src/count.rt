// Count: how many interruptions a node has, in thousandths a year.
ghost use Rattle.std.specs.Prelude.{◌≡◌};
ghost use Rattle.feeder.specs.Measure.{Lawful};
ghost use Rattle.feeder.specs.Weighed.{Weighs};
ghost use Rattle.measures.specs.Capped.{cap, count, count_amounts};
ghost use Rattle.measures.specs.Caps.{count_additive};

use crate::additive::Additive;
use feeder::Figures;

/// The rates, summed; how long a node is out plays no part.
#[derive(Clone, Copy, Debug)]
pub struct Count;

impl Additive for Count {
    ghost amounts = { λ _. count_amounts };

    ghost additive = { λ _. count_additive };

    fn amount(&self, k: u16, figures: &Figures, s: u16, time: u16) -> u64
        ensures value { result ≡ count_amounts.amount k figures.now s time }
        ensures effect { cap result ≡ count.effect k figures.now s time }
        ensures lawful { Lawful count }
        ensures weighs { Weighs count (λ v. v.value) }
    {
        u64::from(figures.rate)
    }

    fn excess(&self, k: u16, figures: &Figures, s: u16) -> u64
        ensures value { result ≡ count_amounts.excess k figures.now s }
        ensures extra { cap result ≡ count.extra k figures.now s }
    {
        0
    }
}
