// Minutes: how long a node is without supply, in thousandths of a minute a year.
ghost use Rattle.std.specs.Prelude.{◌≡◌};
ghost use Rattle.feeder.specs.Measure.{Lawful};
ghost use Rattle.feeder.specs.Weighed.{Weighs};
ghost use Rattle.measures.specs.Capped.{cap, minutes, minutes_amounts};
ghost use Rattle.measures.specs.Caps.{minutes_additive};

use crate::additive::Additive;
use feeder::Figures;

/// Rate times time out, summed.
#[derive(Clone, Copy, Debug)]
pub struct Minutes;

impl Additive for Minutes {
    ghost amounts = { λ _. minutes_amounts };

    ghost additive = { λ _. minutes_additive };

    fn amount(&self, k: u16, figures: &Figures, s: u16, time: u16) -> u64
        ensures value { result ≡ minutes_amounts.amount k figures.now s time }
        ensures effect { cap result ≡ minutes.effect k figures.now s time }
        ensures lawful { Lawful minutes }
        ensures weighs { Weighs minutes (λ v. v.value) }
    {
        u64::from(figures.rate) * u64::from(time)
    }

    fn excess(&self, k: u16, figures: &Figures, s: u16) -> u64
        ensures value { result ≡ minutes_amounts.excess k figures.now s }
        ensures extra { cap result ≡ minutes.extra k figures.now s }
    {
        let near = u64::from(figures.rate) * u64::from(figures.repair);
        let far = u64::from(figures.rate) * u64::from(figures.repair.min(s));
        near - far
    }
}
