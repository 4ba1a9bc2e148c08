// A measure of this program's own: how often a node waits for a repair and not only for switching.
ghost use Rattle.std.specs.Prelude.{◌≡◌, if◌then◌else◌, nat_lt};
ghost use Rattle.feeder.specs.Measure.{Lawful};
ghost use Rattle.feeder.specs.Weighed.{Weighs};
ghost use Rattle.measures.specs.Capped.{cap};
ghost use Rattle.own_measure.specs.Prolonged.{prolonged, prolonged_amounts};
ghost use Rattle.own_measure.specs.Laws.{prolonged_additive};

use feeder::Figures;
use measures::Additive;

/// The rates of the faults that keep a node out longer than the switching time, summed.
#[derive(Clone, Copy, Debug)]
pub struct Prolonged;

impl Additive for Prolonged {
    ghost amounts = { λ _. prolonged_amounts };

    ghost additive = { λ _. prolonged_additive };

    fn amount(&self, k: u16, figures: &Figures, s: u16, time: u16) -> u64
        ensures value { result ≡ prolonged_amounts.amount k figures.now s time }
        ensures effect { cap result ≡ prolonged.effect k figures.now s time }
        ensures lawful { Lawful prolonged }
        ensures weighs { Weighs prolonged (λ v. v.value) }
    {
        longer(figures.rate, s, time)
    }

    fn excess(&self, k: u16, figures: &Figures, s: u16) -> u64
        ensures value { result ≡ prolonged_amounts.excess k figures.now s }
        ensures extra { cap result ≡ prolonged.extra k figures.now s }
    {
        longer(figures.rate, s, figures.repair)
    }
}

fn longer(rate: u32, s: u16, time: u16) -> u64
    ensures { result ≡ (if nat_lt s time then rate else 0) }
{
    if s < time { u64::from(rate) } else { 0 }
}
