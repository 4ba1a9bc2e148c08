// Longest: the longest single outage of a node, and after a fault on which section.
ghost use Rattle.measures.specs.Longest.{longest};
ghost use Rattle.std.proofs.Common.{rules};

use crate::measure::Measure;
use crate::outage::Outage;
use feeder::Figures;

/// The longer of two outages, on equal times that of the lower section; `None` where no fault has a rate.
#[derive(Clone, Copy, Debug)]
pub struct Longest;

impl Measure for Longest {
    type Value = Option<Outage>;

    ghost meaning = { λ _. longest };

    ghost lawful = { Prim.search rules };

    fn nothing(&self) -> Option<Outage> {
        None
    }

    fn join(&self, a: Option<Outage>, b: Option<Outage>) -> Option<Outage> {
        match (a, b) {
            (None, b) => b,
            (Some(x), None) => Some(x),
            // No `Ord` on `Outage`: its order would put the lower section above the higher, which no reader of `<` expects.
            (Some(x), Some(y)) => {
                if y.minutes < x.minutes || (x.minutes == y.minutes && x.section <= y.section) {
                    Some(x)
                } else {
                    Some(y)
                }
            }
        }
    }

    fn effect(&self, k: u16, figures: &Figures, _s: u16, time: u16) -> Option<Outage> {
        if figures.rate == 0 {
            None
        } else {
            Some(Outage {
                minutes: time,
                section: k,
            })
        }
    }

    fn extra(&self, k: u16, figures: &Figures, s: u16) -> Option<Outage> {
        if s < figures.repair {
            self.effect(k, figures, s, figures.repair)
        } else {
            None
        }
    }
}
