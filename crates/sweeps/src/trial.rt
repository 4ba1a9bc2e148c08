// The flow at a section, and the short trial of a switch there.
ghost use Rattle.std.specs.Prelude.{◌≡◌, IfSome};
ghost use Rattle.feeder.specs.Flows.{flow};
ghost use Rattle.feeder.specs.Weighed.{shielded};
ghost use Rattle.sweeps.specs.Views.{shown, if_there};
ghost use Rattle.sweeps.specs.Weights.{weight_of, short_trial, TakesOff};

use crate::by::By;
use crate::view::View;
use feeder::MOST_SECTIONS;
use measures::{Measure, Weighed};

impl View<'_> {
    /// The flow at section `j`; `None` where there is no such section.
    pub fn flow_at<M: Measure>(&self, m: &M, j: usize) -> Option<M::Value>
        ensures { result ≡ if_there (shown self.now) j (flow (M.Measure.meaning m.now) (shown self.now) j) }
    {
        let section = self.sections.get(j)?;
        if section.switch {
            return Some(m.nothing());
        }
        // A table for the most sections, since nothing is allocated.
        let mut held = [m.nothing(); MOST_SECTIONS];
        self.held_into(m, &mut held);
        Some(held[j])
    }

    /// The flow at section `j`, the weight that a switch there shields, and their product; `None` where there is no such section.
    pub fn short_trial<M: Weighed>(&self, m: &M, by: By, j: usize) -> Option<(u64, u64, u64)>
        ensures value { result ≡ if_there (shown self.now) j (short_trial (M.Weighed.number m.now (flow (M.Measure.meaning m.now) (shown self.now) j)) (shielded (weight_of by) (shown self.now) j)) }
        ensures law { IfSome result (λ t. TakesOff (M.Measure.meaning m.now) (M.Weighed.number m.now) (weight_of by) (shown self.now) j t.2) }
    {
        let flow = m.number(self.flow_at(m, j)?);
        let weight = self.weight_shielded(by, j);
        Some((flow, weight, flow * weight))
    }
}
