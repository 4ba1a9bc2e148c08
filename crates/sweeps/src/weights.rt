// Weights, weighted sums of the totals, and the node of the largest.
ghost use Rattle.std.specs.Prelude.{◌≡◌, ℕ, ◌^◌, ◌<◌, ◌≤◌, length, slice_index_or};
ghost use Rattle.feeder.specs.Feeder.{size, figures};
ghost use Rattle.feeder.specs.Totals.{total};
ghost use Rattle.feeder.specs.Weighed.{sum_over, weighted_sum};
ghost use Rattle.sweeps.specs.Lists.{Holds};
ghost use Rattle.sweeps.specs.Views.{shown};
ghost use Rattle.sweeps.specs.Weights.{weight_of, FirstLargest};

use crate::by::By;
use crate::view::View;
use feeder::{Figures, MOST_SECTIONS};
use measures::Weighed;

impl By {
    /// The weight of one node.
    pub fn of(self, figures: &Figures) -> u64
        ensures { result ≡ weight_of self figures.now }
    {
        match self {
            By::Load => u64::from(figures.load),
            By::Customers => u64::from(figures.customers),
        }
    }
}

impl View<'_> {
    /// The weight of all nodes.
    pub fn weight(&self, by: By) -> u64
        ensures { result ≡ sum_over (size (shown self.now)) (λ k. weight_of by (figures (shown self.now) k)) }
    {
        self.sections.iter().map(|s| by.of(&s.figures)).sum()
    }

    /// The totals as numbers, each times its node's weight, added up.
    pub fn weighted<M: Weighed>(&self, m: &M, by: By) -> u64
        ensures value { result ≡ weighted_sum (M.Measure.meaning m.now) (M.Weighed.number m.now) (weight_of by) (shown self.now) }
        ensures small { result ≤ 2 ^ 63 }
    {
        // A table for the most sections, since nothing is allocated.
        let mut totals = [m.nothing(); MOST_SECTIONS];
        // Never refused: by the field `few` the table has room for all.
        let _ = self.totals_into(m, &mut totals);
        self.add_up(m, by, &totals)
    }

    /// The node with the largest total, the lowest on equals.
    pub fn worst<M: Weighed>(&self, m: &M) -> usize
        ensures { FirstLargest (λ j. M.Weighed.number m.now (total (M.Measure.meaning m.now) (shown self.now) j)) (size (shown self.now)) result }
    {
        // A table for the most sections, since nothing is allocated.
        let mut totals = [m.nothing(); MOST_SECTIONS];
        // Never refused: by the field `few` the table has room for all.
        let _ = self.totals_into(m, &mut totals);
        largest(m, &totals[..self.sections.len()])
    }

    // The totals as numbers, each times its node's weight, added up.
    fn add_up<M: Weighed>(&self, m: &M, by: By, totals: &[M::Value]) -> u64
        requires room { size (shown self.now) ≤ length totals.now }
        requires told { Holds (M.Measure.meaning m.now).nothing (total (M.Measure.meaning m.now) (shown self.now)) (size (shown self.now)) totals.now }
        ensures { result ≡ weighted_sum (M.Measure.meaning m.now) (M.Weighed.number m.now) (weight_of by) (shown self.now) }
    {
        self.sections
            .iter()
            .zip(totals)
            .map(|(section, total)| by.of(&section.figures) * m.number(*total))
            .sum()
    }
}

// Where the largest number stands, the first on equals.
fn largest<M: Weighed>(m: &M, totals: &[M::Value]) -> usize
    requires some { 1 ≤ length totals.now }
    ensures { FirstLargest (λ j. M.Weighed.number m.now (slice_index_or totals.now j (M.Measure.meaning m.now).nothing)) (length totals.now) result }
{
    let mut at = 0;
    let mut most = m.number(totals[0]);
    for (k, total) in totals.iter().enumerate() {
        let number = m.number(*total);
        if number > most {
            at = k;
            most = number;
        }
    }
    at
}
