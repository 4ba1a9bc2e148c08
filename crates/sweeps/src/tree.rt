// Heads, the weight below a section, and the weight that a switch shields.
ghost use Rattle.std.specs.Prelude.{◌≡◌, ℕ, ◌<◌, ◌≤◌, false, length};
ghost use Rattle.feeder.specs.Feeder.{size, up, cut};
ghost use Rattle.feeder.specs.Tree.{below, head};
ghost use Rattle.feeder.specs.Weighed.{weight_below, shielded};
ghost use Rattle.sweeps.specs.Lists.{Holds};
ghost use Rattle.sweeps.specs.Views.{shown};
ghost use Rattle.sweeps.specs.Weights.{weight_of};

use crate::by::By;
use crate::view::View;
use feeder::MOST_SECTIONS;

impl View<'_> {
    // The weight below the head of section j, less the weight below j.
    pub(crate) fn weight_shielded(&self, by: By, j: usize) -> u64
        requires within { j < size (shown self.now) }
        ensures value { result ≡ shielded (weight_of by) (shown self.now) j }
        ensures small { result ≤ 4096000 }
    {
        let head = self.head_of(j);
        self.weight_below(by, head) - self.weight_below(by, j)
    }

    // The head of section k. That there is such a section is asked here and of the two beside it, which are called by its number: an
    // index of a type of its own would have to be made from one at each turn.
    fn head_of(&self, k: usize) -> usize
        requires within { k < size (shown self.now) }
        ensures { result ≡ head (up (shown self.now)) (cut (shown self.now)) k }
    {
        let mut h = k;
        while !self.sections[h].switch
            && let Some(p) = self.sections[h].figures.parent
        {
            h = usize::from(p);
        }
        h
    }

    // The weight of all nodes below section j.
    fn weight_below(&self, by: By, j: usize) -> u64
        ensures value { result ≡ weight_below (weight_of by) (shown self.now) j }
        ensures small { result ≤ 4096000 }
    {
        // A table for the most sections, since nothing is allocated.
        let mut known = [false; MOST_SECTIONS];
        let mut sum = 0;
        for (k, section) in self.sections.iter().enumerate() {
            let under = self.is_below(j, k, &known);
            known[k] = under;
            if under {
                sum += by.of(&section.figures);
            }
        }
        sum
    }

    // Whether section k is below j, where that is known of every section before k.
    fn is_below(&self, j: usize, k: usize, known: &[bool]) -> bool
        requires within { k < size (shown self.now) }
        requires room { size (shown self.now) ≤ length known.now }
        requires told { Holds false (λ i. below (up (shown self.now)) i j) k known.now }
        ensures { result ≡ below (up (shown self.now)) k j }
    {
        let parent = self.sections[k].figures.parent;
        k == j || parent.is_some_and(|p| known[usize::from(p)])
    }
}
