// Questions under a measure, and a section's name.
ghost use Rattle.std.specs.Prelude.{◌≡◌, ◌<◌, Some, None, Ok, Err, ◌==◌, MatchResult};
ghost use Rattle.feeder.specs.Laws.{TreeLaw, ChildrenLaw};
ghost use Rattle.sweeps.specs.Views.{shown};
ghost use Rattle.sweeps.specs.Weights.{weight_of};
ghost use Rattle.lines.specs.declared.refusal.Refusal.TheVariants.{Root};
ghost use Rattle.engine.specs.Changes.{first};
ghost use Rattle.engine.specs.Laws.{Alike, AlikeBy, SwitchSpares, SwitchWorth};
ghost use Rattle.engine.specs.Questions.{total_of, totals_of, flow_of, sum_of, WorstOf, name_of, missing, untried, or_refused};
ghost use Rattle.engine.specs.Studies.{feeder_of};

use super::Study;
use feeder::MOST_SECTIONS;
use lines::Refusal;
use measures::{Measure, Weighed};
use sweeps::{By, View};

impl Study<'_> {
    // The feeder, for reading, once one is loaded.
    pub(super) fn view(&self) -> Result<View<'_>, Refusal>
        ensures { MatchResult result (λ v. (0 < self.now.count) × (shown v ≡ feeder_of self.now)) (λ e. missing (feeder_of self.now) 0 None ≡ Some e) }
    {
        if self.count == 0 {
            return Err(Refusal::NoSection);
        }
        Ok(View {
            sections: &self.lent.list[..self.count],
            switching: self.switching,
        })
    }

    // The index of section `k`.
    pub(super) fn index(&self, k: u32) -> Result<usize, Refusal>
        ensures { MatchResult result (λ at. (at ≡ k) × (k < self.now.count)) (λ e. missing (feeder_of self.now) k None ≡ Some e) }
    {
        // `as`: std has no `usize::from(u32)`.
        let at = k as usize;
        if at >= self.count {
            return Err(Refusal::NoSection);
        }
        Ok(at)
    }

    // The index of section `k`, which is not section 0.
    pub(super) fn index_below_root(&self, k: u32) -> Result<usize, Refusal>
        ensures { MatchResult result (λ at. (at ≡ k) × (0 < k) × (k < self.now.count)) (λ e. missing (feeder_of self.now) k (first (k == 0) Root None) ≡ Some e) }
    {
        let at = self.index(k)?;
        if at == 0 {
            return Err(Refusal::Root);
        }
        Ok(at)
    }

    // The index of section `j`, if a switch can be fitted there.
    pub(super) fn bare(&self, j: u32) -> Result<usize, Refusal>
        ensures { result ≡ or_refused (untried (feeder_of self.now) j) j }
    {
        let at = self.index_below_root(j)?;
        if self.lent.list[at].switch {
            return Err(Refusal::Stands);
        }
        Ok(at)
    }

    /// The total of a node.
    pub fn total<M: Measure>(&self, m: &M, node: u32) -> Result<M::Value, Refusal>
        ensures answer { result ≡ total_of (M.Measure.meaning m.now) node (feeder_of self.now) }
        ensures alike { AlikeBy (total_of (M.Measure.meaning m.now) node) (feeder_of self.now) result }
        ensures spares { SwitchSpares (M.Measure.meaning m.now) (feeder_of self.now) }
        ensures words { TreeLaw }
    {
        let at = self.index(node)?;
        let v = self.view()?;
        // A table for the most sections, since nothing is allocated; so there is room for all.
        let mut totals = [m.nothing(); MOST_SECTIONS];
        let _ = v.totals_into(m, &mut totals);
        Ok(totals[at])
    }

    /// Writes the total of each node to the front of `out`; entries past them keep what they held.
    pub fn totals<M: Measure>(&self, m: &M, out: &mut [M::Value]) -> Result<(), Refusal>
        ensures answer { (result, out.new) ≡ totals_of (M.Measure.meaning m.now) out.old (feeder_of self.now) }
        ensures alike { AlikeBy (totals_of (M.Measure.meaning m.now) out.old) (feeder_of self.now) (result, out.new) }
        ensures spares { SwitchSpares (M.Measure.meaning m.now) (feeder_of self.now) }
    {
        self.view()?.totals_into(m, out).or(Err(Refusal::Short))
    }

    /// The flow at section `j`: what is held there, or nothing where a switch stands.
    pub fn flow<M: Measure>(&self, m: &M, j: u32) -> Result<M::Value, Refusal>
        ensures answer { result ≡ flow_of (M.Measure.meaning m.now) j (feeder_of self.now) }
        ensures alike { AlikeBy (flow_of (M.Measure.meaning m.now) j) (feeder_of self.now) result }
        ensures children { ChildrenLaw M.Value }
    {
        let at = self.index_below_root(j)?;
        self.view()?.flow_at(m, at).ok_or(Refusal::NoSection)
    }

    /// The totals as numbers, each times the load or the customers of its node, added up.
    pub fn weighted_sum<M: Weighed>(&self, m: &M, by: By) -> Result<u64, Refusal>
        ensures answer { result ≡ sum_of (M.Measure.meaning m.now) (M.Weighed.number m.now) (weight_of by) (feeder_of self.now) }
        ensures alike { AlikeBy (sum_of (M.Measure.meaning m.now) (M.Weighed.number m.now) (weight_of by)) (feeder_of self.now) result }
        ensures worth { SwitchWorth (M.Measure.meaning m.now) (M.Weighed.number m.now) (weight_of by) (feeder_of self.now) }
    {
        Ok(self.view()?.weighted(m, by))
    }

    /// The node with the largest total, the lowest on equals.
    pub fn worst<M: Weighed>(&self, m: &M) -> Result<u32, Refusal>
        ensures answer { WorstOf (M.Measure.meaning m.now) (M.Weighed.number m.now) (feeder_of self.now) result }
        ensures alike { Alike (WorstOf (M.Measure.meaning m.now) (M.Weighed.number m.now)) (feeder_of self.now) result }
    {
        // `as`: it is proved to fit, so there is no error to pass on.
        Ok(self.view()?.worst(m) as u32)
    }

    /// The name of section `k`, as `archive` has it at the name's place.
    pub fn name<'b>(&self, archive: &'b [u8], k: u32) -> Result<&'b [u8], Refusal>
        ensures answer { MatchResult result (λ part. name_of archive.now k (feeder_of self.now) ≡ Ok part.now) (λ e. name_of archive.now k (feeder_of self.now) ≡ Err e) }
        ensures alike { MatchResult result (λ part. AlikeBy (name_of archive.now k) (feeder_of self.now) (Ok part.now)) (λ e. AlikeBy (name_of archive.now k) (feeder_of self.now) (Err e)) }
    {
        let at = self.index(k)?;
        let name = self.lent.list[at].figures.name;
        let len = usize::from(name.len);
        if name.at > archive.len() || archive.len() - name.at < len {
            return Err(Refusal::NameCut);
        }
        Ok(&archive[name.at..name.at + len])
    }
}
