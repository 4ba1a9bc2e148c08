// Trials of one more switch.
ghost use Rattle.std.specs.Prelude.{◌≡◌, ◌<◌, false, length, take, slice_index_or, slice_set};
ghost use Rattle.feeder.specs.Feeder.{blank, fitted};
ghost use Rattle.feeder.specs.Totals.{total};
ghost use Rattle.sweeps.specs.Lists.{feeder};
ghost use Rattle.sweeps.specs.Weights.{weight_of};
ghost use Rattle.sweeps.specs.declared.by.By.TheVariants.{Load};
ghost use Rattle.engine.specs.Changes.{marked};
ghost use Rattle.engine.specs.Laws.{AlikeBy, SwitchSpares, SwitchWorth};
ghost use Rattle.engine.specs.Logs.{Extends, asked};
ghost use Rattle.engine.specs.Questions.{full_trial_of, short_trial_of, if_room};
ghost use Rattle.engine.specs.Studies.{Triable, feeder_of, lent_to};

use super::{Lent, Study};
use feeder::Section;
use lines::Refusal;
use measures::{Measure, Weighed};
use sweeps::{By, View};

// A section list with the switch mark of section `at` set; its end clears the mark, whichever way out is taken.
struct Fitted<'b> {
    list: &'b mut [Section],
    at: usize,
    ghost inside: { at < length list.now },
}

impl Drop for Fitted<'_> {
    fn drop(self)
        ensures { self.exit.0.now ≡ slice_set self.entry.list.now self.entry.at (marked (slice_index_or self.entry.list.now self.entry.at blank) false) }
    {
        let Fitted { list, at } = self;
        list[at].switch = false;
    }
}

impl Fitted<'_> {
    // The list, for reading.
    fn sections(&self) -> &[Section]
        ensures { result.now ≡ self.now.list.now }
    {
        &*self.list
    }
}

// The totals of the first `n` sections with a switch fitted at `at`, if `out` has room; the list is as it was on every way out.
fn totals_fitted<M: Measure>(
    m: &M,
    list: &mut [Section],
    n: usize,
    switching: u16,
    at: usize,
    out: &mut [M::Value],
) -> Result<(), Refusal>
    requires { Triable list.old n switching at }
    ensures kept { list.new ≡ list.old }
    ensures totals { (result, out.new) ≡ if_room n (total (M.Measure.meaning m.now) (fitted (feeder (take n list.old) switching) at)) out.old }
{
    list[at].switch = true;
    let guard = Fitted { list, at };
    let lent = guard.sections();
    let v = View {
        sections: &lent[..n],
        switching,
    };
    v.totals_into(m, out).or(Err(Refusal::Short))
}

impl Lent<'_> {
    // The same on the lent list. Two functions: what a guard over `self.list` leaves there is not known once it ends, and a list lent
    // out of a `Study`, which has ghost fields, is not covered by the borrow checker.
    fn totals_with<M: Measure>(
        &mut self,
        m: &M,
        n: usize,
        switching: u16,
        at: usize,
        out: &mut [M::Value],
    ) -> Result<(), Refusal>
        requires { Triable self.old.list.now n switching at }
        ensures kept { self.new.list.now ≡ self.old.list.now }
        ensures totals { (result, out.new) ≡ if_room n (total (M.Measure.meaning m.now) (fitted (feeder (take n self.old.list.now) switching) at)) out.old }
    {
        totals_fitted(m, self.list, n, switching, at, out)
    }
}

impl Study<'_> {
    /// The flow at section `j`, the load that a switch there would shield, and their product.
    pub fn short_trial<M: Weighed>(&self, m: &M, j: u32) -> Result<(u64, u64, u64), Refusal>
        ensures answer { result ≡ short_trial_of (M.Measure.meaning m.now) (M.Weighed.number m.now) (weight_of Load) j (feeder_of self.now) }
        ensures alike { AlikeBy (short_trial_of (M.Measure.meaning m.now) (M.Weighed.number m.now) (weight_of Load) j) (feeder_of self.now) result }
        ensures worth { SwitchWorth (M.Measure.meaning m.now) (M.Weighed.number m.now) (weight_of Load) (feeder_of self.now) }
    {
        let at = self.bare(j)?;
        self.view()?
            .short_trial(m, By::Load, at)
            .ok_or(Refusal::NoSection)
    }

    /// Writes the total that each node would have with a switch fitted at section `j`; the study is afterwards as it was.
    pub fn full_trial<M: Measure>(
        &mut self,
        m: &M,
        j: u32,
        out: &mut [M::Value],
    ) -> Result<(), Refusal>
        ensures answer { (result, out.new) ≡ full_trial_of (M.Measure.meaning m.now) j out.old (feeder_of self.old) }
        ensures alike { AlikeBy (full_trial_of (M.Measure.meaning m.now) j out.old) (feeder_of self.old) (result, out.new) }
        ensures spares { SwitchSpares (M.Measure.meaning m.now) (feeder_of self.old) }
        ensures logged { Extends (feeder_of self.old) asked (feeder_of self.new) }
        ensures feeder { feeder_of self.new ≡ feeder_of self.old }
        ensures kept { lent_to self.new ≡ lent_to self.old }
    {
        let at = self.bare(j)?;
        self.lent
            .totals_with(m, self.count, self.switching, at, out)
    }
}
