// The downward sweep: what is held at each section.
ghost use Rattle.std.specs.Prelude.{◌≡◌, ℕ, ◌<◌, ◌≤◌, length};
ghost use Rattle.feeder.specs.Feeder.{size};
ghost use Rattle.feeder.specs.Totals.{extra_part};
ghost use Rattle.feeder.specs.Flows.{held};
ghost use Rattle.sweeps.specs.Lists.{Holds, written};
ghost use Rattle.sweeps.specs.Views.{shown};

use crate::view::View;
use measures::Measure;

impl View<'_> {
    // Writes what is held at each section to the front of `out`.
    pub(crate) fn held_into<M: Measure>(&self, m: &M, out: &mut [M::Value])
        requires room { size (shown self.now) ≤ length out.old }
        ensures { out.new ≡ written (held (M.Measure.meaning m.now) (shown self.now)) (size (shown self.now)) out.old }
    {
        let part = &mut out[..self.sections.len()];
        self.fill(m, part);
        self.gather(m, part);
    }

    // Writes the extra part of each section's fault. That the list has an entry for each section is asked here and of the two sweeps
    // that follow: `held_into` and `totals_into` cut it once.
    fn fill<M: Measure>(&self, m: &M, out: &mut [M::Value])
        requires long { length out.old ≡ size (shown self.now) }
        ensures { Holds (M.Measure.meaning m.now).nothing (extra_part (M.Measure.meaning m.now) (shown self.now)) (size (shown self.now)) out.new }
    {
        for (k, section) in self.sections.iter().enumerate() {
            // `as`: it is proved to fit, so there is no error to pass on.
            out[k] = m.extra(k as u16, &section.figures, self.switching);
        }
    }

    // Passes what stands at each section without a switch on to its parent, from the last section on.
    fn gather<M: Measure>(&self, m: &M, out: &mut [M::Value])
        requires long { length out.old ≡ size (shown self.now) }
        requires start { Holds (M.Measure.meaning m.now).nothing (extra_part (M.Measure.meaning m.now) (shown self.now)) (size (shown self.now)) out.old }
        ensures { Holds (M.Measure.meaning m.now).nothing (held (M.Measure.meaning m.now) (shown self.now)) (size (shown self.now)) out.new }
    {
        // Indices: a turn writes to the parent's entry, which no iterator over the entries lends beside its own.
        for j in (1..self.sections.len()).rev() {
            let section = &self.sections[j];
            if !section.switch
                && let Some(p) = section.figures.parent
            {
                let parent = usize::from(p);
                out[parent] = m.join(out[parent], out[j]);
            }
        }
    }
}
