// The upward sweep: the total of each node.
ghost use Rattle.std.specs.Prelude.{◌≡◌, ℕ, ◌<◌, Ok, Err, length, if◌then◌else◌, nat_le};
ghost use Rattle.feeder.specs.Feeder.{size};
ghost use Rattle.feeder.specs.Totals.{far_total, total};
ghost use Rattle.feeder.specs.Flows.{held};
ghost use Rattle.sweeps.specs.Lists.{Holds, written};
ghost use Rattle.sweeps.specs.Views.{shown, too_short};

use crate::view::View;
use measures::Measure;

/// The list to write to has fewer entries than the feeder has sections.
#[derive(Clone, Copy, PartialEq, Eq, Debug)]
pub struct TooShort;

impl View<'_> {
    /// Writes the total of each node to the front of `out`; nothing is written where it has not room for all.
    pub fn totals_into<M: Measure>(&self, m: &M, out: &mut [M::Value]) -> Result<(), TooShort>
        ensures fits { result ≡ (if nat_le (size (shown self.now)) (length out.old) then Ok tt else Err too_short) }
        ensures totals { out.new ≡ (if nat_le (size (shown self.now)) (length out.old) then written (total (M.Measure.meaning m.now) (shown self.now)) (size (shown self.now)) out.old else out.old) }
    {
        let n = self.sections.len();
        if out.len() < n {
            return Err(TooShort);
        }
        let part = &mut out[..n];
        self.held_into(m, part);
        self.spread(m, self.far_total(m), part);
        Ok(())
    }

    // What every node bears: the far effects of all faults, joined.
    fn far_total<M: Measure>(&self, m: &M) -> M::Value
        ensures { result ≡ far_total (M.Measure.meaning m.now) (shown self.now) }
    {
        let mut sum = m.nothing();
        for (k, section) in self.sections.iter().enumerate() {
            let figures = &section.figures;
            let time = figures.repair.min(self.switching);
            // `as`: it is proved to fit, so there is no error to pass on.
            sum = m.join(sum, m.effect(k as u16, figures, self.switching, time));
        }
        sum
    }

    // Takes what is held at each section to the node's total, from section 0 on: each is its parent's, joined with what its own
    // switch holds back.
    fn spread<M: Measure>(&self, m: &M, far: M::Value, out: &mut [M::Value])
        requires long { length out.old ≡ size (shown self.now) }
        requires base { far ≡ far_total (M.Measure.meaning m.now) (shown self.now) }
        requires start { Holds (M.Measure.meaning m.now).nothing (held (M.Measure.meaning m.now) (shown self.now)) (size (shown self.now)) out.old }
        ensures { Holds (M.Measure.meaning m.now).nothing (total (M.Measure.meaning m.now) (shown self.now)) (size (shown self.now)) out.new }
    {
        for (j, section) in self.sections.iter().enumerate() {
            match section.figures.parent {
                None => out[j] = m.join(far, out[j]),
                Some(p) => {
                    let above = out[usize::from(p)];
                    if section.switch {
                        out[j] = m.join(above, out[j]);
                    } else {
                        out[j] = above;
                    }
                }
            }
        }
    }
}
