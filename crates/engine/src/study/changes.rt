// The three changes, each by a call of its own, and any of them as a value.
ghost use Rattle.std.specs.Prelude.{◌≡◌, MatchResult, OnOk};
ghost use Rattle.lines.specs.declared.change.Change.TheVariants.{Fit, Unfit, Set};
ghost use Rattle.engine.specs.Changes.{direct, gave};
ghost use Rattle.engine.specs.Laws.{Switched, FitSwitches};
ghost use Rattle.engine.specs.Logs.{Step, Extends, changed};
ghost use Rattle.engine.specs.Studies.{feeder_of, beyond};

use super::Study;
use feeder::Figures;
use lines::{Change, Refusal};

impl Study<'_> {
    /// Fits a switch at the upper end of section `k`.
    pub fn fit(&mut self, k: u32) -> Result<(), Refusal>
        ensures step { Step (feeder_of self.old) (changed (direct (Fit k)) (gave result)) (feeder_of self.new) }
        ensures logged { Extends (feeder_of self.old) (changed (direct (Fit k)) (gave result)) (feeder_of self.new) }
        ensures switched { MatchResult result (λ _. Switched (feeder_of self.old) k (feeder_of self.new)) (λ _. feeder_of self.new ≡ feeder_of self.old) }
        ensures apart { OnOk result (FitSwitches (feeder_of self.old) k) }
        ensures rest { beyond self.new ≡ beyond self.old }
    {
        let at = self.bare(k)?;
        self.lent.list[at].switch = true;
        Ok(())
    }

    /// Takes the switch of section `k` away.
    pub fn unfit(&mut self, k: u32) -> Result<(), Refusal>
        ensures step { Step (feeder_of self.old) (changed (direct (Unfit k)) (gave result)) (feeder_of self.new) }
        ensures logged { Extends (feeder_of self.old) (changed (direct (Unfit k)) (gave result)) (feeder_of self.new) }
        ensures rest { beyond self.new ≡ beyond self.old }
    {
        let at = self.index_below_root(k)?;
        if !self.lent.list[at].switch {
            return Err(Refusal::Clear);
        }
        self.lent.list[at].switch = false;
        Ok(())
    }

    /// Sets rate, repair time (15 minutes for each quarter), customers and load of section `k`, and nothing else.
    // Five numbers: the call has those of its line and of its entry in a log, one for one. The limits are not those of `archive`,
    // which are as narrow as its fields, while any 32 bits may come here.
    pub fn set(
        &mut self,
        k: u32,
        rate: u32,
        quarters: u32,
        customers: u32,
        load: u32,
    ) -> Result<(), Refusal>
        ensures step { Step (feeder_of self.old) (changed (direct (Set k rate quarters customers load)) (gave result)) (feeder_of self.new) }
        ensures logged { Extends (feeder_of self.old) (changed (direct (Set k rate quarters customers load)) (gave result)) (feeder_of self.new) }
        ensures rest { beyond self.new ≡ beyond self.old }
    {
        if rate > 100000 || quarters < 1 || quarters > 672 || customers > 4000 || load > 4000 {
            return Err(Refusal::Range);
        }
        let at = self.index(k)?;
        let was = self.lent.list[at].figures;
        // `as`: it is proved to fit, so there is no error to pass on.
        self.lent.list[at].figures = Figures {
            rate,
            repair: 15 * quarters as u16,
            customers: customers as u16,
            load: load as u16,
            ..was
        };
        Ok(())
    }

    /// Makes a change by its own call.
    pub fn make(&mut self, change: Change) -> Result<(), Refusal>
        ensures step { Step (feeder_of self.old) (changed (direct change) (gave result)) (feeder_of self.new) }
        ensures logged { Extends (feeder_of self.old) (changed (direct change) (gave result)) (feeder_of self.new) }
        ensures rest { beyond self.new ≡ beyond self.old }
    {
        match change {
            Change::Fit(k) => self.fit(k),
            Change::Unfit(k) => self.unfit(k),
            Change::Set {
                section,
                rate,
                quarters,
                customers,
                load,
            } => self.set(section, rate, quarters, customers, load),
        }
    }
}
