// Opening a study, and loading an archive into it.
ghost use Rattle.std.specs.Prelude.{◌≡◌, [], length, MatchResult, OnOk};
ghost use Rattle.archive.specs.Laws.{OneOutcome};
ghost use Rattle.archive.specs.Outcome.{Loaded as Filled, Refused as Kept};
ghost use Rattle.engine.specs.Logs.{Log};
ghost use Rattle.engine.specs.Studies.{feeder_of, lent_to, unloaded, Loaded, Refused};

use super::{Lent, Study};
use archive::{LoadFault, load_sections};
use feeder::Section;

impl Lent<'_> {
    // Fills the front of the lent list from an archive. A function over `load_sections`: a list lent out of a `Study`, which has ghost
    // fields, is not covered by the borrow checker.
    fn fill(&mut self, archive: &[u8]) -> Result<(usize, u16), LoadFault>
        ensures outcome { MatchResult result (λ t. Filled archive.now self.old.list.now self.new.list.now t.0 t.1) (λ f. Kept archive.now self.old.list.now self.new.list.now f) }
        ensures one { OneOutcome archive.now (length self.old.list.now) }
    {
        load_sections(archive, self.list)
    }
}

impl<'a> Study<'a> {
    /// A study without sections, over a list that it will fill.
    pub fn open(list: &'a mut [Section]) -> Study<'a>
        ensures empty { feeder_of result ≡ unloaded }
        ensures lent { lent_to result ≡ list.old }
    {
        Study {
            lent: Lent { list },
            count: 0,
            switching: 0,
        }
    }

    /// Loads an archive. An accepted one replaces the feeder and starts a log; a fault leaves study and list as they were.
    pub fn load(&mut self, archive: &[u8]) -> Result<(), LoadFault>
        ensures outcome { MatchResult result (λ _. Loaded archive.now self.old self.new) (λ f. Refused archive.now self.old self.new f) }
        ensures one { OneOutcome archive.now (length (lent_to self.old)) }
        ensures starts { OnOk result (Log archive.now [] (feeder_of self.new)) }
    {
        let (count, switching) = self.lent.fill(archive)?;
        self.count = count;
        self.switching = switching;
        Ok(())
    }
}
