// The study's own data.
ghost use Rattle.std.specs.Prelude.{ℕ, ◌<◌, ◌≤◌, length, take};
ghost use Rattle.feeder.specs.Checked.{AllFine};

use feeder::Section;

mod changes;
mod indices;
mod open;
mod questions;
mod trials;

// The caller's section list. A struct of its own, with no invariant, so that it can be lent on for writing.
#[derive(Drop)]
struct Lent<'a> {
    list: &'a mut [Section],
}

/// One feeder under study, kept in a section list that the caller lends.
///
/// Before a load is accepted there are no sections, and every other call answers `NoSection`, if nothing that is judged before refuses it.
// No `Option` of what is loaded: a study without sections has a count of 0, and each call refuses by that alone.
// What a call leaves alone is said of each call, as `rest`: a model of the study would have to say the same there.
#[derive(Drop)]
pub struct Study<'a> {
    lent: Lent<'a>,
    count: usize,
    switching: u16,
    ghost within: { count ≤ length lent.list.now },
    ghost few: { count ≤ 1024 },
    ghost low: { (0 < count → 1 ≤ switching) },
    ghost high: { switching ≤ 1440 },
    ghost fine: { AllFine (take count lent.list.now) },
}
