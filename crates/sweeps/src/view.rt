// A feeder lent for reading.
ghost use Rattle.std.specs.Prelude.{◌≤◌, length};
ghost use Rattle.feeder.specs.Checked.{AllFine};

use feeder::Section;

/// The sections and the switching time of a sound feeder: who holds one need not show that again.
#[derive(Clone, Copy)]
pub struct View<'a> {
    pub sections: &'a [Section],
    pub switching: u16,
    ghost some: { 1 ≤ length sections.now },
    ghost few: { length sections.now ≤ 1024 },
    ghost low: { 1 ≤ switching },
    ghost high: { switching ≤ 1440 },
    ghost fine: { AllFine sections.now },
}
