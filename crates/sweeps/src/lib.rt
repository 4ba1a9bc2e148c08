// The sweeps over a feeder's sections, for every measure: all totals cost one pass down and one pass up.
#![tactic(auto)]

mod by;
mod down;
mod tree;
mod trial;
mod up;
mod view;
mod weights;

pub use by::By;
pub use up::TooShort;
pub use view::View;
