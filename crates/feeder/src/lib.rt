// The sections of a radial feeder. The definitions of totals, flows and trials are in specs/, and what ties them in proofs/.
#![tactic(auto)]

mod section;

pub use section::{Figures, MOST_SECTIONS, Name, Section};
