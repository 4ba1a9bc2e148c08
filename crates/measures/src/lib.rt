// What a study measures: the interface of a measure, and Minutes, Count and Longest behind it.
#![tactic(auto)]

mod additive;
mod capped;
mod count;
mod longest;
mod measure;
mod minutes;
mod outage;
mod sums;
mod weighed;

pub use additive::Additive;
pub use capped::Capped;
pub use count::Count;
pub use longest::Longest;
pub use measure::Measure;
pub use minutes::Minutes;
pub use outage::Outage;
pub use weighed::Weighed;
