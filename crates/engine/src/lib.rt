// A study over a caller's section list: loading, changes, questions and trials.
#![tactic(auto)]

mod journal;
mod study;

pub use journal::{Call, Put};
pub use study::Study;
