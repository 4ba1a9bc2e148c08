// Recorded changes of two sites, compared section by section.
#![tactic(auto)]

mod equal;
mod walk;

pub use walk::same_changes;
