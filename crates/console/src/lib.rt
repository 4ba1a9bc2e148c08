// The console: a line is turned into the answer's bytes, and a load fault into its line.
#![tactic(auto)]

mod answer;
mod fault;
mod input;

pub use answer::answer_line;
pub use fault::fault_line;
pub use input::answer_input;
