// Bytes as they come, handed out as lines.
#![tactic(auto)]

mod lines;
mod text;

pub use lines::Lines;
pub use text::{Text, TooLong};
