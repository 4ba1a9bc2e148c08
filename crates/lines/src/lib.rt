// What a console line asks, and how its answer is written.
#![tactic(auto)]

mod answer;
mod change;
mod line;
mod question;
mod read;
mod refusal;
mod write;

pub use answer::Answer;
pub use change::Change;
pub use line::Line;
pub use question::Question;
pub use read::read_line;
pub use refusal::Refusal;
pub use write::{ROOM, write_answer};
