// What is kept between two blocks.
use stream::Lines;

mod talk;

/// A session of lines: what has come of the line being read.
#[derive(Clone, Copy)]
pub struct Session {
    lines: Lines,
}
