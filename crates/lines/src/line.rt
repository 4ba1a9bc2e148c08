use crate::change::Change;
use crate::question::Question;

/// One line of the console. Its numbers are not yet held against any study.
#[derive(Clone, Copy, Debug, PartialEq, Eq)]
pub enum Line {
    Change(Change),
    Question(Question),
}
