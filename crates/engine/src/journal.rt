// What a journal of changes records.
use lines::Change;

/// The public call that a change came through; the console with its output list's length.
// No `Option<usize>`: a direct call is a call and not the lack of one.
#[derive(Clone, Copy, PartialEq, Eq, Debug)]
pub enum Call {
    Direct,
    Console(usize),
}

/// A change and the call by which it was put. Two changes are the same if both parts are.
#[derive(Clone, Copy, PartialEq, Eq, Debug)]
pub struct Put {
    pub call: Call,
    pub change: Change,
}
