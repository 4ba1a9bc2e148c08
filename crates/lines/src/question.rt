/// A line that asks for a figure and changes nothing.
#[derive(Clone, Copy, Debug, PartialEq, Eq)]
pub enum Question {
    Minutes(u32),
    Count(u32),
    Longest(u32),
    Trial(u32),
    Indices,
}
