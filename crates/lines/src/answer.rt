use crate::refusal::Refusal;
use measures::Outage;

/// What a line is answered. A fault is what a load found wrong, and where.
#[derive(Clone, Copy, PartialEq, Eq, Debug)]
pub enum Answer {
    Done,
    Number(u64),
    Longest(Option<Outage>),
    Trial(u64, u64, u64),
    Indices(u64, u64, u64),
    Refused(Refusal),
    // By its number, since this crate knows no archive: a narrower type would ask more of callers.
    Fault { number: u8, place: usize },
}
