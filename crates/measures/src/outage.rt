// One outage of a node.

/// How long a node is out, and after a fault on which section.
#[derive(Clone, Copy, PartialEq, Eq, Debug)]
pub struct Outage {
    pub minutes: u16,
    pub section: u16,
}
