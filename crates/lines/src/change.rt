/// A line that changes the study.
#[derive(Clone, Copy, Debug, PartialEq, Eq)]
pub enum Change {
    Fit(u32),
    Unfit(u32),
    Set {
        section: u32,
        rate: u32,
        quarters: u32,
        customers: u32,
        load: u32,
    },
}
