// One section of a feeder, as a study keeps it.

/// The most sections that a feeder has.
pub const MOST_SECTIONS: usize = 1024;

/// Where the text of a section's name lies in the archive; an empty name has place 0.
#[derive(Clone, Copy, PartialEq, Eq, Debug)]
pub struct Name {
    pub at: usize,
    pub len: u8,
}

impl Name {
    /// The empty name.
    // No `Option`: by the definition an empty name has a place, which is 0, and a length.
    pub const EMPTY: Name = Name { at: 0, len: 0 };
}

/// The record of a section without its switch mark.
#[derive(Clone, Copy, Drop, PartialEq, Eq, Debug)]
pub struct Figures {
    /// The section that this one hangs on; section 0 has none.
    // By its number: a feeder is a list that the caller lends, in fixed memory, with no box for each section.
    pub parent: Option<u16>,
    /// Thousandths of a fault a year.
    pub rate: u32,
    /// Repair time in minutes.
    pub repair: u16,
    pub customers: u16,
    /// Load in kW.
    pub load: u16,
    pub name: Name,
}

/// A section: its figures, and whether a switch stands at its upper end.
#[derive(Clone, Copy, Drop, PartialEq, Eq, Debug)]
pub struct Section {
    pub figures: Figures,
    pub switch: bool,
}

impl Section {
    /// An entry of a section list before a load has filled it.
    pub const BLANK: Section = Section {
        figures: Figures {
            parent: None,
            rate: 0,
            repair: 0,
            customers: 0,
            load: 0,
            name: Name::EMPTY,
        },
        switch: false,
    };
}
