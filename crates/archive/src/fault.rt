ghost use Rattle.std.specs.Prelude.{◌≡◌};
ghost use Rattle.archive.specs.Faults.{told, in_record};
ghost use Rattle.archive.specs.declared.fault.LoadFault.TheVariants.{Header, Record};

use crate::bytes::BytesFault;
use crate::record::RecordFault;

/// The fault of the record of one section.
#[derive(Clone, Copy, PartialEq, Eq, Debug)]
pub struct SectionFault {
    pub section: u16,
    pub fault: RecordFault,
}

/// Why an archive is refused.
#[derive(Clone, Copy, PartialEq, Eq, Debug)]
pub enum LoadFault {
    /// The archive ends inside its header.
    Header(BytesFault),
    /// The number of sections or the switching time is out of range.
    Range { at: usize },
    /// The section list is shorter than the number of sections.
    NoRoom,
    /// A record has a fault.
    Record(SectionFault),
    /// Bytes come after the last record.
    Trailing { at: usize },
}

impl From<BytesFault> for LoadFault {
    ghost from_gives = { λ e r. r ≡ Header e };

    fn from(e: BytesFault) -> LoadFault {
        LoadFault::Header(e)
    }
}

impl From<SectionFault> for LoadFault {
    ghost from_gives = { λ e r. r ≡ Record e };

    fn from(e: SectionFault) -> LoadFault {
        LoadFault::Record(e)
    }
}

/// The layer of the format that a fault arises in.
#[derive(Clone, Copy, PartialEq, Eq, Debug)]
pub enum Layer {
    Bytes,
    Record,
    Feeder,
}

impl RecordFault {
    /// Returns the fault's number.
    pub fn number(&self) -> u8
        ensures { result ≡ (in_record self.now).number }
    {
        match self {
            RecordFault::Bytes(_) => 1,
            RecordFault::Map { .. } => 3,
            RecordFault::Parent { .. } => 4,
            RecordFault::Figure { .. } => 5,
            RecordFault::Name { .. } => 6,
        }
    }

    /// Returns the layer that the fault arises in.
    pub fn layer(&self) -> Layer
        ensures { result ≡ (in_record self.now).layer }
    {
        match self {
            RecordFault::Bytes(_) => Layer::Bytes,
            _ => Layer::Record,
        }
    }

    /// Returns the place of the byte that the fault is about.
    pub fn place(&self) -> usize
        ensures { result ≡ (in_record self.now).place }
    {
        match self {
            RecordFault::Bytes(e) => e.at,
            RecordFault::Map { at } => *at,
            RecordFault::Parent { at } => *at,
            RecordFault::Figure { at } => *at,
            RecordFault::Name { at } => *at,
        }
    }
}

impl LoadFault {
    /// Returns the fault's number.
    pub fn number(&self) -> u8
        ensures { result ≡ (told self.now).number }
    {
        match self {
            LoadFault::Header(_) => 1,
            LoadFault::Range { .. } => 2,
            LoadFault::NoRoom => 24,
            LoadFault::Record(e) => e.fault.number(),
            LoadFault::Trailing { .. } => 7,
        }
    }

    /// Returns the layer that the fault arises in.
    pub fn layer(&self) -> Layer
        ensures { result ≡ (told self.now).layer }
    {
        match self {
            LoadFault::Header(_) => Layer::Bytes,
            LoadFault::Record(e) => e.fault.layer(),
            _ => Layer::Feeder,
        }
    }

    /// Returns the section whose record has the fault, if it is in a record.
    pub fn section(&self) -> Option<u16>
        ensures { result ≡ (told self.now).section }
    {
        match self {
            LoadFault::Record(e) => Some(e.section),
            _ => None,
        }
    }

    /// Returns the place of the byte that the fault is about.
    pub fn place(&self) -> usize
        ensures { result ≡ (told self.now).place }
    {
        match self {
            LoadFault::Header(e) => e.at,
            LoadFault::Range { at } => *at,
            LoadFault::NoRoom => 0,
            LoadFault::Record(e) => e.fault.place(),
            LoadFault::Trailing { at } => *at,
        }
    }
}
