ghost use Rattle.std.specs.Prelude.{◌≡◌, MatchResult};
ghost use Rattle.archive.specs.Layout.{parent_of};
ghost use Rattle.archive.specs.Records.{MapRead, MapRefused, Laid, Faulty};
ghost use Rattle.archive.specs.Laws.{OneRecord};
ghost use Rattle.archive.specs.declared.record.RecordFault.TheVariants.{Bytes};

use crate::bytes::{BytesFault, bytes_at};
use crate::fields::Mapped;
use feeder::Name;

/// A section record as its bytes say it, with absent fields filled in.
#[derive(Clone, Copy, Debug)]
pub struct Record {
    /// The section that this one hangs on; section 0 has none.
    pub parent: Option<u16>,
    /// Thousandths of a fault a year.
    pub rate: u32,
    /// Repair time in hours.
    pub hours: f64,
    pub customers: u16,
    /// Load in kW.
    pub load: u16,
    pub switch: bool,
    pub name: Name,
    /// The place of the map byte.
    pub at: usize,
}

/// What is wrong with a section record, and the place of the byte.
#[derive(Clone, Copy, PartialEq, Eq, Debug)]
pub enum RecordFault {
    /// The archive ends inside the record.
    Bytes(BytesFault),
    /// A bit of the map byte stands that must not.
    Map { at: usize },
    /// The parent is not below the section's number.
    Parent { at: usize },
    /// The rate, the repair time, the customers or the load are out of range.
    Figure { at: usize },
    /// The name's length is out of range, or a byte of its text is not printable.
    Name { at: usize },
}

impl From<BytesFault> for RecordFault {
    ghost from_gives = { λ e r. r ≡ Bytes e };

    fn from(e: BytesFault) -> RecordFault {
        RecordFault::Bytes(e)
    }
}

const SWITCH: u8 = 32;

const FORBIDDEN: u8 = 0b1000_0000;

// Section 0 has no parent and no switch either.
const FORBIDDEN_AT_ROOT: u8 = 0b1010_0001;

// The map byte, with no bit that must not stand. It takes what the public `read_record` takes: before there is a map there is no
// `Mapped`, and a struct of these three would be made for two private functions.
fn read_map(bytes: &[u8], at: usize, number: u16) -> Result<u8, RecordFault>
    ensures { MatchResult result (λ m. MapRead bytes.now at number m) (λ f. MapRefused bytes.now at number f) }
{
    let [map] = *bytes_at::<1>(bytes, at)?;
    let wrong = if number == 0 {
        FORBIDDEN_AT_ROOT
    } else {
        FORBIDDEN
    };
    if map & wrong != 0 {
        return Err(RecordFault::Map { at });
    }
    Ok(map)
}

// Section 0 has no parent.
fn parent_of(number: u16, parent: u16) -> Option<u16>
    ensures { result ≡ parent_of number parent }
{
    if number == 0 { None } else { Some(parent) }
}

/// Reads the record of section `number` whose map byte is at place `at`, and
/// returns it with the place after it.
///
/// # Errors
///
/// The first fault of the record, each field checked as it is met.
pub fn read_record(bytes: &[u8], at: usize, number: u16) -> Result<(Record, usize), RecordFault>
    ensures outcome { MatchResult result (λ t. Laid bytes.now at number t.0 t.1) (λ f. Faulty bytes.now at number f) }
    ensures one { OneRecord bytes.now at number }
{
    let map = read_map(bytes, at, number)?;
    let mapped = Mapped { bytes, number, map };
    let (fields, next) = mapped.fields(at + 1)?;
    let (name, end) = mapped.name(next)?;
    let record = Record {
        parent: parent_of(number, fields.parent),
        rate: fields.rate,
        hours: fields.hours,
        customers: fields.customers,
        load: fields.load,
        switch: map & SWITCH != 0,
        name,
        at,
    };
    Ok((record, end))
}
