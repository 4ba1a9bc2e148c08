ghost use Rattle.std.specs.Prelude.{◌≡◌, ℕ, ◌≤◌, ◌++◌, length, drop, MatchResult};
ghost use Rattle.hours.specs.Quarters.{Quarters};
ghost use Rattle.archive.specs.Sections.{SectionOf};
ghost use Rattle.archive.specs.Reading.{be2};
ghost use Rattle.archive.specs.Records.{Laid, Faulty};
ghost use Rattle.archive.specs.Archives.{Records, All, First, checks, RecordFails};
ghost use Rattle.archive.specs.Outcome.{Loaded, Refused};
ghost use Rattle.archive.specs.Laws.{OneOutcome};

use crate::bytes::bytes_at;
use crate::fault::{LoadFault, SectionFault};
use crate::record::{Record, read_record};
use feeder::{Figures, MOST_SECTIONS, Section};
use hours::minutes;

const MOST_SWITCHING: u16 = 1440;

// The number of sections and the switching time.
fn read_header(bytes: &[u8], room: usize) -> Result<(usize, u16), LoadFault>
    ensures { MatchResult result (λ t. (t.0 ≡ be2 bytes.now 0) × (t.1 ≡ be2 bytes.now 2) × All (checks bytes.now room)) (λ f. First (checks bytes.now room) f) }
{
    let count = usize::from(u16::from_be_bytes(*bytes_at(bytes, 0)?));
    if count < 1 || count > MOST_SECTIONS {
        return Err(LoadFault::Range { at: 0 });
    }
    let switching = u16::from_be_bytes(*bytes_at(bytes, 2)?);
    if switching < 1 || switching > MOST_SWITCHING {
        return Err(LoadFault::Range { at: 2 });
    }
    if room < count {
        return Err(LoadFault::NoRoom);
    }
    Ok((count, switching))
}

// No `From`: only a record with a count of quarter hours makes a section, and a conversion has no place for that condition.
fn section_of(read: &Record) -> Section
    requires { (q : ℕ) × Quarters read.now.hours q }
    ensures { SectionOf read.now result }
{
    let repair = minutes(read.hours).unwrap();
    Section {
        figures: Figures {
            parent: read.parent,
            rate: read.rate,
            repair,
            customers: read.customers,
            load: read.load,
            name: read.name,
        },
        switch: read.switch,
    }
}

// The section whose record is at place `at`, and the place after it.
fn read_section(bytes: &[u8], at: usize, number: u16) -> Result<(Section, usize), SectionFault>
    ensures { MatchResult result (λ t. (d : Record) × Laid bytes.now at number d t.1 × SectionOf d t.0) (λ e. (e.section ≡ number) × Faulty bytes.now at number e.fault) }
{
    // A `match`: `?` alone has no place for the section's number, and with `map_err` the proof did not close.
    match read_record(bytes, at, number) {
        Ok((record, end)) => Ok((section_of(&record), end)),
        Err(fault) => Err(SectionFault {
            section: number,
            fault,
        }),
    }
}

// Reads the records after the header, one for each entry of the list.
fn read_sections(bytes: &[u8], list: &mut [Section]) -> Result<usize, SectionFault>
    requires { length list.old ≤ 1024 }
    ensures { MatchResult result (λ q. Records bytes.now 0 4 list.new q) (λ e. RecordFails bytes.now (length list.old) e) }
{
    let mut at = 4;
    for (i, slot) in list.iter_mut().enumerate() {
        // `as`: it is proved to fit, so there is no error to pass on.
        (*slot, at) = read_section(bytes, at, i as u16)?;
    }
    Ok(at)
}

// Copies `source` to the front of the list.
fn copy(list: &mut [Section], source: &[Section])
    requires { length source.now ≤ length list.old }
    ensures { list.new ≡ source.now ++ drop (length source.now) list.old }
{
    let n = source.len();
    let part = &mut list[0..n];
    part.copy_from_slice(source);
}

/// Reads an archive into the front of `list`, and returns the number of
/// sections and the switching time in minutes.
///
/// Entries past the sections keep what they held.
///
/// # Errors
///
/// The first fault: of the header, of a list too short for it, of the records
/// in their order, and last of bytes left over. The list is then as it was,
/// since nothing is written before the last check has passed.
pub fn load_sections(bytes: &[u8], list: &mut [Section]) -> Result<(usize, u16), LoadFault>
    ensures outcome { MatchResult result (λ t. Loaded bytes.now list.old list.new t.0 t.1) (λ f. Refused bytes.now list.old list.new f) }
    ensures one { OneOutcome bytes.now (length list.old) }
{
    let (count, switching) = read_header(bytes, list.len())?;
    // A table for the most sections: a load allocates nothing.
    let mut all = [Section::BLANK; MOST_SECTIONS];
    let sections = &mut all[0..count];
    let end = read_sections(bytes, sections)?;
    if end < bytes.len() {
        return Err(LoadFault::Trailing { at: end });
    }
    copy(list, sections);
    Ok((count, switching))
}
