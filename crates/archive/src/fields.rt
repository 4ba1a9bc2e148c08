ghost use Rattle.std.specs.Prelude.{◌≡◌, ℕ, ◌≤◌, [], ◌∷◌, MatchResult, from_bits};
ghost use Rattle.std.specs.Float.{binary64};
ghost use Rattle.archive.specs.Layout.{stands, parent, rate, hours, fields};
ghost use Rattle.archive.specs.Reading.{be2, FieldRead, FieldRefused, ReadAt, RefusedAt, ReadAll, FirstFault};
ghost use Rattle.archive.specs.declared.record.RecordFault.TheVariants.{Figure};

use crate::bytes::bytes_at;
use crate::record::RecordFault;
use hours::minutes;
use std::num::f64_from_bits_with_nan;

const PARENT: u8 = 1;

const RATE: u8 = 2;

const HOURS: u8 = 4;

const CUSTOMERS: u8 = 8;

const LOAD: u8 = 16;

const MOST_RATE: u32 = 100_000;

const MOST_CUSTOMERS: u16 = 4000;

const MOST_LOAD: u16 = 4000;

/// The number fields of a record. In section 0, which has no parent, `parent`
/// means nothing.
// A number even there, as the table of fields has it: `parent_of` makes the `Option`.
#[derive(Clone, Copy, Debug)]
pub(crate) struct Fields {
    pub(crate) parent: u16,
    pub(crate) rate: u32,
    pub(crate) hours: f64,
    pub(crate) customers: u16,
    pub(crate) load: u16,
}

/// A record whose fields are to be read: the archive, the section's number and
/// the record's map byte.
#[derive(Clone, Copy)]
pub(crate) struct Mapped<'a> {
    pub(crate) bytes: &'a [u8],
    pub(crate) number: u16,
    pub(crate) map: u8,
}

impl Mapped<'_> {
    pub(crate) fn has(&self, bit: u8) -> bool
        ensures { result ≡ stands self.now.map bit }
    {
        self.map & bit != 0
    }

    // One function for each kind of field: one for all would take a width, a range, an absence and a fault, which is what each says.
    fn parent(&self, at: usize) -> Result<(u16, usize), RecordFault>
        ensures { MatchResult result (λ t. ReadAt self.now.bytes.now self.now.number self.now.map parent at t.0 t.1) (λ f. RefusedAt self.now.bytes.now self.now.number self.now.map parent at f) }
    {
        if !self.has(PARENT) {
            return Ok((self.number.saturating_sub(1), at));
        }
        let value = u16::from_be_bytes(*bytes_at(self.bytes, at)?);
        if value >= self.number {
            return Err(RecordFault::Parent { at });
        }
        Ok((value, at + 2))
    }

    fn rate(&self, at: usize) -> Result<(u32, usize), RecordFault>
        ensures { MatchResult result (λ t. ReadAt self.now.bytes.now self.now.number self.now.map rate at t.0 t.1) (λ f. RefusedAt self.now.bytes.now self.now.number self.now.map rate at f) }
    {
        if !self.has(RATE) {
            return Ok((0, at));
        }
        let value = u32::from_be_bytes(*bytes_at(self.bytes, at)?);
        if value > MOST_RATE {
            return Err(RecordFault::Figure { at });
        }
        Ok((value, at + 4))
    }

    // The hours stay as they are read, so that a record says what its bytes say.
    fn hours(&self, at: usize) -> Result<(f64, usize), RecordFault>
        ensures { MatchResult result (λ t. (v : ℕ) × ReadAt self.now.bytes.now self.now.number self.now.map hours at v t.1 × (t.0 ≡ from_bits binary64 v)) (λ f. RefusedAt self.now.bytes.now self.now.number self.now.map hours at f) }
    {
        if !self.has(HOURS) {
            return Ok((2.0, at));
        }
        let value = f64_from_bits_with_nan(u64::from_be_bytes(*bytes_at(self.bytes, at)?));
        if minutes(value).is_none() {
            return Err(RecordFault::Figure { at });
        }
        Ok((value, at + 8))
    }

    // A figure of two bytes up to `limit`, or 0 where it does not stand; and the place after it.
    fn figure(&self, bit: u8, at: usize, limit: u16) -> Result<(u16, usize), RecordFault>
        ensures { MatchResult result (λ t. FieldRead self.now.bytes.now (stands self.now.map bit) at 2 (be2 self.now.bytes.now at) (be2 self.now.bytes.now at ≤ limit) 0 t.0 t.1)
            (λ f. FieldRefused self.now.bytes.now (stands self.now.map bit) at 2 (be2 self.now.bytes.now at ≤ limit) (Figure at) f) }
    {
        if !self.has(bit) {
            return Ok((0, at));
        }
        let value = u16::from_be_bytes(*bytes_at(self.bytes, at)?);
        if value > limit {
            return Err(RecordFault::Figure { at });
        }
        Ok((value, at + 2))
    }

    /// Reads the number fields whose bits stand in the map, from place `at` on,
    /// and returns them with the place after them.
    pub(crate) fn fields(&self, at: usize) -> Result<(Fields, usize), RecordFault>
        ensures { MatchResult result (λ t. (h : ℕ) × (t.0.hours ≡ from_bits binary64 h) × ReadAll self.now.bytes.now self.now.number self.now.map fields at (t.0.parent ∷ t.0.rate ∷ h ∷ t.0.customers ∷ t.0.load ∷ []) t.1)
            (λ f. FirstFault self.now.bytes.now self.now.number self.now.map fields at f) }
    {
        let (parent, at) = self.parent(at)?;
        let (rate, at) = self.rate(at)?;
        let (hours, at) = self.hours(at)?;
        let (customers, at) = self.figure(CUSTOMERS, at, MOST_CUSTOMERS)?;
        let (load, at) = self.figure(LOAD, at, MOST_LOAD)?;
        let fields = Fields {
            parent,
            rate,
            hours,
            customers,
            load,
        };
        Ok((fields, at))
    }
}
