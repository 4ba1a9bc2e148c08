ghost use Rattle.std.specs.Prelude.{◌≡◌, ◌≤◌, ℕ, ◌<◌, length, MatchOption, MatchResult, slice_index};
ghost use Rattle.archive.specs.Layout.{named, Printable};
ghost use Rattle.archive.specs.Records.{Text, NameRead, NameRefused};

use crate::bytes::{BytesFault, bytes_at};
use crate::fields::Mapped;
use crate::record::RecordFault;
use feeder::Name;

const NAME: u8 = 64;

const LONGEST: u8 = 32;

// The index of the first byte that is not printable.
fn first_bad(text: &[u8]) -> Option<usize>
    ensures { MatchOption result (Text text.now 0 (length text.now)) (λ i. (i < length text.now) × Text text.now 0 i × (Printable (slice_index text.now i) → ⊥)) }
{
    text.iter().position(|b| *b < b' ' || *b > b'~')
}

impl Mapped<'_> {
    /// Reads the name whose length byte is at place `at`, if its bit stands in
    /// the map, and returns it with the place after it.
    pub(crate) fn name(&self, at: usize) -> Result<(Name, usize), RecordFault>
        ensures { MatchResult result (λ t. NameRead self.now.bytes.now (named self.now.map) at t.0.at t.0.len t.1) (λ f. NameRefused self.now.bytes.now (named self.now.map) at f) }
    {
        if !self.has(NAME) {
            return Ok((Name::EMPTY, at));
        }
        let [len] = *bytes_at::<1>(self.bytes, at)?;
        if len < 1 || len > LONGEST {
            return Err(RecordFault::Name { at });
        }
        let start = at + 1;
        let size = usize::from(len);
        if self.bytes.len() - start < size {
            return Err(RecordFault::Bytes(BytesFault { at }));
        }
        let end = start + size;
        match first_bad(&self.bytes[start..end]) {
            Some(i) => Err(RecordFault::Name { at: start + i }),
            None => Ok((Name { at: start, len }, end)),
        }
    }
}
