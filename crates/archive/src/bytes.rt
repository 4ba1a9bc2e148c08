ghost use Rattle.std.specs.Prelude.{MatchResult};
ghost use Rattle.archive.specs.Reading.{BytesRead, BytesCut, bytes_from};

/// The archive ends before the field at this place does.
#[derive(Clone, Copy, PartialEq, Eq, Debug)]
pub struct BytesFault {
    /// The first byte of the field that is cut short.
    pub at: usize,
}

// The N bytes from a place on, where they stand: by value, beside a fault, they are copied in pieces that overlap, and a load takes more
// than twice the time.
pub(crate) fn bytes_at<const N: usize>(bytes: &[u8], at: usize) -> Result<&[u8; N], BytesFault>
    ensures { MatchResult result (λ v. BytesRead bytes.now at N (bytes_from bytes.now at N) v.now) (λ e. BytesCut bytes.now at N e) }
{
    let (_, rest) = bytes.split_at_checked(at).ok_or(BytesFault { at })?;
    rest.first_chunk::<N>().ok_or(BytesFault { at })
}
