ghost use Rattle.std.specs.Prelude.{◌≤◌};

// The most bytes that a line may have.
pub(crate) const ROOM: usize = 64;

/// The bytes of a line, at most 64.
// A buffer with its length: a Vec would be on the heap, and an ArrayVec is not Copy, which this and a Lines are.
#[derive(Clone, Copy)]
pub struct Text {
    bytes: [u8; ROOM],
    count: usize,
    ghost fits: { count ≤ 64 },
}

/// The line had more than 64 bytes.
#[derive(Clone, Copy, PartialEq, Eq, Debug)]
pub struct TooLong;

impl Text {
    ghost use Rattle.std.specs.Prelude.{◌≡◌, ◌↔◌, [], take, IsTrue};
    ghost use Rattle.stream.specs.Streams.{held, Added};

    pub(crate) fn new() -> Text
        ensures { held result ≡ [] }
    {
        Text {
            bytes: [0; ROOM],
            count: 0,
        }
    }

    // The first `count` bytes of a room. It is copied whole, since a copy whose length only the run knows is a call.
    pub(crate) fn front(room: &[u8; ROOM], count: usize) -> Text
        requires { count ≤ 64 }
        ensures { held result ≡ take count room.now }
    {
        Text {
            bytes: *room,
            count,
        }
    }

    /// The bytes, without a line feed.
    pub fn as_slice(&self) -> &[u8]
        ensures { result.now ≡ held self.now }
    {
        &self.bytes[..self.count]
    }

    pub(crate) fn is_empty(&self) -> bool
        ensures { IsTrue result ↔ (held self.now ≡ []) }
    {
        self.count == 0
    }

    // The bytes stay where they are, out of use: nothing need be written over them.
    pub(crate) fn clear(&mut self)
        ensures { held self.new ≡ [] }
    {
        self.count = 0;
    }

    // Adds bytes at the end, where there is room for all of them.
    pub(crate) fn extend(&mut self, part: &[u8]) -> Result<(), TooLong>
        ensures { Added (held self.old) part.now result (held self.new) }
    {
        if part.len() > ROOM - self.count {
            return Err(TooLong);
        }
        let end = self.count + part.len();
        self.bytes[self.count..end].copy_from_slice(part);
        self.count = end;
        Ok(())
    }
}
