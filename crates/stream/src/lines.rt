ghost use Rattle.std.specs.Prelude.{◌≡◌, ℕ, ◌<◌, ◌≤◌, List, [], ◌∷◌, ◌++◌, length, take, slice_index, MatchOption, Result};
ghost use Rattle.std.specs.Option.{option_to_list};
ghost use Rattle.std.specs.List.{between};
ghost use Rattle.stream.specs.declared.text.Text.{Text};
ghost use Rattle.stream.specs.declared.text.TooLong.{TooLong};
ghost use Rattle.stream.specs.Streams.{Plain, Delivers, Holds, Fed, Feeds, Ended, OneParting, Goes};

use crate::text::{ROOM, Text, TooLong};

// What ends a line.
const FEED: u8 = b'\n';

// Where the first line feed stands.
fn first_feed(bytes: &[u8]) -> Option<usize>
    ensures { MatchOption result (Plain bytes.now) (λ i. (i < length bytes.now) × Plain (take i bytes.now) × (slice_index bytes.now i ≡ 10)) }
{
    bytes.iter().position(|b| *b == FEED)
}

/// The line that is being read: what has come of it, while that fits a text.
#[derive(Clone, Copy)]
pub struct Lines {
    line: Result<Text, TooLong>,
}

impl Lines {
    /// Before the first byte.
    pub fn new() -> Lines
        ensures { Fed [] [] result }
    {
        Lines {
            line: Ok(Text::new()),
        }
    }

    /// Feeds one byte, and hands out the line that it ends.
    pub fn push(&mut self, byte: u8) -> Option<Result<Text, TooLong>>
        ensures { Feeds self.old (byte ∷ []) result self.new }
    {
        if byte == FEED {
            Some(self.end_line())
        } else {
            self.take(&[byte]);
            None
        }
    }

    /// Feeds the bytes from a place on, up to the first line feed or to the last byte, and answers the place after what
    /// it fed and the line that was ended. From a place past the bytes it feeds nothing and answers that place.
    pub fn next(&mut self, bytes: &[u8], from: usize) -> (usize, Option<Result<Text, TooLong>>)
        ensures fed { Feeds self.old (between from result.0 bytes.now) result.1 self.new }
        ensures goes { Goes from (length bytes.now) result.0 result.1 }
    {
        let Some(rest) = bytes.get(from..) else {
            return (from, None);
        };
        match first_feed(rest) {
            Some(i) => (from + i + 1, Some(self.end_with(rest, i))),
            None => {
                self.take(rest);
                (bytes.len(), None)
            }
        }
    }

    /// At the end of the input: the last line, where it is not empty.
    pub fn finish(&self) -> Option<Result<Text, TooLong>>
        ensures ended { (bs : List ℕ) (ds : List (Result Text TooLong)) → Fed bs ds self.now → Ended bs (ds ++ option_to_list result) }
        ensures one { (bs : List ℕ) (ds : List (Result Text TooLong)) → Fed bs ds self.now → OneParting bs (ds ++ option_to_list result) }
    {
        match &self.line {
            Ok(text) if text.is_empty() => None,
            line => Some(*line),
        }
    }

    // Hands out the line that ends behind the first bytes of `rest`, and begins the next one.
    fn end_with(&mut self, rest: &[u8], len: usize) -> Result<Text, TooLong>
        requires { len ≤ length rest.now }
        ensures given { (part : List ℕ) → Holds self.old part → Delivers (part ++ take len rest.now) result }
        ensures empty { Holds self.new [] }
    {
        // A line that lies whole in what came is not kept first: a short one would take a quarter more time.
        if let Ok(text) = &self.line
            && text.is_empty()
            && len <= ROOM
            && let Some(room) = rest.first_chunk::<ROOM>()
        {
            return Ok(Text::front(room, len));
        }
        self.take(&rest[..len]);
        self.end_line()
    }

    // Hands out the line being read, and begins the next one.
    fn end_line(&mut self) -> Result<Text, TooLong>
        ensures given { (part : List ℕ) → Holds self.old part → Delivers part result }
        ensures empty { Holds self.new [] }
    {
        // In place and no `mem::replace`: a new text has 64 bytes to write, some 6 ns a line.
        let done = self.line;
        match &mut self.line {
            Ok(text) => text.clear(),
            Err(TooLong) => self.line = Ok(Text::new()),
        }
        done
    }

    // More bytes of the line being read.
    fn take(&mut self, more: &[u8])
        ensures { (part : List ℕ) → Holds self.old part → Holds self.new (part ++ more.now) }
    {
        if let Ok(text) = &mut self.line
            && let Err(full) = text.extend(more)
        {
            self.line = Err(full);
        }
    }
}
