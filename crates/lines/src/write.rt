ghost use Rattle.std.specs.Prelude.{◌+◌, ◌<◌, ◌≤◌, [], ◌∷◌, ◌++◌, length, decimal};
ghost use Rattle.lines.specs.Lines.{fields};
ghost use Rattle.lines.specs.Answers.{body, Wrote, Answered};

use crate::answer::Answer;
use crate::refusal::Refusal;

/// The room that every answer line fits: three numbers of at most 20 digits with two spaces between them take 62 bytes, and the
/// line feed one. A shorter output list is refused, whatever the answer.
pub const ROOM: usize = 64;

// An output list, and the place where its next byte goes.
#[derive(Drop)]
struct Pen<'a> {
    out: &'a mut [u8],
    at: usize,
}

impl Pen<'_> {
    fn byte(&mut self, byte: u8)
        requires { self.old.at < length self.old.out.now }
        ensures { Wrote self.old (byte ∷ []) self.new }
    {
        self.out[self.at] = byte;
        self.at += 1;
    }

    fn text(&mut self, text: &[u8])
        requires { self.old.at + length text.now ≤ length self.old.out.now }
        ensures { Wrote self.old text.now self.new }
    {
        let end = self.at + text.len();
        self.out[self.at..end].copy_from_slice(text);
        self.at = end;
    }

    fn number(&mut self, n: u64)
        requires { self.old.at + length (decimal n) ≤ length self.old.out.now }
        ensures { Wrote self.old (decimal n) self.new }
    {
        // One digit or two, as a refused line has them, by hand: with a buffer an answer of two takes 6.2 ns, and 3.9 without. Each `as` is
        // proved to fit.
        if n < 10 {
            self.byte(b'0' + n as u8);
        } else if n < 100 {
            self.byte(b'0' + (n / 10) as u8);
            self.byte(b'0' + (n % 10) as u8);
        } else {
            self.text(itoa::Buffer::new().format(n).as_bytes());
        }
    }

    // Each number after one space.
    fn fields(&mut self, numbers: &[u64])
        requires { self.old.at + length (fields numbers.now) ≤ length self.old.out.now }
        ensures { Wrote self.old (fields numbers.now) self.new }
    {
        for n in numbers {
            self.byte(b' ');
            self.number(*n);
        }
    }

    // A number and at most two more, with one space between them. It asks for room by itself, as the two below do: who has just made a
    // pen shows that once, and a pen with room for an answer would be another type.
    fn numbers(&mut self, first: u64, others: &[u64])
        requires room { self.old.at + 62 ≤ length self.old.out.now }
        requires few { length others.now ≤ 2 }
        ensures short { self.new.at ≤ self.old.at + 62 }
        ensures wrote { Wrote self.old (decimal first ++ fields others.now) self.new }
    {
        self.number(first);
        self.fields(others);
    }

    // The letter E, and at most two numbers.
    fn error(&mut self, numbers: &[u64])
        requires room { self.old.at + 62 ≤ length self.old.out.now }
        requires few { length numbers.now ≤ 2 }
        ensures short { self.new.at ≤ self.old.at + 62 }
        ensures wrote { Wrote self.old (69 ∷ fields numbers.now) self.new }
    {
        self.byte(b'E');
        self.fields(numbers);
    }

    // The answer without its line feed.
    fn body(&mut self, answer: &Answer)
        requires { self.old.at + 62 ≤ length self.old.out.now }
        ensures short { self.new.at ≤ self.old.at + 62 }
        ensures wrote { Wrote self.old (body answer.now) self.new }
    {
        match *answer {
            Answer::Done => self.text(b"ok"),
            Answer::Number(n) => self.number(n),
            Answer::Longest(None) => self.text(b"none"),
            Answer::Longest(Some(outage)) => self.numbers(
                u64::from(outage.minutes),
                &[u64::from(outage.section)],
            ),
            Answer::Trial(flow, load, product) => self.numbers(flow, &[load, product]),
            Answer::Indices(saifi, saidi, eens) => self.numbers(saifi, &[saidi, eens]),
            Answer::Refused(refusal) => self.error(&[u64::from(refusal.number())]),
            // `as`: std has no `u64::from(usize)`.
            Answer::Fault { number, place } => self.error(&[u64::from(number), place as u64]),
        }
    }
}

/// Writes the answer and a line feed to the front of the output list, and answers how many bytes these are.
// Answer is no Display: the clause of that trait does not rule out an Err, and only a short list is refused here.
pub fn write_answer(answer: &Answer, out: &mut [u8]) -> Result<usize, Refusal>
    ensures { Answered answer.now out.old result out.new }
{
    if out.len() < ROOM {
        return Err(Refusal::Short);
    }
    let mut pen = Pen { out, at: 0 };
    pen.body(answer);
    pen.byte(b'\n');
    Ok(pen.at)
}
