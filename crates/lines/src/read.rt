ghost use Rattle.std.specs.Prelude.{◌≡◌, ℕ, ◌^◌, ◌<◌, ◌≤◌, List, [], ◌∷◌, MatchOption, ◌≢◌};
ghost use Rattle.std.specs.Str.Parse.{digits_value};
ghost use Rattle.lines.specs.Lines.{letter_of, numbers, Lists, Reads, OneText};
ghost use Rattle.lines.specs.Numbers.{AllDigits, Front, Begins, Spaced};

use crate::change::Change;
use crate::line::Line;
use crate::question::Question;

// How many digits the text begins with.
fn digits(text: &[u8]) -> usize
    ensures { Front text.now result }
{
    text.iter()
        .position(|b| !b.is_ascii_digit())
        .unwrap_or(text.len())
}

// The number that digits write, unless it passes 32 bits.
fn value_of(digits: &[u8]) -> Option<u32>
    requires { AllDigits digits.now }
    ensures { MatchOption result (2 ^ 32 ≤ digits_value 10 digits.now) (λ n. n ≡ digits_value 10 digits.now) }
{
    let mut n: u32 = 0;
    for b in digits {
        n = n.checked_mul(10)?.checked_add(u32::from(*b - b'0'))?;
    }
    Some(n)
}

// The number that the text begins with, and the rest of the text.
fn number(text: &[u8]) -> Option<(u32, &[u8])>
    ensures { MatchOption result ((n : ℕ) (rest : List ℕ) → Begins text.now n rest → ⊥) (λ t. Begins text.now t.0 t.1.now) }
{
    let (front, rest) = text.split_at(digits(text));
    match front {
        // Only 0 itself begins with a zero, so that a number has one text.
        [] | [b'0', _, ..] => None,
        _ => Some((value_of(front)?, rest)),
    }
}

// The number that the text begins with after one space, and the rest of the text.
fn field(text: &[u8]) -> Option<(u32, &[u8])>
    ensures { MatchOption result ((n : ℕ) (rest : List ℕ) → Spaced text.now n rest → ⊥) (λ t. Spaced text.now t.0 t.1.now) }
{
    let [b' ', after @ ..] = text else {
        return None;
    };
    number(after)
}

// The N numbers that the text is, each after one space.
fn spaced<const N: usize>(text: &[u8]) -> Option<[u32; N]>
    ensures { MatchOption result ((ns : List ℕ) → Lists N text.now ns → ⊥) (λ a. Lists N text.now a) }
{
    let mut all = [0; N];
    let mut left = text;
    for n in all.iter_mut() {
        (*n, left) = field(left)?;
    }
    left.is_empty().then_some(all)
}

// The line of one number that a letter begins.
fn line_of(letter: u8, number: u32) -> Option<Line>
    ensures { MatchOption result ((l : Line) → numbers l ≡ number ∷ [] → letter_of l ≢ letter) (λ l. (numbers l ≡ number ∷ []) × (letter_of l ≡ letter)) }
{
    match letter {
        b'F' => Some(Line::Change(Change::Fit(number))),
        b'U' => Some(Line::Change(Change::Unfit(number))),
        b'D' => Some(Line::Question(Question::Minutes(number))),
        b'C' => Some(Line::Question(Question::Count(number))),
        b'L' => Some(Line::Question(Question::Longest(number))),
        b'G' => Some(Line::Question(Question::Trial(number))),
        _ => None,
    }
}

/// The line that the bytes are the text of; the line feed that ends it is not among them.
// A function and no `TryFrom`: its clauses stand at its head, where a conversion would have them in a relation beside the trait.
pub fn read_line(text: &[u8]) -> Option<Line>
    ensures reads { Reads text.now result }
    ensures one { OneText text.now result }
{
    let (&letter, rest) = text.split_first()?;
    match letter {
        b'X' => {
            let [] = spaced::<0>(rest)?;
            Some(Line::Question(Question::Indices))
        }
        b'S' => {
            let [section, rate, quarters, customers, load] = spaced::<5>(rest)?;
            Some(Line::Change(Change::Set {
                section,
                rate,
                quarters,
                customers,
                load,
            }))
        }
        _ => {
            let [number] = spaced::<1>(rest)?;
            line_of(letter, number)
        }
    }
}
