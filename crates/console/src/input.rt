// What a stream hands out, answered.
ghost use Rattle.std.specs.Prelude.{◌≡◌, ℕ, ◌<◌, ◌≤◌, List, length, MatchResult};
ghost use Rattle.stream.specs.Streams.{Delivers};
ghost use Rattle.engine.specs.Laws.{Alike};
ghost use Rattle.engine.specs.Studies.{feeder_of, beyond};
ghost use Rattle.console.specs.Laws.{Lined, LineAnswer};

use crate::answer::answer_line;
use engine::Study;
use lines::{Answer, Refusal, write_answer};
use stream::{Text, TooLong};

/// Answers a line as a stream hands it out; one that was too long is refused whole, as the line that it was.
pub fn answer_input(
    study: &mut Study,
    input: &Result<Text, TooLong>,
    out: &mut [u8],
) -> Result<usize, Refusal>
    ensures lined { (line : List ℕ) → Delivers line input.now → Lined line out.old (feeder_of study.old) result out.new (feeder_of study.new) }
    ensures alike { (line : List ℕ) → Delivers line input.now → Alike (LineAnswer line out.old) (feeder_of study.old) (result, out.new) }
    ensures rest { beyond study.new ≡ beyond study.old }
    ensures fits { MatchResult result (λ n. n ≤ length out.old) (λ _. length out.old < 64) }
{
    match input {
        Ok(text) => answer_line(study, text.as_slice(), out),
        Err(TooLong) => write_answer(&Answer::Refused(Refusal::Line), out),
    }
}
