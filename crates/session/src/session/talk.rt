// The session's calls.
ghost use Rattle.std.specs.Prelude.{◌≡◌, ℕ, ◌+◌, ◌<◌, ◌≤◌, List, [], ◌++◌, length, take, drop, IfOk, MatchResult};
ghost use Rattle.std.specs.List.{between};
ghost use Rattle.feeder.specs.Feeder.{Feeder};
ghost use Rattle.lines.specs.declared.refusal.Refusal.TheVariants.{Short};
ghost use Rattle.engine.specs.Studies.{feeder_of, beyond};
ghost use Rattle.session.specs.Sites.{SitesAgree};
ghost use Rattle.session.specs.Talks.{Talked, Talks, Conversation, Went};

use super::Session;
use crate::reply::reply;
use engine::Study;
use lines::{ROOM, Refusal};
use stream::Lines;

impl Session {
    /// A session to which nothing has come yet.
    pub fn new() -> Session
        ensures { (f : Feeder) → Talked f [] [] result f }
    {
        Session {
            lines: Lines::new(),
        }
    }

    /// Takes in the bytes of `block` from place `from` on, and writes the answers to the lines that end there to the front of `out`, as far as there is room.
    ///
    /// Returns the place that it came to, and how many bytes it wrote. What the last bytes have of a line is kept for the next block.
    pub fn answer(
        &mut self,
        study: &mut Study,
        block: &[u8],
        from: usize,
        out: &mut [u8],
    ) -> (usize, usize)
        ensures talks { Talks self.old (feeder_of study.old) (between from result.0 block.now) (take result.1 out.new) self.new (feeder_of study.new) }
        ensures went { Went from (length block.now) (length out.old) result.0 result.1 }
        ensures kept { drop result.1 out.new ≡ drop result.1 out.old }
        ensures rest { beyond study.new ≡ beyond study.old }
    {
        let mut at = from;
        let mut used = 0;
        // A place that moves on by a line: how far, only the call tells, so no iterator counts it.
        while at < block.len() && out.len() - used >= ROOM {
            let (next, line) = self.lines.next(block, at);
            if let Some(input) = line {
                used += reply(study, &input, out, used);
            }
            at = next;
        }
        (at, used)
    }

    /// At the end of the input: answers the last line, where it is not empty, and tells how many bytes that took.
    pub fn finish(&self, study: &mut Study, out: &mut [u8]) -> Result<usize, Refusal>
        ensures ended { MatchResult result (λ n. (f : Feeder) (bs written : List ℕ) → Talked f bs written self.now (feeder_of study.old) → Conversation f bs (written ++ take n out.new) (feeder_of study.new)) (λ e. (e ≡ Short) × (length out.old < 64) × (feeder_of study.new ≡ feeder_of study.old)) }
        ensures sites { (archive : List ℕ) → SitesAgree archive }
        ensures fits { IfOk result (λ n. n ≤ length out.old) }
        ensures kept { MatchResult result (λ n. drop n out.new ≡ drop n out.old) (λ _. out.new ≡ out.old) }
        ensures rest { beyond study.new ≡ beyond study.old }
    {
        if out.len() < ROOM {
            return Err(Refusal::Short);
        }
        // A `match`: `map_or` would take the study and the list into a closure.
        match self.lines.finish() {
            Some(input) => Ok(reply(study, &input, out, 0)),
            None => Ok(0),
        }
    }
}
