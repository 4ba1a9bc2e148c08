// One line, answered behind the bytes already written.
ghost use Rattle.std.specs.Prelude.{◌≡◌, ℕ, ◌+◌, ◌≤◌, length};
ghost use Rattle.engine.specs.Studies.{feeder_of, beyond};
ghost use Rattle.session.specs.Talks.{Heard, Replied};

use console::answer_input;
use engine::Study;
use lines::ROOM;
use stream::{Text, TooLong};

// Each line is given an output list of just the room that every answer fits, wherever in the output its answer comes to stand, so
// that the same line is the same entry of a log.
fn reply_in_front(study: &mut Study, input: &Result<Text, TooLong>, out: &mut [u8]) -> usize
    requires { 64 ≤ length out.old }
    ensures heard { Heard input.now out.old (feeder_of study.old) result out.new (feeder_of study.new) }
    ensures rest { beyond study.new ≡ beyond study.old }
{
    let part = &mut out[..ROOM];
    answer_input(study, input, part).unwrap_or(0)
}

// Answers one line behind the first `used` bytes of `out`, which stay. Study, line and list come as `answer_input` takes them: for
// one line's call and the two steps under it, a struct would be made only to be taken apart.
pub(crate) fn reply(
    study: &mut Study,
    input: &Result<Text, TooLong>,
    out: &mut [u8],
    used: usize,
) -> usize
    requires { used + 64 ≤ length out.old }
    ensures replied { Replied input.now out.old used (feeder_of study.old) result out.new (feeder_of study.new) }
    ensures rest { beyond study.new ≡ beyond study.old }
{
    let part = &mut out[used..];
    reply_in_front(study, input, part)
}
