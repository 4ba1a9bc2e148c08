// The line of a load fault.
ghost use Rattle.lines.specs.Answers.{Answered};
ghost use Rattle.console.specs.Replies.{fault_answer};

use archive::LoadFault;
use lines::{Answer, Refusal, write_answer};

/// Writes `E`, the number and the place of a load fault to the front of `out`, and answers how many bytes these are.
pub fn fault_line(fault: &LoadFault, out: &mut [u8]) -> Result<usize, Refusal>
    ensures { Answered (fault_answer fault.now) out.old result out.new }
{
    let answer = Answer::Fault {
        number: fault.number(),
        place: fault.place(),
    };
    write_answer(&answer, out)
}
