// One line: read, put to the study, and answered.
ghost use Rattle.std.specs.Prelude.{◌≡◌, length};
ghost use Rattle.engine.specs.Changes.{judged, direct, after};
ghost use Rattle.engine.specs.Laws.{Alike};
ghost use Rattle.engine.specs.Studies.{feeder_of, beyond};
ghost use Rattle.console.specs.Example.{FourSections};
ghost use Rattle.console.specs.Laws.{Lined, LineAnswer};
ghost use Rattle.console.specs.Replies.{answer_of, said, moved, done, spoken};

use engine::Study;
use lines::{Answer, Change, Line, Question, ROOM, Refusal, read_line, write_answer};
use measures::{Count, Longest, Minutes};

/// Answers one line, given without its line feed: the answer and a line feed go to the front of `out`, and the call tells how many bytes these are.
///
/// With an output list under 64 bytes the line is not put to the study at all.
pub fn answer_line(study: &mut Study, text: &[u8], out: &mut [u8]) -> Result<usize, Refusal>
    ensures lined { Lined text.now out.old (feeder_of study.old) result out.new (feeder_of study.new) }
    ensures alike { Alike (LineAnswer text.now out.old) (feeder_of study.old) (result, out.new) }
    ensures rest { beyond study.new ≡ beyond study.old }
    ensures example { FourSections }
{
    let line = read_line(text);
    if out.len() < ROOM {
        return Err(Refusal::Short);
    }
    let answer = put(study, line);
    write_answer(&answer, out)
}

// Puts what was read of a line to the study.
fn put(study: &mut Study, line: Option<Line>) -> Answer
    ensures answer { result ≡ said line (feeder_of study.old) }
    ensures feeder { feeder_of study.new ≡ moved line (feeder_of study.old) }
    ensures rest { beyond study.new ≡ beyond study.old }
{
    let answered = match line {
        Some(Line::Change(change)) => make(study, change),
        Some(Line::Question(question)) => ask(study, question),
        None => Err(Refusal::Line),
    };
    answered.unwrap_or_else(|refusal| Answer::Refused(refusal))
}

fn make(study: &mut Study, change: Change) -> Result<Answer, Refusal>
    ensures answer { spoken result ≡ done (judged (feeder_of study.old) (direct change)) }
    ensures feeder { feeder_of study.new ≡ after (feeder_of study.old) (direct change) }
    ensures rest { beyond study.new ≡ beyond study.old }
{
    study.make(change)?;
    Ok(Answer::Done)
}

fn ask(study: &Study, question: Question) -> Result<Answer, Refusal>
    ensures { spoken result ≡ answer_of question (feeder_of study.now) }
{
    Ok(match question {
        Question::Minutes(node) => Answer::Number(study.total(&Minutes, node)?.value),
        Question::Count(node) => Answer::Number(study.total(&Count, node)?.value),
        Question::Longest(node) => Answer::Longest(study.total(&Longest, node)?),
        Question::Trial(section) => {
            let (flow, load, product) = study.short_trial(&Minutes, section)?;
            Answer::Trial(flow, load, product)
        }
        Question::Indices => Answer::Indices(study.saifi()?, study.saidi()?, study.eens()?),
    })
}
