// The program: moves bytes between the archive's file, the standard streams and a session.
#![tactic(auto)]

ghost use Rattle.std.specs.Prelude.{◌≤◌, length, IfOk};

use archive::LoadFault;
use console::fault_line;
use engine::Study;
use feeder::{MOST_SECTIONS, Section};
use lines::{ROOM, Refusal};
use session::Session;
use std::io::{ErrorKind, Read, Write};
use std::{fs, io};

const ARCHIVE: &str = "feeder.arc";

// An accepted archive has at most 4 + 1,024 * 52 bytes, and the first byte past them is a fault: more need not be read.
const LONGEST: u64 = 53_253;

// What is read, and what is written, at a time.
const BLOCK: usize = 16_384;

fn main(rt: HostRuntime) -> io::Result<()> {
    let archive = read_archive(&rt)?;
    // An array, in fixed memory: a study fills the list that it is lent and asks for no more.
    let mut list = [Section::BLANK; MOST_SECTIONS];
    let mut study = Study::open(&mut list);
    match study.load(&archive) {
        Ok(()) => answer_all(&rt, &mut study),
        Err(fault) => tell(&rt, &fault),
    }
}

// A missing file counts as an empty one.
fn read_archive(rt: &HostRuntime) -> io::Result<Vec<u8>> {
    let mut bytes = Vec::new(rt.alloc());
    match fs::open(rt, ARCHIVE) {
        Ok(file) => {
            file.take(LONGEST).read_to_end(&mut bytes)?;
        }
        Err(e) if e.kind() == ErrorKind::NotFound => {}
        Err(e) => return Err(e),
    }
    Ok(bytes)
}

fn tell(rt: &HostRuntime, fault: &LoadFault) -> io::Result<()> {
    // An array with a count: memory does not grow with what is read.
    let mut out = [0u8; ROOM];
    let told = fault_line(fault, &mut out);
    write_front(rt, &out, told)
}

// Answers the lines of standard input. What one read brings is answered and written out before the next.
fn answer_all(rt: &HostRuntime, study: &mut Study) -> io::Result<()> {
    let mut session = Session::new();
    for _ in 0..u64::MAX {
        // An array with a count: memory does not grow with what is read.
        let mut block = [0u8; BLOCK];
        let n = rt.stdin().read(&mut block)?;
        if n == 0 {
            break;
        }
        answer_block(rt, study, &mut session, block.split_at(n).0)?;
    }
    // An array with a count: memory does not grow with what is read.
    let mut out = [0u8; ROOM];
    let answered = session.finish(study, &mut out);
    write_front(rt, &out, answered)
}

// Writes out what a call has put to the front of its list.
fn write_front(rt: &HostRuntime, out: &[u8], put: Result<usize, Refusal>) -> io::Result<()>
    requires { IfOk put (λ n. n ≤ length out.now) }
{
    match put {
        Ok(n) => rt.stdout().write_all(&out[..n]),
        Err(_) => Ok(()),
    }
}

// Answers the lines that end in the block; what is left over waits for the next.
fn answer_block(
    rt: &HostRuntime,
    study: &mut Study,
    session: &mut Session,
    block: &[u8],
) -> io::Result<()> {
    // No iterator: how far a call came, only the call tells.
    let mut from = 0;
    while from < block.len() {
        // An array with a count: memory does not grow with what is read.
        let mut out = [0u8; BLOCK];
        let (next, n) = session.answer(study, block, from, &mut out);
        rt.stdout().write_all(out.split_at(n).0)?;
        from = next;
    }
    Ok(())
}
