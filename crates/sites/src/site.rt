// One site: its lines, put to its study and recorded.
use archive::LoadFault;
use console::answer_line;
use engine::{Call, Put, Study};
use feeder::Section;
use lines::{Line, ROOM, read_line};
use std::fs;
use std::io::Write;

/// A study, and the changes that were put to it.
#[derive(Drop)]
pub(crate) struct Site<'a> {
    name: &'a str,
    study: Study<'a>,
    journal: Vec<Put>,
}

impl<'a> Site<'a> {
    pub(crate) fn open(
        rt: &HostRuntime,
        name: &'a str,
        list: &'a mut [Section],
        archive: &[u8],
    ) -> Result<Site<'a>, LoadFault> {
        let mut study = Study::open(list);
        study.load(archive)?;
        let journal = Vec::new(rt.alloc());
        Ok(Site {
            name,
            study,
            journal,
        })
    }

    pub(crate) fn journal(&self) -> &[Put] {
        self.journal.as_slice()
    }

    /// Puts the lines of the file NAME.txt. A line after "! " is put by its library call, any other by the console.
    pub(crate) fn play(&mut self, rt: &HostRuntime) -> anyhow::Result<()> {
        let path = format!(in rt.alloc(); "{}.txt", self.name)?;
        let text = fs::read_to_string(rt, path.as_str())?;
        for line in text.lines() {
            print!(rt; "{}: {line} -> ", self.name)?;
            match line.as_bytes() {
                [b'!', _, direct @ ..] => self.direct(rt, direct)?,
                bytes => self.console(rt, bytes)?,
            }
        }
        Ok(())
    }

    fn direct(&mut self, rt: &HostRuntime, text: &[u8]) -> anyhow::Result<()> {
        let Some(Line::Change(change)) = read_line(text) else {
            println!(rt; "no change")?;
            return Ok(());
        };
        self.journal.push(Put {
            call: Call::Direct,
            change,
        })?;
        match self.study.make(change) {
            Ok(()) => println!(rt; "ok")?,
            Err(refusal) => println!(rt; "refused with {}", refusal.number())?,
        }
        Ok(())
    }

    fn console(&mut self, rt: &HostRuntime, text: &[u8]) -> anyhow::Result<()> {
        if let Some(Line::Change(change)) = read_line(text) {
            self.journal.push(Put {
                call: Call::Console(ROOM),
                change,
            })?;
        }
        self.answer(rt, text)
    }

    fn answer(&mut self, rt: &HostRuntime, text: &[u8]) -> anyhow::Result<()> {
        // An array with a count, since a call that answers allocates nothing.
        let mut out = [0u8; ROOM];
        let answered = answer_line(&mut self.study, text, &mut out);
        if let Some(front) = answered.ok().and_then(|n| out.get(..n)) {
            rt.stdout().write_all(front)?;
        }
        Ok(())
    }

    /// The same questions to either site.
    pub(crate) fn ask(&mut self, rt: &HostRuntime) -> anyhow::Result<()> {
        let questions: [&[u8]; 8] = [b"X", b"D 0", b"D 1", b"D 2", b"D 3", b"L 2", b"G 3", b"G 2"];
        for text in questions {
            print!(rt; "{} answers ", self.name)?;
            self.answer(rt, text)?;
        }
        Ok(())
    }
}
