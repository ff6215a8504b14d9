//! Lines, and what may stand in the output where memory is refused for some of them: `memory`, with nothing changed by that line,
//! or the answer that is due after the lines that did change something.
use desk_lines::FrontFault;
use std::alloc::{AllocError, Global};

pub const LINES: &[u8] = b"\
{\"model\":{\"inputs\":[\"a\"],\"decisions\":[{\"name\":\"d\",\"needs\":[\"a\"],\"expr\":\"a + 1\"}],\"services\":[{\"name\":\"s\",\"outputs\":[\"d\"],\"encapsulated\":[],\"inputDecisions\":[],\"inputData\":[\"a\"]}]}}\n\
{\"open\":\"a\",\"capacity\":2}\n\
{\"submit\":\"a\",\"service\":\"s\",\"inputs\":{\"a\":1}}\n\
{\"submit\":\"a\",\"service\":\"s\",\"inputs\":{\"a\":2}}\n\
{\"take\":\"a\",\"ticket\":0}\n\
{\"take\":\"a\",\"ticket\":1}\n\
{\"answer\":\"a\",\"ticket\":1}\n\
{\"release\":\"a\"}\n\
{\"answer\":\"a\",\"ticket\":0}\n\
{\"release\":\"a\"}\n\
{\"release\":\"a\"}\n\
{\"release\":\"a\"}\n";

pub const ANSWERS: &[u8] = b"\
{\"line\":1,\"model\":true}\n\
{\"client\":\"a\",\"line\":2,\"opened\":2}\n\
{\"accepted\":0,\"client\":\"a\",\"line\":3}\n\
{\"accepted\":1,\"client\":\"a\",\"line\":4}\n\
{\"client\":\"a\",\"line\":5,\"taken\":0}\n\
{\"client\":\"a\",\"line\":6,\"taken\":1}\n\
{\"client\":\"a\",\"kept\":1,\"line\":7}\n\
{\"client\":\"a\",\"line\":8,\"nothing\":true}\n\
{\"client\":\"a\",\"kept\":0,\"line\":9}\n\
{\"client\":\"a\",\"result\":2,\"ticket\":0}\n\
{\"client\":\"a\",\"result\":3,\"ticket\":1}\n\
{\"client\":\"a\",\"line\":12,\"nothing\":true}\n";

/// What a line asks.
#[derive(Clone, Copy)]
enum Ask {
    Model,
    Open,
    Submit(u64),
    Take(u64),
    Answer(u64),
    Release,
}

/// What the lines ask.
const ASKS: [Ask; 12] = [
    Ask::Model,
    Ask::Open,
    Ask::Submit(1),
    Ask::Submit(2),
    Ask::Take(0),
    Ask::Take(1),
    Ask::Answer(1),
    Ask::Release,
    Ask::Answer(0),
    Ask::Release,
    Ask::Release,
    Ask::Release,
];

/// What was changed by the lines that found memory.
#[derive(Drop)]
struct Changed {
    has_model: bool,
    is_open: bool,
    /// What was asked for, under its ticket.
    accepted: Vec<u64>,
    taken: Vec<u64>,
    kept: Vec<u64>,
    handed: u64,
}

impl Changed {
    fn nothing(alloc: Global) -> Changed {
        Changed {
            has_model: false,
            is_open: false,
            accepted: Vec::new(alloc),
            taken: Vec::new(alloc),
            kept: Vec::new(alloc),
            handed: 0,
        }
    }

    /// Why a line that asks this is refused, if it is.
    fn refusal(&self, ask: Ask) -> Option<&'static str> {
        match ask {
            Ask::Model | Ask::Open => None,
            Ask::Submit(_) if !self.has_model => Some("model"),
            _ if !self.is_open => Some("no client"),
            Ask::Take(ticket) if !self.is_waiting(ticket) => Some("not waiting"),
            Ask::Answer(ticket) if !self.taken.contains(&ticket) => Some("strange"),
            _ => None,
        }
    }

    fn is_waiting(&self, ticket: u64) -> bool {
        (ticket as usize) < self.accepted.len() && !self.taken.contains(&ticket)
    }

    /// What the next release hands out, if anything.
    fn next_result(&self) -> Option<u64> {
        if !self.kept.contains(&self.handed) {
            return None;
        }
        self.accepted
            .get(self.handed as usize)
            .map(|asked| asked.saturating_add(1))
    }

    /// The answer to a line that asks this and is not refused. What it changes is changed.
    fn answer(&mut self, alloc: Global, line: u64, ask: Ask) -> Result<String, AllocError> {
        match ask {
            Ask::Model => {
                self.has_model = true;
                format!(in alloc; "{{\"line\":{line},\"model\":true}}\n")
            }
            Ask::Open => {
                self.is_open = true;
                format!(in alloc; "{{\"client\":\"a\",\"line\":{line},\"opened\":2}}\n")
            }
            Ask::Submit(asked) => {
                let ticket = self.accepted.len();
                self.accepted.push(asked)?;
                format!(in alloc; "{{\"accepted\":{ticket},\"client\":\"a\",\"line\":{line}}}\n")
            }
            Ask::Take(ticket) => {
                self.taken.push(ticket)?;
                format!(in alloc; "{{\"client\":\"a\",\"line\":{line},\"taken\":{ticket}}}\n")
            }
            Ask::Answer(ticket) => {
                self.kept.push(ticket)?;
                format!(in alloc; "{{\"client\":\"a\",\"kept\":{ticket},\"line\":{line}}}\n")
            }
            Ask::Release => self.release(alloc, line),
        }
    }

    /// The answer to a release.
    fn release(&mut self, alloc: Global, line: u64) -> Result<String, AllocError> {
        let Some(result) = self.next_result() else {
            return format!(in alloc; "{{\"client\":\"a\",\"line\":{line},\"nothing\":true}}\n");
        };
        let ticket = self.handed;
        self.handed = ticket.saturating_add(1);
        format!(in alloc; "{{\"client\":\"a\",\"result\":{result},\"ticket\":{ticket}}}\n")
    }
}

/// A refusal of the line.
fn refused(alloc: Global, line: u64, ask: Ask, word: &str) -> Result<String, AllocError> {
    match ask {
        Ask::Model => format!(in alloc; "{{\"line\":{line},\"refused\":\"{word}\"}}\n"),
        _ => format!(in alloc; "{{\"client\":\"a\",\"line\":{line},\"refused\":\"{word}\"}}\n"),
    }
}

/// Whether this may stand on the line.
fn may_stand(
    alloc: Global,
    changed: &mut Changed,
    line: u64,
    ask: Ask,
    answer: &[u8],
) -> Result<bool, AllocError> {
    let memory = refused(alloc, line, ask, "memory")?;
    if answer == memory.as_bytes() {
        return Ok(!matches!(ask, Ask::Release));
    }
    let due = match changed.refusal(ask) {
        Some(word) => refused(alloc, line, ask, word)?,
        None => changed.answer(alloc, line, ask)?,
    };
    Ok(answer == due.as_bytes())
}

/// How many whole lines a text has, each of which may stand there; None if another stands there.
fn lawful_lines(alloc: Global, text: &[u8]) -> Result<Option<u64>, AllocError> {
    let mut changed = Changed::nothing(alloc);
    let mut asks = ASKS.iter();
    let mut line: u64 = 0;
    for answer in text.split_inclusive(|byte| *byte == b'\n') {
        let Some(ask) = asks.next() else {
            return Ok(None);
        };
        line = line.saturating_add(1);
        if !may_stand(alloc, &mut changed, line, *ask, answer)? {
            return Ok(None);
        }
    }
    Ok(Some(line))
}

/// Whether a run was lawful: each line may stand there, and without a fault all stand there.
pub fn is_lawful(
    alloc: Global,
    ended: Result<(), FrontFault>,
    text: &[u8],
) -> Result<bool, AllocError> {
    let lines = lawful_lines(alloc, text)?;
    Ok(match ended {
        Ok(()) => lines == Some(12),
        Err(fault) => fault == FrontFault::Memory && lines.is_some(),
    })
}
