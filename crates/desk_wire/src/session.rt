//! Commands that answer each line before the next is read.
ghost use Rattle.std.specs.Prelude.{◌≡◌, ℕ, List, IfOk, OnOk};
ghost use Rattle.desk_lines.specs.Answering.{AnswersAtOnce};
ghost use Rattle.desk_lines.specs.Talk.{IsWithin};
ghost use Rattle.desk_wire.specs.Listening.{AnswersHeard};

use crate::heard::{Heard, hear};
use desk_lines::{Answerer, LineText};
use json_reader::JsonReader;
use std::alloc::{AllocError, Global};

/// What stands between the lines of a command, and answers each line as it is heard.
pub trait Listener {
    /// The bytes of most answers.
    const ROOM: usize;

    /// Which lines may be said to which. An answer widens nothing of it.
    ghost Script: { Self → List (List ℕ) → List (List ℕ) → Type 0 };

    /// It stands as after these lines, to which those were said.
    ghost After: { Self → List (List ℕ) → List (List ℕ) → Type 0 };

    /// Adds what is said to the line with this number to a text: nothing where it is blank.
    fn answer_heard(
        &mut self,
        alloc: Global,
        number: u64,
        heard: &Heard<'_>,
        text: &mut Vec<u8>,
    ) -> Result<(), AllocError>
        ensures keeps { IsWithin (Script self.new) (Script self.old) }
        ensures answers { OnOk result (AnswersHeard (After self.old) (After self.new) number heard.now text.old.items text.new.items) };

    /// What was said follows the script.
    ghost follows: { (a : Self) → IsWithin (After a) (Script a) };
}

/// What answers the lines of a command: what stands between them, and the reader of their texts.
#[derive(Drop)]
pub struct Session<S> {
    /// What stands between the lines.
    pub state: S,
    texts: JsonReader,
}

impl<S> Session<S> {
    /// A session before its first line.
    pub fn new(state: S) -> Session<S>
        ensures { result.state ≡ state }
    {
        Session {
            state,
            texts: JsonReader::new(),
        }
    }
}

/// What a state says to the line with this number.
fn answer_to<S: Listener>(
    alloc: Global,
    state: &mut S,
    texts: &mut JsonReader,
    number: u64,
    line: &LineText,
) -> Result<Vec<u8>, AllocError>
    ensures keeps { IsWithin (S.Script state.new) (S.Script state.old) }
    ensures answers { IfOk result (λ said. AnswersAtOnce (S.After state.old) (S.After state.new) line.now number said.items) }
{
    let heard = hear(alloc, texts, line)?;
    let mut said = Vec::with_capacity(alloc, S::ROOM)?;
    state.answer_heard(alloc, number, &heard, &mut said)?;
    Ok(said)
}

impl<S: Listener> Answerer for Session<S> {
    ghost Script = { λ session. S.Script session.state };

    ghost After = { λ session. S.After session.state };

    fn answer(
        &mut self,
        alloc: Global,
        number: u64,
        line: &LineText,
    ) -> Result<Vec<u8>, AllocError> {
        answer_to(alloc, &mut self.state, &mut self.texts, number, line)
    }

    ghost follows = { λ session. S.follows session.state };
}
