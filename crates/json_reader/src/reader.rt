//! The reader of one text after the other.
ghost use Rattle.std.specs.Prelude.{IfOk};
ghost use Rattle.json_reader.specs.Listed.{IsReadAs};

use crate::listed::{Listed, text_in};
use json::Scratch;
use std::alloc::{AllocError, Global};

/// How deep lists and objects may be nested, as in `serde_json`.
pub(crate) const MOST_DEPTH: usize = 127;

/// Reads JSON texts. It keeps the memory that reading needs: 16 KiB, and the length of the longest text so far.
#[derive(Drop)]
pub struct JsonReader {
    // None before the first text.
    scratch: Option<Box<Scratch>>,
}

impl JsonReader {
    /// A reader that has read nothing. It takes no memory.
    pub fn new() -> JsonReader {
        JsonReader { scratch: None }
    }

    /// What a text is, with the members of an object in a list if they are few.
    pub fn read_listed<'a>(
        &'a mut self,
        alloc: Global,
        text: &'a [u8],
    ) -> Result<Listed<'a>, AllocError>
        ensures { IfOk result (λ listed. IsReadAs text.now listed) }
    {
        let Ok(text) = str::from_utf8(text) else {
            return Ok(Listed::Syntax);
        };
        text_in(alloc, text, self.scratch(alloc)?)
    }

    // The memory for reading.
    fn scratch(&mut self, alloc: Global) -> Result<&mut Scratch, AllocError> {
        if self.scratch.is_none() {
            self.scratch = Some(Box::new(alloc, Scratch::new(alloc))?);
        }
        match &mut self.scratch {
            Some(scratch) => Ok(scratch),
            None => unreachable!(),
        }
    }
}
