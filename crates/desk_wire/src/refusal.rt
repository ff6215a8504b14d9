//! What is said to a line that has none of the forms of its command.
ghost use Rattle.std.specs.Prelude.{◌≡◌, ◌++◌, OnOk};
ghost use Rattle.desk_wire.specs.Listening.{refusal_text};

use crate::heard::Heard;
use crate::report::Report;
use crate::word::Word;
use std::alloc::{AllocError, Global};

/// Adds the refusal of a line that has none of the forms of its command: nothing where it is blank.
pub fn add_refusal(
    alloc: Global,
    number: u64,
    heard: &Heard<'_>,
    text: &mut Vec<u8>,
) -> Result<(), AllocError>
    ensures { OnOk result (text.new.items ≡ text.old.items ++ refusal_text number heard.now) }
{
    match heard {
        Heard::Long => Report::Refused(number, Word::Long).add_to(alloc, text),
        Heard::Blank => Ok(()),
        Heard::Syntax => Report::Refused(number, Word::Syntax).add_to(alloc, text),
        Heard::Other => Report::Refused(number, Word::Shape).add_to(alloc, text),
        Heard::Object(_) => Report::Refused(number, Word::Shape).add_to(alloc, text),
    }
}
