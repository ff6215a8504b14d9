//! A line as it is heard, before it is known what it says.
ghost use Rattle.std.specs.Prelude.{◌≡◌, ℕ, List, IfOk};
ghost use Rattle.desk_lines.specs.Lines.{kept_line};
ghost use Rattle.desk_wire.specs.Heard.{IsHeardAs};
ghost use Rattle.desk_wire.specs.Reading.{is_blank};

use desk_lines::LineText;
use json_reader::{JsonReader, Listed};
use serde_json::Value;
use std::alloc::{AllocError, Global};

/// A line as it is heard: the first of these that applies.
#[derive(Drop)]
pub enum Heard<'a> {
    /// It is longer than a line may be.
    Long,
    /// It is blank.
    Blank,
    /// It is no JSON text.
    Syntax,
    /// It is a JSON value, but no object of so few members as a line has.
    Other,
    /// It is the object of these members.
    Object(Vec<(&'a str, Value)>),
}

/// Whether a text has blanks alone.
pub fn is_blank(text: &[u8]) -> bool
    ensures { result ≡ is_blank text.now }
{
    text.iter()
        .all(|byte| *byte == b' ' || *byte == b'\t' || *byte == b'\r')
}

/// How a line is heard.
pub fn hear<'a>(
    alloc: Global,
    texts: &'a mut JsonReader,
    line: &'a LineText,
) -> Result<Heard<'a>, AllocError>
    ensures { IfOk result (λ heard. (it : List ℕ) → line.now ≡ kept_line it → IsHeardAs it heard) }
{
    let Some(bytes) = line.text() else {
        return Ok(Heard::Long);
    };
    if is_blank(bytes) {
        return Ok(Heard::Blank);
    }
    match texts.read_listed(alloc, bytes)? {
        Listed::Object(members) => Ok(Heard::Object(members)),
        Listed::Other => Ok(Heard::Other),
        Listed::Syntax => Ok(Heard::Syntax),
    }
}
