//! Texts in quotes, and numbers.
ghost use Rattle.std.specs.Prelude.{◌≡◌, ◌++◌, OnOk, decimal};
ghost use Rattle.std.specs.List.{list_any};
ghost use Rattle.json.specs.Print.{quoted};
ghost use Rattle.json.specs.Run.{is_stop};

use itoa::Buffer;
use json::Writer;
use std::alloc::{AllocError, Global};
use std::mem::replace;

/// Whether a text has a byte that stands otherwise in quotes.
pub(crate) fn needs_escape(words: &str) -> bool
    ensures { result ≡ list_any is_stop words.now }
{
    words
        .as_bytes()
        .iter()
        .any(|byte| *byte == b'"' || *byte == b'\\' || *byte < b' ')
}

/// Adds a text in quotes, of which some byte needs an escape. Where there is no memory, the text may have a part of it.
#[cold]
#[inline(never)]
pub(crate) fn add_escaped(alloc: Global, words: &str, text: &mut Vec<u8>) -> Result<(), AllocError>
    ensures { OnOk result (text.new.items ≡ text.old.items ++ quoted words.now) }
{
    let mut writer = Writer::new(replace(text, Vec::new(alloc)));
    let added = writer.string(words);
    *text = writer.into_inner();
    added
}

/// Adds a text in quotes.
#[tactic(auto, using(crate::proofs::Quoting::in_quotes))]
pub fn add_quoted(alloc: Global, words: &str, text: &mut Vec<u8>) -> Result<(), AllocError>
    ensures { OnOk result (text.new.items ≡ text.old.items ++ quoted words.now) }
{
    if needs_escape(words) {
        return add_escaped(alloc, words, text);
    }
    text.push(b'"')?;
    text.extend_from_slice(words.as_bytes())?;
    text.push(b'"')?;
    Ok(())
}

/// Adds a number.
pub fn add_number(number: u64, text: &mut Vec<u8>) -> Result<(), AllocError>
    ensures { OnOk result (text.new.items ≡ text.old.items ++ decimal number) }
{
    text.extend_from_slice(Buffer::new().format(number).as_bytes())
}
