//! Names.

ghost use Rattle.std.specs.Prelude.{◌≡◌};
ghost use Rattle.std.specs.List.{list_all};
ghost use Rattle.feel_text.specs.Lexical.{is_digit, is_name as is_name_of, is_word as is_word_of, is_word_byte};

use crate::scanner;

// Whether all bytes may stand in a word.
fn has_word_bytes(text: &str) -> bool
    ensures { result ≡ list_all is_word_byte text.now }
{
    text.as_bytes()
        .iter()
        .all(|byte| scanner::is_word_byte(*byte))
}

// Whether the text is a word: word bytes, of which the first is no digit.
fn is_word(text: &str) -> bool
    ensures { result ≡ is_word_of text.now }
{
    match text.as_bytes().first() {
        Some(first) => !scanner::is_digit(*first) && has_word_bytes(text),
        None => false,
    }
}

/// Whether the text is a name: a word of at most 64 bytes that is no keyword. It takes no memory.
pub fn is_name(text: &str) -> bool
    ensures { result ≡ is_name_of text.now }
{
    is_word(text) && text.len() <= 64 && scanner::keyword_of(text).is_none()
}
