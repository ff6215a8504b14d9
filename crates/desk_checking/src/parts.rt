//! Parts of lines of JSON.
ghost use Rattle.std.specs.Prelude.{◌≡◌, ◌++◌, OnOk, map, string_bytes};
ghost use Rattle.serde_json.specs.Data.{array, boolean};
ghost use Rattle.serde_json.specs.Written.{comma_if, compact_text};
ghost use Rattle.desk_checking.specs.Told.{numbers_told, texts_told};

use json_writer::{add_number, add_quoted};
use std::alloc::{AllocError, Global};

/// Adds a comma, where something stands before.
pub(crate) fn add_comma(later: bool, text: &mut Vec<u8>) -> Result<(), AllocError>
    ensures { OnOk result (text.new.items ≡ text.old.items ++ comma_if later) }
{
    if later {
        text.extend_from_slice(b",")
    } else {
        text.extend_from_slice(b"")
    }
}

/// Adds true or false.
pub(crate) fn add_bool(is: bool, text: &mut Vec<u8>) -> Result<(), AllocError>
    ensures { OnOk result (text.new.items ≡ text.old.items ++ compact_text (boolean is)) }
{
    if is {
        text.extend_from_slice(b"true")
    } else {
        text.extend_from_slice(b"false")
    }
}

/// Adds an array of these texts and others behind them.
pub(crate) fn add_texts(
    alloc: Global,
    texts: &[String],
    others: &[String],
    text: &mut Vec<u8>,
) -> Result<(), AllocError>
    ensures { OnOk result (text.new.items ≡ text.old.items ++ compact_text (array (texts_told (map string_bytes texts.now ++ map string_bytes others.now)))) }
{
    let mut later = false;
    text.push(b'[')?;
    for word in texts {
        add_comma(later, text)?;
        add_quoted(alloc, word.as_str(), text)?;
        later = true;
    }
    for word in others {
        add_comma(later, text)?;
        add_quoted(alloc, word.as_str(), text)?;
        later = true;
    }
    text.push(b']')?;
    Ok(())
}

/// Adds an array of these rules. The first is number 0.
pub(crate) fn add_rules(rules: &[usize], text: &mut Vec<u8>) -> Result<(), AllocError>
    ensures { OnOk result (text.new.items ≡ text.old.items ++ compact_text (array (numbers_told rules.now))) }
{
    let mut later = false;
    text.push(b'[')?;
    for rule in rules {
        add_comma(later, text)?;
        add_number(*rule as u64, text)?;
        later = true;
    }
    text.push(b']')?;
    Ok(())
}
