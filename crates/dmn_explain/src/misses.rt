//! The rules of a table that missed.
ghost use Rattle.std.specs.Prelude.{◌≡◌, OnOk, map};
ghost use Rattle.serde_json.specs.Data.{array};
ghost use Rattle.serde_json.specs.Written.{compact_text};
ghost use Rattle.json_writer.specs.Bounded.{longer};
ghost use Rattle.dmn_explain.specs.How.{miss_told, misses_told};
ghost use Rattle.dmn_explain.specs.Numbered.{miss_view};
ghost use Rattle.dmn_explain.specs.Text.{misses_text};

use crate::asking::Miss;
use crate::key::{Key, add_comma, add_key};
use json_writer::BoundedText;
use std::alloc::AllocError;

/// Adds a rule that missed, with the column that it missed by.
fn add_miss(miss: &Miss, text: &mut BoundedText) -> Result<(), AllocError>
    ensures { OnOk result (text.new ≡ longer text.old (compact_text (miss_told (miss_view miss.now)))) }
{
    text.push(b'{')?;
    add_key(false, Key::Rule, text)?;
    text.add_number(miss.number as u64)?;
    add_key(true, Key::Column, text)?;
    text.add_number(miss.column as u64)?;
    text.push(b'}')?;
    Ok(())
}

/// Adds the list of these rules.
fn add_miss_list(misses: &[Miss], text: &mut BoundedText) -> Result<(), AllocError>
    ensures { OnOk result (text.new ≡ longer text.old (compact_text (array (misses_told (map miss_view misses.now))))) }
{
    let mut later = false;
    text.push(b'[')?;
    for miss in misses {
        if text.is_long() {
            return Ok(());
        }
        add_comma(later, text)?;
        add_miss(miss, text)?;
        later = true;
    }
    text.push(b']')?;
    Ok(())
}

/// Adds the member of the rules that missed, behind another one, where these are asked for.
#[tactic(auto, using(json_writer::proofs::Longer::longer_again))]
pub(crate) fn add_misses(
    with_misses: bool,
    misses: &[Miss],
    text: &mut BoundedText,
) -> Result<(), AllocError>
    ensures { OnOk result (text.new ≡ longer text.old (misses_text with_misses (map miss_view misses.now))) }
{
    if !with_misses {
        return text.add(b"");
    }
    add_key(true, Key::Misses, text)?;
    add_miss_list(misses, text)
}
