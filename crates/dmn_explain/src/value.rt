//! Members that are values.
ghost use Rattle.std.specs.Prelude.{◌≡◌, ◌++◌, OnOk, option_map};
ghost use Rattle.json_writer.specs.Bounded.{longer};
ghost use Rattle.dmn_explain.specs.Text.{name_of, valued_text};

use crate::key::{Key, add_key};
use feel_value::Feel;
use json_writer::BoundedText;
use std::alloc::{AllocError, Global};

/// Adds the member of a value under a key, or that a limit was broken; with a comma where a member stands before.
#[tactic(auto, using(json_writer::proofs::Longer::longer_again), unfolding(json::specs::Print::escape_byte))]
pub(crate) fn add_valued(
    alloc: Global,
    later: bool,
    key: Key,
    value: Option<&Feel>,
    text: &mut BoundedText,
) -> Result<(), AllocError>
    ensures { OnOk result (text.new ≡ longer text.old (valued_text later (name_of key) (option_map (λ v. v.now) value.entry))) }
{
    let Some(value) = value else {
        add_key(later, Key::Fault, text)?;
        return text.add(b"\"limit\"");
    };
    add_key(later, key, text)?;
    text.add_value(alloc, value)
}
