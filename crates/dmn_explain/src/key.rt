//! The keys of an explanation.
ghost use Rattle.std.specs.Prelude.{◌≡◌, ◌++◌, ◌∷◌, [], OnOk};
ghost use Rattle.json.specs.Print.{quoted};
ghost use Rattle.serde_json.specs.Written.{comma_if};
ghost use Rattle.json_writer.specs.Bounded.{longer};
ghost use Rattle.dmn_explain.specs.Text.{name_of, key_text};

use json_writer::BoundedText;
use std::alloc::AllocError;

/// A key of an explanation.
#[derive(Clone, Copy)]
pub(crate) enum Key {
    Column,
    Decided,
    Defaults,
    Entries,
    Fault,
    Given,
    Hits,
    Inputs,
    Members,
    Misses,
    Name,
    Places,
    Policy,
    Result,
    Rule,
    Table,
    Value,
}

impl Key {
    /// The key in quotes, with its colon.
    #[tactic(auto, unfolding(json::specs::Print::escape_byte))]
    fn quoted(self) -> &'static [u8]
        ensures { result.now ≡ quoted (name_of self) ++ 58 ∷ [] }
    {
        match self {
            Key::Column => b"\"column\":",
            Key::Decided => b"\"decided\":",
            Key::Defaults => b"\"defaults\":",
            Key::Entries => b"\"entries\":",
            Key::Fault => b"\"fault\":",
            Key::Given => b"\"given\":",
            Key::Hits => b"\"hits\":",
            Key::Inputs => b"\"inputs\":",
            Key::Members => b"\"members\":",
            Key::Misses => b"\"misses\":",
            Key::Name => b"\"name\":",
            Key::Places => b"\"places\":",
            Key::Policy => b"\"policy\":",
            Key::Result => b"\"result\":",
            Key::Rule => b"\"rule\":",
            Key::Table => b"\"table\":",
            Key::Value => b"\"value\":",
        }
    }
}

/// Adds a comma, where something stands before.
pub(crate) fn add_comma(later: bool, text: &mut BoundedText) -> Result<(), AllocError>
    ensures { OnOk result (text.new ≡ longer text.old (comma_if later)) }
{
    if later { text.add(b",") } else { text.add(b"") }
}

/// Adds a key with its colon, behind a comma where a member stands before.
#[tactic(auto, using(json_writer::proofs::Longer::longer_again))]
pub(crate) fn add_key(later: bool, key: Key, text: &mut BoundedText) -> Result<(), AllocError>
    ensures { OnOk result (text.new ≡ longer text.old (key_text later (name_of key))) }
{
    add_comma(later, text)?;
    text.add(key.quoted())
}
