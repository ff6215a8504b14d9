//! Objects that begin with a name.
ghost use Rattle.std.specs.Prelude.{◌≡◌, ◌++◌, OnOk};
ghost use Rattle.json_writer.specs.Bounded.{longer};
ghost use Rattle.dmn_explain.specs.Text.{name_text};

use crate::key::{Key, add_key};
use json_writer::BoundedText;
use std::alloc::{AllocError, Global};

/// Begins an object with its name.
#[tactic(auto, using(crate::proofs::Pieces::name_added))]
pub(crate) fn add_name(alloc: Global, name: &str, text: &mut BoundedText) -> Result<(), AllocError>
    ensures { OnOk result (text.new ≡ longer text.old (name_text name.now)) }
{
    text.push(b'{')?;
    add_key(false, Key::Name, text)?;
    text.add_quoted(alloc, name)
}
