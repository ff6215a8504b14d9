//! Lawful models that are too long for a line of `serve`.
ghost use Rattle.std.specs.Prelude.{◌≡◌, ◌++◌, OnOk, length};
ghost use Rattle.serde_json.specs.Data.{Data};
ghost use Rattle.serde_json.specs.Written.{compact_text};
ghost use Rattle.desk_lines.specs.Lines.{ended};
ghost use Rattle.desk_checking.specs.FirstFault.{model_line};
ghost use Rattle.desk_checking.specs.Told.{long_line};

use json_writer::add_number;
use std::alloc::AllocError;

/// The most bytes of a line.
pub(crate) const MOST_LINE: usize = 1_048_576;

/// How many bytes the line `{"model":M}` of a model has of which this is the compact text.
pub(crate) fn line_length(text: &[u8]) -> usize
    ensures { (d : Data) → text.now ≡ compact_text d → result ≡ length (model_line d) }
{
    text.len() + 10
}

/// Adds the line about how long it is.
#[tactic(auto, using(crate::proofs::Lines::long_pieces))]
pub(crate) fn add_length(length: usize, text: &mut Vec<u8>) -> Result<(), AllocError>
    ensures { OnOk result (text.new.items ≡ text.old.items ++ ended (long_line length)) }
{
    text.extend_from_slice(b"{\"fault\":\"long\",\"length\":")?;
    add_number(length as u64, text)?;
    text.extend_from_slice(b"}\n")
}
