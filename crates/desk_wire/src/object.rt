//! JSON objects of few members, as lines.
ghost use Rattle.std.specs.Prelude.{◌≡◌, ◌++◌, OnOk, false};
ghost use Rattle.serde_json.specs.Data.{object};
ghost use Rattle.serde_json.specs.Written.{compact_text};
ghost use Rattle.desk_lines.specs.Lines.{ended};
ghost use Rattle.desk_wire.specs.Holding.{data_of, line_of, members_of};

use crate::key::Key;
use feel_value::Feel;
use json_writer::{add_number, add_quoted, add_value};
use std::alloc::{AllocError, Global};

/// What a member of a report holds.
#[derive(Clone, Copy)]
pub(crate) enum Held<'a> {
    /// A boolean.
    Bool(bool),
    /// A number from 0 on.
    Number(u64),
    /// A text.
    Text(&'a str),
    /// A value.
    Value(&'a Feel),
}

impl<'a> Held<'a> {
    /// Adds its JSON to a line.
    fn add_to(self, alloc: Global, line: &mut Vec<u8>) -> Result<(), AllocError>
        ensures { OnOk result (line.new.items ≡ line.old.items ++ compact_text (data_of self.entry)) }
    {
        match self {
            Held::Bool(true) => line.extend_from_slice(b"true"),
            Held::Bool(false) => line.extend_from_slice(b"false"),
            Held::Number(number) => add_number(number, line),
            Held::Text(text) => add_quoted(alloc, text, line),
            Held::Value(value) => add_value(alloc, value, line),
        }
    }
}

/// Adds the members to a line, and what ends it.
fn add_members(
    alloc: Global,
    members: &[(Key, Held<'_>)],
    line: &mut Vec<u8>,
) -> Result<(), AllocError>
    ensures { OnOk result (line.new.items ≡ line.old.items ++ line_of false (members_of members.now)) }
{
    let mut later = false;
    for (key, held) in members {
        if later {
            line.push(b',')?;
        }
        line.extend_from_slice(key.quoted())?;
        held.add_to(alloc, line)?;
        later = true;
    }
    line.extend_from_slice(b"}\n")
}

/// Adds the line of the object of these members, with its newline.
#[tactic(auto, using(crate::proofs::Lining::object_line))]
pub(crate) fn add_object(
    alloc: Global,
    members: &[(Key, Held<'_>)],
    line: &mut Vec<u8>,
) -> Result<(), AllocError>
    ensures { OnOk result (line.new.items ≡ line.old.items ++ ended (compact_text (object (members_of members.now)))) }
{
    line.push(b'{')?;
    add_members(alloc, members, line)?;
    Ok(())
}
