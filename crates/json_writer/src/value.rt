//! Values, each part added to a text. No JSON value is built for them.
ghost use Rattle.std.specs.Prelude.{◌≡◌, ◌++◌, true, OnOk};
ghost use Rattle.serde_json.specs.Data.{array, object};
ghost use Rattle.serde_json.specs.Written.{comma_if, compact_text};
ghost use Rattle.feel_value.specs.Json.{json_of, json_items, json_members};
ghost use Rattle.feel_value.specs.Limits.{names_distinct, names_differ, items_distinct, entries_distinct};
ghost use Rattle.feel_value.specs.Names.{lent};
ghost use Rattle.feel_value.specs.View.{datum_of, items_view, entries_view};
ghost use Rattle.json_writer.specs.InOrder.{as_they_stand};

use crate::members::members;
use crate::text::add_quoted;
use feel_value::{Feel, Value as FeelValue};
use itoa::Buffer;
use std::alloc::{AllocError, Global};
use std::sync::ArcStr;

/// Adds a value, with each context as an object.
pub fn add_value(alloc: Global, value: &Feel, text: &mut Vec<u8>) -> Result<(), AllocError>
    ensures { OnOk result (text.new.items ≡ text.old.items ++ compact_text (json_of value.now)) }
{
    add_part(alloc, value.value(), text)
}

/// Adds a part of a value. It goes as deep as that is.
#[cycle(values)]
fn add_part(alloc: Global, value: &FeelValue, text: &mut Vec<u8>) -> Result<(), AllocError>
    requires distinct { names_distinct (datum_of value.now) ≡ true }
    ensures { OnOk result (text.new.items ≡ text.old.items ++ compact_text (json_of (datum_of value.now))) }
{
    match value {
        FeelValue::Null => text.extend_from_slice(b"null"),
        FeelValue::Bool(true) => text.extend_from_slice(b"true"),
        FeelValue::Bool(false) => text.extend_from_slice(b"false"),
        FeelValue::Number(number) => {
            text.extend_from_slice(Buffer::new().format(*number).as_bytes())
        }
        FeelValue::Text(words) => add_quoted(alloc, words.as_str(), text),
        FeelValue::List(list) => add_items(alloc, list.values(), text),
        FeelValue::Context(context) => add_entries(alloc, context.entries(), text),
    }
}

/// Adds a comma, where something stands before.
fn add_comma(later: bool, text: &mut Vec<u8>) -> Result<(), AllocError>
    ensures { OnOk result (text.new.items ≡ text.old.items ++ comma_if later) }
{
    if later {
        text.push(b',')?;
    }
    Ok(())
}

/// Adds a list.
#[cycle(values)]
fn add_items(alloc: Global, items: &[FeelValue], text: &mut Vec<u8>) -> Result<(), AllocError>
    requires distinct { items_distinct (items_view items.now) ≡ true }
    ensures { OnOk result (text.new.items ≡ text.old.items ++ compact_text (array (json_items (items_view items.now)))) }
{
    let mut later = false;
    text.push(b'[')?;
    for item in items {
        add_comma(later, text)?;
        add_part(alloc, item, text)?;
        later = true;
    }
    text.push(b']')?;
    Ok(())
}

/// Adds a context as an object.
#[cycle(values)]
fn add_entries(
    alloc: Global,
    entries: &[(ArcStr, FeelValue)],
    text: &mut Vec<u8>,
) -> Result<(), AllocError>
    requires names { names_differ (entries_view entries.now) ≡ true }
    requires distinct { entries_distinct (entries_view entries.now) ≡ true }
    ensures { OnOk result (text.new.items ≡ text.old.items ++ compact_text (object (json_members (entries_view entries.now)))) }
{
    let members = members(alloc, entries)?;
    add_members(alloc, &members, text)
}

/// Adds members as an object.
#[cycle(values)]
fn add_members(
    alloc: Global,
    members: &[&(ArcStr, FeelValue)],
    text: &mut Vec<u8>,
) -> Result<(), AllocError>
    requires distinct { entries_distinct (entries_view (lent members.now)) ≡ true }
    ensures { OnOk result (text.new.items ≡ text.old.items ++ compact_text (object (as_they_stand (entries_view (lent members.now))))) }
{
    let mut later = false;
    text.push(b'{')?;
    for (name, value) in members {
        add_comma(later, text)?;
        add_quoted(alloc, name.as_str(), text)?;
        text.push(b':')?;
        add_part(alloc, value, text)?;
        later = true;
    }
    text.push(b'}')?;
    Ok(())
}
