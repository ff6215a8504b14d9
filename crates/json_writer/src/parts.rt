//! Values, each part added to a text with a bound. No value is copied, and where the text is long nothing more is formed.
ghost use Rattle.std.specs.Prelude.{◌≡◌, true, OnOk};
ghost use Rattle.serde_json.specs.Data.{array, object};
ghost use Rattle.serde_json.specs.Written.{comma_if, compact_text};
ghost use Rattle.feel_value.specs.Json.{json_of, json_items, json_members};
ghost use Rattle.feel_value.specs.Limits.{names_distinct, names_differ, items_distinct, entries_distinct};
ghost use Rattle.feel_value.specs.Names.{lent};
ghost use Rattle.feel_value.specs.View.{datum_of, items_view, entries_view};
ghost use Rattle.json_writer.specs.Bounded.{longer};
ghost use Rattle.json_writer.specs.InOrder.{as_they_stand};

use crate::bounded::BoundedText;
use crate::members::members;
use feel_value::{Feel, Value as FeelValue};
use itoa::Buffer;
use std::alloc::{AllocError, Global};
use std::sync::ArcStr;

impl BoundedText {
    /// Adds a value, with each context as an object. It is formed part by part, and only as far as the text is kept.
    pub fn add_value(&mut self, alloc: Global, value: &Feel) -> Result<(), AllocError>
        ensures { OnOk result (self.new ≡ longer self.old (compact_text (json_of value.now))) }
    {
        add_part(alloc, value.value(), self)
    }
}

/// Adds a comma, where something stands before.
fn add_comma(later: bool, text: &mut BoundedText) -> Result<(), AllocError>
    ensures { OnOk result (text.new ≡ longer text.old (comma_if later)) }
{
    if later { text.add(b",") } else { text.add(b"") }
}

/// Adds a part of a value. It goes as deep as that is.
#[cycle(parts)]
fn add_part(alloc: Global, value: &FeelValue, text: &mut BoundedText) -> Result<(), AllocError>
    requires distinct { names_distinct (datum_of value.now) ≡ true }
    ensures { OnOk result (text.new ≡ longer text.old (compact_text (json_of (datum_of value.now)))) }
{
    match value {
        FeelValue::Null => text.add(b"null"),
        FeelValue::Bool(true) => text.add(b"true"),
        FeelValue::Bool(false) => text.add(b"false"),
        FeelValue::Number(number) => text.add(Buffer::new().format(*number).as_bytes()),
        FeelValue::Text(words) => text.add_quoted(alloc, words.as_str()),
        FeelValue::List(list) => add_items(alloc, list.values(), text),
        FeelValue::Context(context) => add_entries(alloc, context.entries(), text),
    }
}

/// Adds a list.
#[cycle(parts)]
fn add_items(alloc: Global, items: &[FeelValue], text: &mut BoundedText) -> Result<(), AllocError>
    requires distinct { items_distinct (items_view items.now) ≡ true }
    ensures { OnOk result (text.new ≡ longer text.old (compact_text (array (json_items (items_view items.now))))) }
{
    let mut later = false;
    text.push(b'[')?;
    for item in items {
        if text.is_long() {
            return Ok(());
        }
        add_comma(later, text)?;
        add_part(alloc, item, text)?;
        later = true;
    }
    text.push(b']')?;
    Ok(())
}

/// Adds a context as an object.
#[cycle(parts)]
fn add_entries(
    alloc: Global,
    entries: &[(ArcStr, FeelValue)],
    text: &mut BoundedText,
) -> Result<(), AllocError>
    requires names { names_differ (entries_view entries.now) ≡ true }
    requires distinct { entries_distinct (entries_view entries.now) ≡ true }
    ensures { OnOk result (text.new ≡ longer text.old (compact_text (object (json_members (entries_view entries.now))))) }
{
    let members = members(alloc, entries)?;
    add_members(alloc, &members, text)
}

/// Adds members as an object.
#[cycle(parts)]
fn add_members(
    alloc: Global,
    members: &[&(ArcStr, FeelValue)],
    text: &mut BoundedText,
) -> Result<(), AllocError>
    requires distinct { entries_distinct (entries_view (lent members.now)) ≡ true }
    ensures { OnOk result (text.new ≡ longer text.old (compact_text (object (as_they_stand (entries_view (lent members.now)))))) }
{
    let mut later = false;
    text.push(b'{')?;
    for (name, value) in members {
        if text.is_long() {
            return Ok(());
        }
        add_comma(later, text)?;
        text.add_quoted(alloc, name.as_str())?;
        text.push(b':')?;
        add_part(alloc, value, text)?;
        later = true;
    }
    text.push(b'}')?;
    Ok(())
}
