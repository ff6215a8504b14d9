//! Boxed expressions as they are written.
ghost use Rattle.std.specs.Prelude.{◌≡◌, ◌&&◌, IfOk, option_map, bytes_eq};
ghost use Rattle.serde_json.specs.View.{view, members_view};
ghost use Rattle.dmn_form.specs.Draft.{logic_of as logic_from, logic_in as logic_among, members_at, entries_at, entry_at};
ghost use Rattle.dmn_form.specs.LogicParts.{logic_under as logic_by_key};
ghost use Rattle.dmn_form.specs.LogicView.{logic_view, members_view as members_read, entries_view as entries_read, entry_view};

use crate::fields::text_of;
use crate::table::table_of;
use crate::written::WrittenLogic;
use serde_json::{Map, Value};
use std::alloc::{AllocError, Global};

/// A boxed expression: a text, or an object with the one key `list`, `context` or `table`, or with `context` and `result`.
#[cycle(logic)]
pub(crate) fn logic_of(alloc: Global, json: &Value) -> Result<Option<WrittenLogic>, AllocError>
    ensures { IfOk result (λ o. option_map logic_view o ≡ logic_from (view json.now)) }
{
    match json {
        Value::String(text) => Ok(Some(WrittenLogic::Expression(String::from_str(
            alloc,
            text.as_str(),
        )?))),
        Value::Object(members) => {
            let logic = logic_in(alloc, members)?;
            Ok(logic)
        }
        _ => Ok(None),
    }
}

#[cycle(logic)]
fn logic_in(alloc: Global, members: &Map<String, Value>) -> Result<Option<WrittenLogic>, AllocError>
    ensures { IfOk result (λ o. option_map logic_view o ≡ logic_among (members_view members.now.entries)) }
{
    let mut rest = members.iter();
    let Some((key, value)) = rest.next() else {
        return Ok(None);
    };
    let Some((other, last)) = rest.next() else {
        let logic = logic_under(alloc, key.as_str(), value)?;
        return Ok(logic);
    };
    let None = rest.next() else {
        return Ok(None);
    };
    if !are_keys(key.as_str(), "context", other.as_str(), "result") {
        return Ok(None);
    }
    let Some(entries) = entries_of(alloc, value)? else {
        return Ok(None);
    };
    let Some(logic) = logic_of(alloc, last)? else {
        return Ok(None);
    };
    match Box::new(alloc, logic) {
        Ok(logic) => Ok(Some(WrittenLogic::ContextWith(entries, logic))),
        Err(_) => Err(AllocError),
    }
}

/// Whether two keys are these.
fn are_keys(key: &str, first: &str, other: &str, second: &str) -> bool
    ensures { result ≡ (bytes_eq key.now first.now && bytes_eq other.now second.now) }
{
    key == first && other == second
}

/// A boxed expression under its one key.
#[cycle(logic)]
fn logic_under(alloc: Global, key: &str, value: &Value) -> Result<Option<WrittenLogic>, AllocError>
    ensures { IfOk result (λ o. option_map logic_view o ≡ logic_by_key key.now (view value.now)) }
{
    match key {
        "list" => match members_of(alloc, value)? {
            Some(members) => Ok(Some(WrittenLogic::List(members))),
            None => Ok(None),
        },
        "context" => match entries_of(alloc, value)? {
            Some(entries) => Ok(Some(WrittenLogic::Context(entries))),
            None => Ok(None),
        },
        "table" => match table_of(alloc, value)? {
            Some(table) => Ok(Some(WrittenLogic::Table(table))),
            None => Ok(None),
        },
        _ => Ok(None),
    }
}

/// The members of a list.
#[cycle(logic)]
fn members_of(alloc: Global, json: &Value) -> Result<Option<Vec<WrittenLogic>>, AllocError>
    ensures { IfOk result (λ o. option_map members_read o ≡ members_at (view json.now)) }
{
    let Value::Array(items) = json else {
        return Ok(None);
    };
    let mut members = Vec::with_capacity(alloc, items.len())?;
    for item in items {
        let Some(member) = logic_of(alloc, item)? else {
            return Ok(None);
        };
        members.push(member)?;
    }
    Ok(Some(members))
}

/// The entries of a context.
#[cycle(logic)]
fn entries_of(
    alloc: Global,
    json: &Value,
) -> Result<Option<Vec<(String, WrittenLogic)>>, AllocError>
    ensures { IfOk result (λ o. option_map entries_read o ≡ entries_at (view json.now)) }
{
    let Value::Array(items) = json else {
        return Ok(None);
    };
    let mut entries = Vec::with_capacity(alloc, items.len())?;
    for item in items {
        let Some(entry) = entry_of(alloc, item)? else {
            return Ok(None);
        };
        entries.push(entry)?;
    }
    Ok(Some(entries))
}

/// An entry of a context: an object with the keys `expr` and `name`.
#[cycle(logic)]
fn entry_of(alloc: Global, json: &Value) -> Result<Option<(String, WrittenLogic)>, AllocError>
    ensures { IfOk result (λ o. option_map entry_view o ≡ entry_at (view json.now)) }
{
    let Value::Object(members) = json else {
        return Ok(None);
    };
    let mut rest = members.iter();
    let Some((key, value)) = rest.next() else {
        return Ok(None);
    };
    let Some((other, name)) = rest.next() else {
        return Ok(None);
    };
    let None = rest.next() else {
        return Ok(None);
    };
    if !are_keys(key.as_str(), "expr", other.as_str(), "name") {
        return Ok(None);
    }
    let Some(logic) = logic_of(alloc, value)? else {
        return Ok(None);
    };
    let Some(name) = text_of(name) else {
        return Ok(None);
    };
    Ok(Some((String::from_str(alloc, name)?, logic)))
}
