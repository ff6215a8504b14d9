//! The output columns of a table, as far as the outputs of its hits are told by them.
ghost use Rattle.std.specs.Prelude.{◌≡◌, IfOk, IfSome, IsTrue, All, map, true};
ghost use Rattle.feel_value.specs.Distinct.{are_distinct as are_distinct_of, is_among as is_among_of};
ghost use Rattle.dmn_table.specs.Faults.{goes_by_priority};
ghost use Rattle.dmn_table.specs.Parts.{column_view, names_of as names_of_outputs};
ghost use Rattle.dmn_table.specs.Priority.{listed_values};
ghost use Rattle.dmn_table.specs.RuleOutputs.{IsScalar};
ghost use Rattle.dmn_explain.specs.NamedOutputs.{TellsOutputs};

use crate::under_names::places_of_names;
use dmn_table::{Listed, Output, Table, lists_of};
use feel_value::{Feel, Value as FeelValue};
use serde_json::{Map, Value};
use std::alloc::{AllocError, Global};

/// So many columns, and no more, are told apart name by name.
const FEW: usize = 64;

/// The output columns of a table: what the outputs of its hits are told by.
#[derive(Drop)]
pub(crate) struct Columns<'a> {
    /// The output values of each, where the hit policy goes by them; otherwise none.
    pub(crate) lists: Vec<Listed<'a>>,
    /// The places of their names in an object, where they are several, and not many.
    pub(crate) places: Option<Map<String, Value>>,
}

/// The output values of the table's columns where its hit policy goes by them, otherwise none; so many rules hit.
fn lists_for<'a>(
    alloc: Global,
    table: &'a Table,
    hits: usize,
) -> Result<Vec<Listed<'a>>, AllocError>
    ensures { IfOk result (λ lists. goes_by_priority table.now.policy ≡ true → lists.items ≡ listed_values table.now.outputs) }
{
    if !table.policy().goes_by_priority() {
        return Ok(Vec::new(alloc));
    }
    let lists = lists_of(alloc, table.outputs(), hits)?;
    Ok(lists)
}

/// The names of these columns.
fn names_of<'a>(alloc: Global, outputs: &'a [Output]) -> Result<Vec<&'a str>, AllocError>
    ensures { IfOk result (λ names. map (λ n. n.now) names.items ≡ names_of_outputs outputs.now) }
{
    let mut names = Vec::with_capacity(alloc, outputs.len())?;
    for output in outputs {
        names.push(output.name.as_str())?;
    }
    Ok(names)
}

/// Whether the name is one of these.
fn is_among(name: &str, names: &[&str]) -> bool
    ensures { result ≡ is_among_of (map (λ n. n.now) names.now) name.now }
{
    for other in names {
        if name == *other {
            return true;
        }
    }
    false
}

/// Whether no name stands twice.
fn are_distinct(names: &[&str]) -> bool
    ensures { result ≡ are_distinct_of (map (λ n. n.now) names.now) }
{
    for (i, name) in names.iter().enumerate() {
        if is_among(*name, &names[i + 1..]) {
            return false;
        }
    }
    true
}

/// The places of the names of several columns in an object; None of one column, of many, and of names that stand twice.
fn places_for(alloc: Global, outputs: &[Output]) -> Result<Option<Map<String, Value>>, AllocError>
    ensures { IfOk result (λ found. IfSome found (λ places. TellsOutputs (map column_view outputs.now) places.entries)) }
{
    if outputs.len() < 2 || outputs.len() > FEW {
        return Ok(None);
    }
    let names = names_of(alloc, outputs)?;
    if !are_distinct(&names) {
        return Ok(None);
    }
    let places = places_of_names(alloc, &names)?;
    Ok(Some(places))
}

/// The output columns of a table of which so many rules hit.
pub(crate) fn columns_for<'a>(
    alloc: Global,
    table: &'a Table,
    hits: usize,
) -> Result<Columns<'a>, AllocError>
    ensures lists { IfOk result (λ columns. goes_by_priority table.now.policy ≡ true → columns.lists.items ≡ listed_values table.now.outputs) }
    ensures places { IfOk result (λ columns. IfSome columns.places (λ places. TellsOutputs table.now.outputs places.entries)) }
{
    let lists = lists_for(alloc, table, hits)?;
    let places = places_for(alloc, table.outputs())?;
    Ok(Columns { lists, places })
}

/// Whether the value has no parts; false says nothing.
fn is_scalar(value: &Feel) -> bool
    ensures { IsTrue result → IsScalar value.now }
{
    match value.value() {
        FeelValue::Null | FeelValue::Bool(_) | FeelValue::Number(_) | FeelValue::Text(_) => true,
        FeelValue::List(_) | FeelValue::Context(_) => false,
    }
}

/// Whether no value has parts; false says nothing.
pub(crate) fn are_scalars(values: &[Feel]) -> bool
    ensures { IsTrue result → All IsScalar values.now }
{
    values.iter().all(|value| is_scalar(value))
}
