//! A rule of a table that hit.
ghost use Rattle.std.specs.Prelude.{◌≡◌, OnOk, IfSome, codes, true};
ghost use Rattle.serde_json.specs.Data.{array};
ghost use Rattle.serde_json.specs.Written.{compact_text};
ghost use Rattle.feel_value.specs.Found.{value_of};
ghost use Rattle.dmn_table.specs.Faults.{goes_by_priority};
ghost use Rattle.dmn_table.specs.Hits.{output_of};
ghost use Rattle.dmn_table.specs.Priority.{listed_values};
ghost use Rattle.json_writer.specs.Bounded.{longer};
ghost use Rattle.dmn_explain.specs.How.{hit_told, listed_told, place_told};
ghost use Rattle.dmn_explain.specs.NamedOutputs.{TellsOutputs};
ghost use Rattle.dmn_explain.specs.Numbered.{hit_view};
ghost use Rattle.dmn_explain.specs.Text.{places_text, valued_text};

use crate::asking::Hit;
use crate::columns::{Columns, are_scalars};
use crate::key::{Key, add_comma, add_key};
use crate::under_names::add_named;
use crate::value::add_valued;
use dmn_table::{Table, evaluated, listed_places};
use feel_lang::Env;
use feel_value::Feel;
use json_writer::BoundedText;
use std::alloc::{AllocError, Global};

/// Adds a place; null for none.
fn add_place(place: Option<usize>, text: &mut BoundedText) -> Result<(), AllocError>
    ensures { OnOk result (text.new ≡ longer text.old (compact_text (place_told place))) }
{
    match place {
        Some(place) => text.add_number(place as u64),
        None => text.add(b"null"),
    }
}

/// Adds the list of these places.
fn add_place_list(places: &[Option<usize>], text: &mut BoundedText) -> Result<(), AllocError>
    ensures { OnOk result (text.new ≡ longer text.old (compact_text (array (listed_told places.now)))) }
{
    let mut later = false;
    text.push(b'[')?;
    for place in places {
        if text.is_long() {
            return Ok(());
        }
        add_comma(later, text)?;
        add_place(*place, text)?;
        later = true;
    }
    text.push(b']')?;
    Ok(())
}

/// Adds the member of the places, behind another one, where the hit policy goes by them.
#[tactic(auto, using(json_writer::proofs::Longer::longer_again))]
fn add_places(
    by_priority: bool,
    places: &[Option<usize>],
    text: &mut BoundedText,
) -> Result<(), AllocError>
    ensures { OnOk result (text.new ≡ longer text.old (places_text by_priority places.now)) }
{
    if !by_priority {
        return text.add(b"");
    }
    add_key(true, Key::Places, text)?;
    add_place_list(places, text)
}

/// Adds the member of the output that these values of a rule make, or that it breaks a limit.
fn add_made(
    alloc: Global,
    table: &Table,
    values: Vec<Feel>,
    text: &mut BoundedText,
) -> Result<(), AllocError>
    ensures { OnOk result (text.new ≡ longer text.old (valued_text true (codes "value") (value_of (output_of table.now.outputs values.items)))) }
{
    let output = table.one_or_context(alloc, values)?;
    add_valued(alloc, true, Key::Value, output.value(), text)
}

/// Adds the same. Of values without parts no output is made, where the columns are several and not many.
fn add_output(
    alloc: Global,
    table: &Table,
    columns: &Columns<'_>,
    values: Vec<Feel>,
    text: &mut BoundedText,
) -> Result<(), AllocError>
    requires { IfSome columns.now.places (λ places. TellsOutputs table.now.outputs places.entries) }
    ensures { OnOk result (text.new ≡ longer text.old (valued_text true (codes "value") (value_of (output_of table.now.outputs values.items)))) }
{
    let Some(places) = &columns.places else {
        return add_made(alloc, table, values, text);
    };
    if values.len() != table.outputs().len() {
        return add_made(alloc, table, values, text);
    }
    if !are_scalars(&values) {
        return add_made(alloc, table, values, text);
    }
    add_key(true, Key::Value, text)?;
    add_named(alloc, places, &values, text)
}

/// Adds a rule that hit, with its output, and the places of its values where the hit policy goes by them.
pub(crate) fn add_hit(
    alloc: Global,
    hit: &Hit<'_>,
    table: &Table,
    columns: &Columns<'_>,
    env: &Env,
    text: &mut BoundedText,
) -> Result<(), AllocError>
    requires lists { goes_by_priority table.now.policy ≡ true → columns.now.lists.items ≡ listed_values table.now.outputs }
    requires places { IfSome columns.now.places (λ places. TellsOutputs table.now.outputs places.entries) }
    ensures { OnOk result (text.new ≡ longer text.old (compact_text (hit_told table.now env.now (hit_view hit.now)))) }
{
    text.push(b'{')?;
    add_key(false, Key::Rule, text)?;
    text.add_number(hit.number as u64)?;
    let Some(values) = evaluated(alloc, &hit.rule.gives, env)? else {
        add_valued(alloc, true, Key::Value, None, text)?;
        text.push(b'}')?;
        return Ok(());
    };
    let places = listed_places(alloc, &columns.lists, &values)?;
    add_output(alloc, table, columns, values, text)?;
    add_places(table.policy().goes_by_priority(), &places, text)?;
    text.push(b'}')?;
    Ok(())
}
