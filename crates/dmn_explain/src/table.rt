//! What a decision table found.
ghost use Rattle.std.specs.Prelude.{◌≡◌, OnOk, IfOk, Some, length, map, option_map, true};
ghost use Rattle.serde_json.specs.Data.{array, boolean, object};
ghost use Rattle.serde_json.specs.Written.{compact_text, members_text};
ghost use Rattle.feel_value.specs.Datum.{list, items_of};
ghost use Rattle.feel_value.specs.Json.{json_of};
ghost use Rattle.dmn_table.specs.Parts.{have_entries};
ghost use Rattle.json_writer.specs.Bounded.{longer};
ghost use Rattle.dmn_explain.specs.How.{decided_by as decided_by_of, hits_then, hits_told, misses_if, numbers_told, table_told, takes_defaults};
ghost use Rattle.dmn_explain.specs.Numbered.{hit_view, asked_view};
ghost use Rattle.dmn_explain.specs.Text.{decided_text};

use crate::asking::{Asked, Hit, ask_rules, numbers_of, rules_of};
use crate::columns::columns_for;
use crate::hit::add_hit;
use crate::key::{Key, add_comma, add_key};
use crate::misses::add_misses;
use dmn_table::{Table, deciding, evaluated, has_no_default};
use feel_lang::Env;
use feel_value::Feel;
use json_writer::BoundedText;
use std::alloc::{AllocError, Global};

/// Adds the list of these values.
fn add_values(alloc: Global, values: &[Feel], text: &mut BoundedText) -> Result<(), AllocError>
    ensures { OnOk result (text.new ≡ longer text.old (compact_text (json_of (list (items_of values.now))))) }
{
    let mut later = false;
    text.push(b'[')?;
    for value in values {
        if text.is_long() {
            return Ok(());
        }
        add_comma(later, text)?;
        text.add_value(alloc, value)?;
        later = true;
    }
    text.push(b']')?;
    Ok(())
}

/// Adds the list of these rules that hit.
fn add_hits(
    alloc: Global,
    hits: &[Hit<'_>],
    table: &Table,
    env: &Env,
    text: &mut BoundedText,
) -> Result<(), AllocError>
    ensures { OnOk result (text.new ≡ longer text.old (compact_text (array (hits_told table.now env.now (map hit_view hits.now))))) }
{
    let columns = columns_for(alloc, table, hits.len())?;
    let mut later = false;
    text.push(b'[')?;
    for hit in hits {
        if text.is_long() {
            return Ok(());
        }
        add_comma(later, text)?;
        add_hit(alloc, hit, table, &columns, env, text)?;
        later = true;
    }
    text.push(b']')?;
    Ok(())
}

/// Whether the defaults stand in for these hits.
fn are_default(table: &Table, hits: &[Hit<'_>]) -> bool
    ensures { result ≡ takes_defaults table.now.outputs (map hit_view hits.now) }
{
    hits.is_empty() && !has_no_default(table.outputs())
}

/// Adds a boolean.
fn add_bool(truth: bool, text: &mut BoundedText) -> Result<(), AllocError>
    ensures { OnOk result (text.new ≡ longer text.old (compact_text (boolean truth))) }
{
    if truth {
        text.add(b"true")
    } else {
        text.add(b"false")
    }
}

/// The numbers of those of these rules that make the result; None where the output of one breaks a limit.
fn decided_by(
    alloc: Global,
    hits: &[Hit<'_>],
    table: &Table,
    env: &Env,
) -> Result<Option<Vec<usize>>, AllocError>
    requires { have_entries (length table.now.outputs) (map (λ h. h.1) (map hit_view hits.now)) ≡ true }
    ensures { IfOk result (λ found. option_map (λ v. v.items) found ≡ decided_by_of table.now env.now (map hit_view hits.now)) }
{
    let numbers = numbers_of(alloc, hits)?;
    let rules = rules_of(alloc, hits)?;
    let found = deciding(alloc, table, &rules, &numbers, env)?;
    Ok(found)
}

/// Adds the list of these numbers.
fn add_numbers(numbers: &[usize], text: &mut BoundedText) -> Result<(), AllocError>
    ensures { OnOk result (text.new ≡ longer text.old (compact_text (array (numbers_told numbers.now)))) }
{
    let mut later = false;
    text.push(b'[')?;
    for number in numbers {
        if text.is_long() {
            return Ok(());
        }
        add_comma(later, text)?;
        text.add_number(*number as u64)?;
        later = true;
    }
    text.push(b']')?;
    Ok(())
}

/// Adds the member of the rules that make the result, behind another one; nothing where the output of a hit breaks a limit.
fn add_decided(
    alloc: Global,
    hits: &[Hit<'_>],
    table: &Table,
    env: &Env,
    text: &mut BoundedText,
) -> Result<(), AllocError>
    requires { have_entries (length table.now.outputs) (map (λ h. h.1) (map hit_view hits.now)) ≡ true }
    ensures { OnOk result (text.new ≡ longer text.old (decided_text (decided_by_of table.now env.now (map hit_view hits.now)))) }
{
    let Some(numbers) = decided_by(alloc, hits, table, env)? else {
        return text.add(b"");
    };
    add_key(true, Key::Decided, text)?;
    add_numbers(&numbers, text)
}

/// Adds what asking the rules found, as the last members of an object, with its end: the rules that hit, whether the defaults
/// stand in for them, which of them make the result, and the misses where these are asked for.
fn add_found(
    alloc: Global,
    asked: &Asked<'_>,
    with_misses: bool,
    table: &Table,
    env: &Env,
    text: &mut BoundedText,
) -> Result<(), AllocError>
    requires { have_entries (length table.now.outputs) (map (λ h. h.1) (asked_view asked.now).0) ≡ true }
    ensures { OnOk result (text.new ≡ longer text.old (members_text true (hits_then table.now env.now (misses_if with_misses (Some (asked_view asked.now).1)) (asked_view asked.now).0))) }
{
    add_key(true, Key::Hits, text)?;
    add_hits(alloc, &asked.hits, table, env, text)?;
    add_key(true, Key::Defaults, text)?;
    add_bool(are_default(table, &asked.hits), text)?;
    add_decided(alloc, &asked.hits, table, env, text)?;
    add_misses(with_misses, &asked.misses, text)?;
    text.push(b'}')?;
    Ok(())
}

/// Adds what a table found: its hit policy, its input values, the rules that hit with their outputs, whether the defaults stand in
/// for them, and which of them make the result; and the rules that missed, where these are asked for. It ends before the first of
/// these that breaks a limit.
pub(crate) fn add_table(
    alloc: Global,
    table: &Table,
    with_misses: bool,
    env: &Env,
    text: &mut BoundedText,
) -> Result<(), AllocError>
    ensures { OnOk result (text.new ≡ longer text.old (compact_text (object (table_told with_misses table.now env.now)))) }
{
    text.push(b'{')?;
    add_key(false, Key::Policy, text)?;
    text.add_quoted(alloc, table.policy().text())?;
    let Some(values) = evaluated(alloc, table.inputs(), env)? else {
        text.push(b'}')?;
        return Ok(());
    };
    add_key(true, Key::Inputs, text)?;
    add_values(alloc, &values, text)?;
    let some = table.may_hit(alloc, &values)?;
    let Some(asked) = ask_rules(alloc, table.rules(), &some, &values, with_misses, env)? else {
        text.push(b'}')?;
        return Ok(());
    };
    add_found(alloc, &asked, with_misses, table, env, text)
}
