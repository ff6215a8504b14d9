//! How boxed expressions came to their outcomes.
//!
//! Each part is evaluated again where it is told, so a part that lies in others is evaluated once for each of these. Where the text
//! is long no further part is told.
ghost use Rattle.std.specs.Prelude.{◌≡◌, ◌++◌, Some, None, OnOk, IfOk, true, false, if◌then◌else◌, take, length};
ghost use Rattle.std.specs.Option.{is_none};
ghost use Rattle.serde_json.specs.Data.{array};
ghost use Rattle.serde_json.specs.Written.{compact_text, members_text};
ghost use Rattle.feel_value.specs.Found.{value_of};
ghost use Rattle.dmn_form.specs.Model.{list, context};
ghost use Rattle.dmn_logic.specs.Boxed.{boxed, entry_values as entry_values_of};
ghost use Rattle.dmn_logic.specs.Bound.{bound_behind};
ghost use Rattle.dmn_logic.specs.LogicView.{logic_view, members_view, entries_view};
ghost use Rattle.json_writer.specs.Bounded.{longer};
ghost use Rattle.dmn_explain.specs.Text.{entries_text, result_text};
ghost use Rattle.dmn_explain.specs.How.{how, told_as, named_as, members_told, entries_told};

use crate::key::{Key, add_comma, add_key};
use crate::named::add_name;
use crate::table::add_table;
use crate::value::add_valued;
use dmn_logic::{Logic, evaluate};
use feel_lang::Env;
use feel_value::Outcome;
use json_writer::BoundedText;
use std::alloc::{AllocError, Global};
use std::sync::ArcStr;

/// Adds how a boxed expression comes to its outcome, as the last members of an object, with its end.
///
/// The environment is the same afterwards, also where memory is refused. It goes as deep as the expression is.
#[cycle(add_how)]
pub(crate) fn add_how<'a>(
    alloc: Global,
    logic: &'a Logic,
    with_misses: bool,
    env: &mut Env<'a>,
    text: &mut BoundedText,
) -> Result<(), AllocError>
    ensures text { OnOk result (text.new ≡ longer text.old (members_text true (how with_misses (logic_view logic.now) env.old))) }
    ensures same { env.new ≡ env.old }
{
    match logic {
        Logic::Expression(_) => {
            text.push(b'}')?;
            Ok(())
        }
        Logic::Table(table) => {
            add_key(true, Key::Table, text)?;
            add_table(alloc, table, with_misses, env, text)?;
            text.push(b'}')?;
            Ok(())
        }
        Logic::List(members) => add_list(alloc, members, with_misses, env, text),
        Logic::Context(entries) => add_context(alloc, entries, with_misses, env, text),
        Logic::ContextWith(entries, last) => {
            let outer = env.len();
            let added = match add_entries(alloc, entries, with_misses, env, text) {
                Ok(all) => add_result(alloc, all, last, with_misses, env, text),
                Err(error) => Err(error),
            };
            env.cut(outer);
            added
        }
    }
}

/// Adds a boxed expression's value, and how it comes to that, as an object; and gives its outcome.
#[cycle(add_how)]
fn add_told<'a>(
    alloc: Global,
    logic: &'a Logic,
    with_misses: bool,
    env: &mut Env<'a>,
    text: &mut BoundedText,
) -> Result<Outcome, AllocError>
    ensures text { OnOk result (text.new ≡ longer text.old (compact_text (told_as (value_of (boxed (logic_view logic.now) env.old)) (how with_misses (logic_view logic.now) env.old)))) }
    ensures value { IfOk result (λ o. o ≡ boxed (logic_view logic.now) env.old) }
    ensures same { env.new ≡ env.old }
{
    let outcome = evaluate(alloc, logic, env)?;
    text.push(b'{')?;
    add_valued(alloc, false, Key::Value, outcome.value(), text)?;
    add_how(alloc, logic, with_misses, env, text)?;
    Ok(outcome)
}

/// Adds the members of a list as the last member of an object, with its end.
#[cycle(add_how)]
fn add_list<'a>(
    alloc: Global,
    members: &'a [Logic],
    with_misses: bool,
    env: &mut Env<'a>,
    text: &mut BoundedText,
) -> Result<(), AllocError>
    ensures text { OnOk result (text.new ≡ longer text.old (members_text true (how with_misses (list (members_view members.now)) env.old))) }
    ensures same { env.new ≡ env.old }
{
    add_key(true, Key::Members, text)?;
    add_members(alloc, members, with_misses, env, text)?;
    text.push(b'}')?;
    Ok(())
}

/// Adds the members of a list, up to the first that breaks a limit.
#[cycle(add_how)]
fn add_members<'a>(
    alloc: Global,
    members: &'a [Logic],
    with_misses: bool,
    env: &mut Env<'a>,
    text: &mut BoundedText,
) -> Result<(), AllocError>
    ensures text { OnOk result (text.new ≡ longer text.old (compact_text (array (members_told with_misses (members_view members.now) env.old)))) }
    ensures same { env.new ≡ env.old }
{
    let mut later = false;
    text.push(b'[')?;
    for member in members {
        if text.is_long() {
            return Ok(());
        }
        add_comma(later, text)?;
        let Outcome::Is(_) = add_told(alloc, member, with_misses, env, text)? else {
            text.push(b']')?;
            return Ok(());
        };
        later = true;
    }
    text.push(b']')?;
    Ok(())
}

/// Adds the entries of a context as the last member of an object, with its end.
#[cycle(add_how)]
fn add_context<'a>(
    alloc: Global,
    entries: &'a [(ArcStr, Logic)],
    with_misses: bool,
    env: &mut Env<'a>,
    text: &mut BoundedText,
) -> Result<(), AllocError>
    ensures text { OnOk result (text.new ≡ longer text.old (members_text true (how with_misses (context (entries_view entries.now)) env.old))) }
    ensures same { env.new ≡ env.old }
{
    let outer = env.len();
    let all = add_entries(alloc, entries, with_misses, env, text);
    env.cut(outer);
    let _ = all?;
    text.push(b'}')?;
    Ok(())
}

/// Ends the object of a context behind its entries: with its result, where all of them have values.
#[cycle(add_how)]
fn add_result<'a>(
    alloc: Global,
    all: bool,
    last: &'a Logic,
    with_misses: bool,
    env: &mut Env<'a>,
    text: &mut BoundedText,
) -> Result<(), AllocError>
    ensures text { OnOk result (text.new ≡ longer text.old (result_text with_misses all (logic_view last.now) env.old)) }
    ensures same { env.new ≡ env.old }
{
    if !all {
        text.push(b'}')?;
        return Ok(());
    }
    add_key(true, Key::Result, text)?;
    add_told(alloc, last, with_misses, env, text)?;
    text.push(b'}')?;
    Ok(())
}

/// Adds the member of a context's entries, up to the first that breaks a limit; false where one does, and where the text is long.
/// The entries stay bound behind the outer names.
#[cycle(add_how)]
fn add_entries<'a>(
    alloc: Global,
    entries: &'a [(ArcStr, Logic)],
    with_misses: bool,
    env: &mut Env<'a>,
    text: &mut BoundedText,
) -> Result<bool, AllocError>
    ensures text { OnOk result (text.new ≡ longer text.old (entries_text (entries_told with_misses (entries_view entries.now) env.old))) }
    ensures bound { IfOk result (λ all. is_none text.new ≡ false → bound_behind env.old (entry_values_of (entries_view entries.now) env.old) ≡ (if all then Some env.new else None)) }
    ensures outer { take (length env.old) env.new ≡ env.old }
{
    add_key(true, Key::Entries, text)?;
    text.push(b'[')?;
    let mut later = false;
    for (name, logic) in entries {
        if text.is_long() {
            return Ok(false);
        }
        add_comma(later, text)?;
        let Outcome::Is(value) = add_entry(alloc, name.as_str(), logic, with_misses, env, text)?
        else {
            text.push(b']')?;
            return Ok(false);
        };
        env.bind_lent(name.as_str(), value)?;
        later = true;
    }
    text.push(b']')?;
    Ok(true)
}

/// Adds an entry of a context with its name, its value and how it comes to that; and gives its outcome.
#[cycle(add_how)]
fn add_entry<'a>(
    alloc: Global,
    name: &str,
    logic: &'a Logic,
    with_misses: bool,
    env: &mut Env<'a>,
    text: &mut BoundedText,
) -> Result<Outcome, AllocError>
    ensures text { OnOk result (text.new ≡ longer text.old (compact_text (named_as name.now (value_of (boxed (logic_view logic.now) env.old)) (how with_misses (logic_view logic.now) env.old)))) }
    ensures value { IfOk result (λ o. o ≡ boxed (logic_view logic.now) env.old) }
    ensures same { env.new ≡ env.old }
{
    let outcome = evaluate(alloc, logic, env)?;
    add_name(alloc, name, text)?;
    add_valued(alloc, true, Key::Value, outcome.value(), text)?;
    add_how(alloc, logic, with_misses, env, text)?;
    Ok(outcome)
}
