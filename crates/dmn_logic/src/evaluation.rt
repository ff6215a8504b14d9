//! What boxed expressions come to.
ghost use Rattle.std.specs.Prelude.{◌≡◌, Some, None, IfOk, if◌then◌else◌, take, length};
ghost use Rattle.dmn_form.specs.Model.{list, context};
ghost use Rattle.feel_text.specs.Meaning.{den};
ghost use Rattle.dmn_logic.specs.Boxed.{boxed, entry_values as entry_values_of};
ghost use Rattle.dmn_logic.specs.LogicView.{logic_view, members_view, entries_view};
ghost use Rattle.dmn_logic.specs.Bound.{bound_behind};

use crate::logic::Logic;
use dmn_table::decide;
use feel_lang::{Env, Expr, eval};
use feel_value::{ContextEntries, Members, Outcome};
use std::alloc::{AllocError, Global};
use std::sync::ArcStr;

/// The outcome of a boxed expression, where names have the values that the environment gives them.
///
/// Every member of a list, every entry of a context and its result is evaluated until one breaks a limit, or, in a list and in a
/// context without a result, until the values are too many for one. The environment is the same afterwards, also where memory is
/// refused: what entries bind is cut off again. Names are shared with the expression, and not copied. It goes as deep as the expression
/// is.
#[cycle(evaluate)]
pub fn evaluate<'a>(
    alloc: Global,
    logic: &'a Logic,
    env: &mut Env<'a>,
) -> Result<Outcome, AllocError>
    ensures value { IfOk result (λ o. o ≡ boxed (logic_view logic.now) env.old) }
    ensures same { env.new ≡ env.old }
{
    match logic {
        Logic::Expression(expression) => expression_outcome(alloc, expression, env),
        Logic::Table(table) => decide(alloc, table, env),
        Logic::List(members) => {
            let outcome = list_outcome(alloc, members, env)?;
            Ok(outcome)
        }
        Logic::Context(entries) => {
            let outcome = context_outcome(alloc, entries, env)?;
            Ok(outcome)
        }
        Logic::ContextWith(entries, last) => {
            let outer = env.len();
            let outcome = match bind_entries(alloc, entries, env) {
                Ok(true) => evaluate(alloc, last, env),
                Ok(false) => Ok(Outcome::Limit),
                Err(error) => Err(error),
            };
            env.cut(outer);
            outcome
        }
    }
}

/// The outcome of a FEEL expression. A literal is its value, whatever names are bound to.
fn expression_outcome(alloc: Global, expression: &Expr, env: &Env) -> Result<Outcome, AllocError>
    ensures { IfOk result (λ o. o ≡ den expression.now env.now) }
{
    match expression.constant() {
        Some(value) => Ok(Outcome::Is(value.try_clone()?)),
        None => eval(alloc, expression, env),
    }
}

/// The outcome of a list, whose evaluation ends where its values are too many for one.
#[cycle(evaluate)]
fn list_outcome<'a>(
    alloc: Global,
    members: &'a [Logic],
    env: &mut Env<'a>,
) -> Result<Outcome, AllocError>
    ensures value { IfOk result (λ o. o ≡ boxed (list (members_view members.now)) env.old) }
    ensures same { env.new ≡ env.old }
{
    let mut values = Members::new(alloc);
    for member in members {
        let Outcome::Is(value) = evaluate(alloc, member, env)? else {
            return Ok(Outcome::Limit);
        };
        if !values.push(value)? {
            return Ok(Outcome::Limit);
        }
    }
    Ok(Outcome::Is(values.into_list(alloc)?))
}

/// The outcome of a context without a result.
#[cycle(evaluate)]
fn context_outcome<'a>(
    alloc: Global,
    entries: &'a [(ArcStr, Logic)],
    env: &mut Env<'a>,
) -> Result<Outcome, AllocError>
    ensures value { IfOk result (λ o. o ≡ boxed (context (entries_view entries.now)) env.old) }
    ensures same { env.new ≡ env.old }
{
    let before = env.len();
    let outcome = entries_outcome(alloc, entries, env);
    env.cut(before);
    outcome
}

/// The same, whose entries stay bound behind the outer names. It ends where the values are too many for a context.
#[cycle(evaluate)]
fn entries_outcome<'a>(
    alloc: Global,
    entries: &'a [(ArcStr, Logic)],
    env: &mut Env<'a>,
) -> Result<Outcome, AllocError>
    ensures value { IfOk result (λ o. o ≡ boxed (context (entries_view entries.now)) env.old) }
    ensures outer { take (length env.old) env.new ≡ env.old }
{
    let mut values = ContextEntries::new(alloc);
    for (name, logic) in entries {
        let Outcome::Is(value) = evaluate(alloc, logic, env)? else {
            return Ok(Outcome::Limit);
        };
        if !values.push(name.clone()?, value.try_clone()?)? {
            return Ok(Outcome::Limit);
        }
        env.bind_lent(name.as_str(), value)?;
    }
    values.into_context(alloc)
}

/// Binds the entries of a context, each to its value, behind the outer names; false where one breaks a limit.
#[cycle(evaluate)]
fn bind_entries<'a>(
    alloc: Global,
    entries: &'a [(ArcStr, Logic)],
    env: &mut Env<'a>,
) -> Result<bool, AllocError>
    ensures bound { IfOk result (λ all. bound_behind env.old (entry_values_of (entries_view entries.now) env.old) ≡ (if all then Some env.new else None)) }
    ensures outer { take (length env.old) env.new ≡ env.old }
{
    for (name, logic) in entries {
        let Outcome::Is(value) = evaluate(alloc, logic, env)? else {
            return Ok(false);
        };
        env.bind_lent(name.as_str(), value)?;
    }
    Ok(true)
}
