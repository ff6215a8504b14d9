//! Paths into contexts and lists.
ghost use Rattle.std.specs.Prelude.{◌≡◌, IfOk};
ghost use Rattle.feel_value.specs.Datum.{list as list_of};
ghost use Rattle.feel_value.specs.Outcome.{held};
ghost use Rattle.feel_value.specs.View.{datum_of, items_view};
ghost use Rattle.feel_text.specs.Meaning.{path_of, paths_of};
ghost use Rattle.feel_eval.specs.Operands.{operand_value, outcome_of};

use crate::operands::{Operand, formed};
use feel_value::{Outcome, Part, Value};
use std::alloc::{AllocError, Global};

// The entry of that name; of a list the list of its members' entries; otherwise null.
#[cycle(path)]
pub(crate) fn path(alloc: Global, value: &Value, name: &str) -> Result<Value, AllocError>
    ensures { IfOk result (λ v. datum_of v ≡ path_of name.now (datum_of value.now)) }
{
    match value {
        Value::Context(_) => match value.entry(name) {
            Some(entry) => entry.try_clone(),
            None => Ok(Value::Null),
        },
        Value::List(list) => list_path(alloc, value, list.values(), name),
        _ => Ok(Value::Null),
    }
}

// The same of a list with these items. An empty one is shared, and not formed again.
#[cycle(path)]
#[tactic(auto, using(crate::proofs::Paths::path_of_empty))]
fn list_path(alloc: Global, list: &Value, items: &[Value], name: &str) -> Result<Value, AllocError>
    requires { datum_of list.now ≡ list_of (items_view items.now) }
    ensures { IfOk result (λ v. datum_of v ≡ path_of name.now (list_of (items_view items.now))) }
{
    if items.is_empty() {
        return list.try_clone();
    }
    let values = paths(alloc, items, name)?;
    Value::list(alloc, values)
}

#[cycle(path)]
fn paths(alloc: Global, items: &[Value], name: &str) -> Result<Vec<Value>, AllocError>
    ensures { IfOk result (λ v. items_view v.items ≡ paths_of name.now (items_view items.now)) }
{
    let mut values = Vec::with_capacity(alloc, items.len())?;
    for item in items {
        values.push(path(alloc, item, name)?)?;
    }
    Ok(values)
}

// The path from an operand. An entry of a value that is lent is lent too.
#[inline(never)]
pub(crate) fn entry<'a>(
    alloc: Global,
    whole: Operand<'a>,
    name: &str,
) -> Result<Option<Operand<'a>>, AllocError>
    ensures { IfOk result (λ o. outcome_of o ≡ held (path_of name.now (operand_value whole.entry))) }
{
    match whole {
        Operand::Lent(part) => entry_of_part(alloc, part, name),
        Operand::Formed(value) => Ok(formed(Outcome::of(path(alloc, value.value(), name)?))),
    }
}

#[tactic(auto, using(crate::proofs::Paths::entry_held))]
fn entry_of_part<'a>(
    alloc: Global,
    part: Part<'a>,
    name: &str,
) -> Result<Option<Operand<'a>>, AllocError>
    ensures { IfOk result (λ o. outcome_of o ≡ held (path_of name.now part.entry)) }
{
    if let Some(entry) = part.entry(name) {
        return Ok(Some(Operand::Lent(entry)));
    }
    Ok(formed(Outcome::of(path(alloc, part.value(), name)?)))
}
