//! The evaluation of expressions.
ghost use Rattle.std.specs.Prelude.{◌≡◌, IfOk, unwrap_or, string_bytes};
ghost use Rattle.feel_value.specs.Datum.{null as null_value};
ghost use Rattle.feel_value.specs.Outcome.{held};
ghost use Rattle.feel_value.specs.declared.feel.Outcome.TheVariants.{Is};
ghost use Rattle.feel_text.specs.Expr as expr_specs;
ghost use Rattle.feel_text.specs.Meaning.{den, dens, bound, list_held, with_value, path_of};
ghost use Rattle.feel_eval.specs.Operands.{met_of, outcome_of};
ghost use Rattle.feel_text.specs.View.{view, views};

use crate::env::Env;
use crate::eval_calls::call;
use crate::eval_operators::{between, inverted, modulo, negated, operation};
use crate::eval_outcome::{null, number};
use crate::eval_paths::entry;
use crate::operands::{Operand, Operands, formed, kept};
use crate::scalar::{Scalar, scalar_value};
use feel_text::{Reference, Tree};
use feel_value::{Members, Outcome, Part, Truth};
use std::alloc::{AllocError, Global};

/// The value of an expression, where names have the values that the environment gives them, and null where it has none; or that
/// a limit is broken. Every part is evaluated but the branch of an `if` that isn't taken. A bound value is copied only where the result
/// keeps it. The only error is that memory was refused.
#[cycle(eval)]
pub(crate) fn eval(alloc: Global, expr: &Tree, env: &Env) -> Result<Outcome, AllocError>
    ensures { IfOk result (λ o. o ≡ den (view expr.now) env.now) }
{
    match scalar_value(expr, env) {
        Scalar::Number(n) => Ok(Outcome::number(n)),
        Scalar::Yes => Ok(Outcome::truth(Truth::Yes)),
        Scalar::No => Ok(Outcome::truth(Truth::No)),
        Scalar::Unknown => Ok(Outcome::truth(Truth::Unknown)),
        Scalar::Other => evaluated(alloc, expr, env),
    }
}

// The value of an expression of any kind.
#[inline(never)]
#[cycle(eval)]
fn evaluated(alloc: Global, expr: &Tree, env: &Env) -> Result<Outcome, AllocError>
    ensures { IfOk result (λ o. o ≡ den (view expr.now) env.now) }
{
    let operand = operand(alloc, expr, &*env)?;
    kept(operand)
}

// The value of an operand, which is looked at and not kept. None where a limit is broken.
#[cycle(eval)]
pub(crate) fn operand<'a>(
    alloc: Global,
    expr: &'a Tree,
    env: &'a Env,
) -> Result<Option<Operand<'a>>, AllocError>
    ensures { IfOk result (λ o. outcome_of o ≡ den (view expr.now) env.now) }
{
    match expr {
        Tree::Constant(constant) => Ok(Some(Operand::Lent(Part::of(constant.value())))),
        Tree::Number(n) => Ok(formed(number(i64::try_from(*n).ok()))),
        Tree::Name(reference) => Ok(named(reference, env)),
        Tree::Group(inner) => operand(alloc, inner, env),
        Tree::List(exprs) => Ok(formed(list(alloc, exprs, env)?)),
        Tree::Call(function, argument) => {
            Ok(formed(call(*function, operand(alloc, argument, env)?)))
        }
        Tree::Modulo(left, right) => Ok(formed(modulo(operands(alloc, left, right, env)?))),
        Tree::Not(inner) => Ok(formed(inverted(operand(alloc, inner, env)?))),
        Tree::Negate(inner) => Ok(formed(negated(operand(alloc, inner, env)?))),
        Tree::Path(inner, name) => match operand(alloc, inner, env)? {
            Some(whole) => entry(alloc, whole, name.as_str()),
            None => Ok(None),
        },
        Tree::Binary(operator, left, right) => Ok(formed(operation(
            *operator,
            operands(alloc, left, right, env)?,
        ))),
        Tree::Between(value, low, high) => {
            Ok(formed(lies_between(alloc, value, low, high, env)?))
        }
        Tree::If(test, yes, no) => match is_met(alloc, test, env)? {
            Some(true) => operand(alloc, yes, env),
            Some(false) => operand(alloc, no, env),
            None => Ok(None),
        },
    }
}

// Whether the test of an `if` is true. None where a limit is broken.
#[cycle(eval)]
fn is_met(alloc: Global, test: &Tree, env: &Env) -> Result<Option<bool>, AllocError>
    ensures { IfOk result (λ o. o ≡ met_of (den (view test.now) env.now)) }
{
    match operand(alloc, test, &*env)? {
        Some(test) => Ok(Some(test.value().truth() == Truth::Yes)),
        None => Ok(None),
    }
}

// The values of two operands, the left one first.
#[cycle(eval)]
fn operands<'a>(
    alloc: Global,
    left: &'a Tree,
    right: &'a Tree,
    env: &'a Env,
) -> Result<Operands<'a>, AllocError>
    ensures left { IfOk result (λ o. outcome_of o.0 ≡ den (view left.now) env.now) }
    ensures right { IfOk result (λ o. outcome_of o.1 ≡ den (view right.now) env.now) }
{
    let left = operand(alloc, left, env)?;
    Ok((left, operand(alloc, right, env)?))
}

// Whether a value lies between two others.
#[inline(never)]
#[cycle(eval)]
fn lies_between(
    alloc: Global,
    value: &Tree,
    low: &Tree,
    high: &Tree,
    env: &Env,
) -> Result<Outcome, AllocError>
    ensures { IfOk result (λ o. o ≡ den (expr_specs.Between (view value.now) (view low.now) (view high.now)) env.now) }
{
    let value = operand(alloc, value, &*env)?;
    let bounds = operands(alloc, low, high, &*env)?;
    Ok(between(value, bounds))
}

// The value of a name; null where it has none.
fn named<'a>(reference: &Reference, env: &'a Env) -> Option<Operand<'a>>
    ensures { outcome_of result ≡ Is (unwrap_or (bound reference.now.name env.now) null_value) }
{
    match env.find_at(reference) {
        Some(value) => Some(Operand::Lent(Part::of(value))),
        None => formed(null()),
    }
}

// A list of expressions, whose evaluation ends where its values are too many for one.
#[inline(never)]
#[cycle(eval)]
fn list(alloc: Global, exprs: &[Tree], env: &Env) -> Result<Outcome, AllocError>
    ensures { IfOk result (λ o. o ≡ list_held (dens (views exprs.now) env.now)) }
{
    let mut members = Members::new(alloc);
    for expr in exprs {
        let Outcome::Is(value) = eval(alloc, expr, env)? else {
            return Ok(Outcome::Limit);
        };
        if !members.push(value)? {
            return Ok(Outcome::Limit);
        }
    }
    Ok(Outcome::Is(members.into_list(alloc)?))
}
