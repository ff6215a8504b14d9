//! Trees from their parts.

ghost use Rattle.std.specs.Prelude.{◌≡◌, IfOk, string_bytes};
ghost use Rattle.feel_text.specs.Expr as expr_specs;
ghost use Rattle.feel_text.specs.View.{view};

use crate::constant::Constant;
use crate::expr::{Operator, Tree};
use feel_value::Value;
use std::alloc::{AllocError, Global};
use std::sync::ArcStr;

/// The constant null.
pub(crate) fn null() -> Tree
    ensures { view result ≡ expr_specs.Null }
{
    match Constant::of(Value::Null) {
        Some(constant) => Tree::Constant(constant),
        None => unreachable!(),
    }
}

/// The constant `true` or `false`.
pub(crate) fn boolean(holds: bool) -> Tree
    ensures { view result ≡ expr_specs.Boolean holds }
{
    match Constant::of(Value::Bool(holds)) {
        Some(constant) => Tree::Constant(constant),
        None => unreachable!(),
    }
}

/// A number, as a constant where it is in range.
pub(crate) fn number(n: u64) -> Tree
    ensures { view result ≡ expr_specs.Number n }
{
    let Ok(whole) = i64::try_from(n) else {
        return Tree::Number(n);
    };
    match Constant::of(Value::Number(whole)) {
        Some(constant) => Tree::Constant(constant),
        None => Tree::Number(n),
    }
}

/// The constant of a text.
pub(crate) fn text(alloc: Global, text: &str) -> Result<Tree, AllocError>
    ensures { IfOk result (λ t. view t ≡ expr_specs.Text text.now) }
{
    let text = ArcStr::from_str(alloc, text)?;
    match Constant::of(Value::Text(text)) {
        Some(constant) => Ok(Tree::Constant(constant)),
        None => unreachable!(),
    }
}

/// An operator between two operands.
pub(crate) fn binary(
    alloc: Global,
    operator: Operator,
    left: Box<Tree>,
    right: Box<Tree>,
) -> Result<Box<Tree>, AllocError>
    ensures { IfOk result (λ t. view t.value ≡ expr_specs.Binary operator (view left.value) (view right.value)) }
{
    Ok(Box::new(alloc, Tree::Binary(operator, left, right))?)
}

/// The two arguments of `modulo`.
pub(crate) fn modulo(
    alloc: Global,
    left: Box<Tree>,
    right: Box<Tree>,
) -> Result<Box<Tree>, AllocError>
    ensures { IfOk result (λ t. view t.value ≡ expr_specs.Modulo (view left.value) (view right.value)) }
{
    Ok(Box::new(alloc, Tree::Modulo(left, right))?)
}

/// A value between two bounds.
pub(crate) fn between(
    alloc: Global,
    value: Box<Tree>,
    low: Box<Tree>,
    high: Box<Tree>,
) -> Result<Box<Tree>, AllocError>
    ensures { IfOk result (λ t. view t.value ≡ expr_specs.Between (view value.value) (view low.value) (view high.value)) }
{
    Ok(Box::new(alloc, Tree::Between(value, low, high))?)
}

/// A test and the two branches of a conditional.
pub(crate) fn conditional(
    alloc: Global,
    test: Box<Tree>,
    yes: Box<Tree>,
    no: Box<Tree>,
) -> Result<Box<Tree>, AllocError>
    ensures { IfOk result (λ t. view t.value ≡ expr_specs.If (view test.value) (view yes.value) (view no.value)) }
{
    Ok(Box::new(alloc, Tree::If(test, yes, no))?)
}

/// The entry of that name of a value.
pub(crate) fn path(alloc: Global, whole: Box<Tree>, name: &str) -> Result<Box<Tree>, AllocError>
    ensures { IfOk result (λ t. view t.value ≡ expr_specs.Path (view whole.value) name.now) }
{
    let name = String::from_str(alloc, name)?;
    Ok(Box::new(alloc, Tree::Path(whole, name))?)
}
