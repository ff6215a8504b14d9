//! The evaluation of expressions whose parts are numbers and truth values: nothing is formed, kept or copied for these.
ghost use Rattle.std.specs.Prelude.{◌≡◌, true, pos, ◌-ℤ◌, unwrap_or, string_bytes, IfSome};
ghost use Rattle.feel_value.specs.Datum.{null as null_value, number as number_datum};
ghost use Rattle.feel_value.specs.Logic.{truth_datum, truth_of, not_of};
ghost use Rattle.feel_value.specs.Outcome.{held};
ghost use Rattle.feel_value.specs.declared.feel.Outcome.{Outcome};
ghost use Rattle.feel_value.specs.declared.feel.Outcome.TheVariants.{Is};
ghost use Rattle.feel_text.specs.Expr as expr_specs;
ghost use Rattle.feel_text.specs.Meaning.{den, bound, with_value, with_values, of_number, operation as operation_of, modulo as modulo_is, modulo_of, between_of};
ghost use Rattle.feel_eval.specs.Numbers.{number_outcome};
ghost use Rattle.feel_eval.specs.Scalars.{IsScalar};
ghost use Rattle.feel_text.specs.View.{view};

use crate::env::Env;
use feel_text::{Operator, Reference, Tree};
use feel_value::{Feel, Truth, Value, and3, decided, not3, or3};

/// A number in range, or a truth value. `Other` says nothing: what it stands for was not evaluated.
///
/// The truth values are variants of their own, so that a scalar fits two registers.
#[derive(Clone, Copy)]
pub(crate) enum Scalar {
    Number(i64),
    Yes,
    No,
    Unknown,
    Other,
}

/// The value of an expression, where it and all its parts are numbers and truth values. It ends at the first part that is none.
#[cycle(scalar)]
pub(crate) fn scalar_value(expr: &Tree, env: &Env) -> Scalar
    ensures { IsScalar result (den (view expr.now) env.now) }
{
    match expr {
        Tree::Constant(constant) => of_value(constant.value()),
        Tree::Name(reference) => named(reference, env),
        Tree::Group(inner) => scalar_value(inner, env),
        Tree::Binary(operator, left, right) => binary(*operator, left, right, env),
        Tree::Modulo(left, right) => remainder(left, right, env),
        Tree::If(test, yes, no) => branch(test, yes, no, env),
        Tree::Not(inner) => inverted(scalar_value(inner, env)),
        Tree::Negate(inner) => negated(scalar_value(inner, env)),
        Tree::Between(value, low, high) => lies_between(value, low, high, env),
        _ => Scalar::Other,
    }
}

#[cycle(scalar)]
fn binary(operator: Operator, left: &Tree, right: &Tree, env: &Env) -> Scalar
    ensures { IsScalar result (den (expr_specs.Binary operator (view left.now) (view right.now)) env.now) }
{
    let left = operand(left, env);
    if is_other(left) {
        return Scalar::Other;
    }
    operation(operator, left, operand(right, env))
}

#[cycle(scalar)]
fn remainder(left: &Tree, right: &Tree, env: &Env) -> Scalar
    ensures { IsScalar result (den (expr_specs.Modulo (view left.now) (view right.now)) env.now) }
{
    let left = operand(left, env);
    if is_other(left) {
        return Scalar::Other;
    }
    modulo(left, operand(right, env))
}

// The branch of an `if` that its test takes.
#[cycle(scalar)]
fn branch(test: &Tree, yes: &Tree, no: &Tree, env: &Env) -> Scalar
    ensures { IsScalar result (den (expr_specs.If (view test.now) (view yes.now) (view no.now)) env.now) }
{
    match scalar_value(test, env) {
        Scalar::Yes => scalar_value(yes, env),
        Scalar::No | Scalar::Unknown => scalar_value(no, env),
        _ => Scalar::Other,
    }
}

#[cycle(scalar)]
fn lies_between(value: &Tree, low: &Tree, high: &Tree, env: &Env) -> Scalar
    ensures { IsScalar result (den (expr_specs.Between (view value.now) (view low.now) (view high.now)) env.now) }
{
    let value = scalar_value(value, env);
    if is_other(value) {
        return Scalar::Other;
    }
    between(value, scalar_value(low, env), scalar_value(high, env))
}

// The value of an operand. Most are constants or names, which take no call.
#[cycle(scalar)]
#[inline(always)]
fn operand(expr: &Tree, env: &Env) -> Scalar
    ensures { IsScalar result (den (view expr.now) env.now) }
{
    match leaf(expr, env) {
        Some(value) => value,
        None => scalar_value(expr, env),
    }
}

// The value of a constant or a name; None of any other expression.
#[inline(always)]
fn leaf(expr: &Tree, env: &Env) -> Option<Scalar>
    ensures { IfSome result (λ value. IsScalar value (den (view expr.now) env.now)) }
{
    match expr {
        Tree::Constant(constant) => Some(of_value(constant.value())),
        Tree::Name(reference) => Some(named(reference, env)),
        _ => None,
    }
}

fn is_other(scalar: Scalar) -> bool {
    matches!(scalar, Scalar::Other)
}

// A truth value.
fn of_truth(truth: Truth) -> Scalar
    ensures { IsScalar result (Is (truth_datum truth)) }
{
    match truth {
        Truth::Yes => Scalar::Yes,
        Truth::No => Scalar::No,
        Truth::Unknown => Scalar::Unknown,
    }
}

// The truth value of an operand that is one.
fn truth_in(operand: Scalar) -> Option<Truth>
    ensures { IfSome result (λ t. (a : Outcome) → IsScalar operand a → a ≡ Is (truth_datum t)) }
{
    match operand {
        Scalar::Yes => Some(Truth::Yes),
        Scalar::No => Some(Truth::No),
        Scalar::Unknown => Some(Truth::Unknown),
        _ => None,
    }
}

// The scalar that a value is.
fn of_value(value: &Feel) -> Scalar
    ensures { IsScalar result (Is value.now) }
{
    match value.value() {
        Value::Number(n) => Scalar::Number(*n),
        Value::Bool(holds) => of_truth(decided(*holds)),
        Value::Null => Scalar::Unknown,
        _ => Scalar::Other,
    }
}

// The value of a name; null where it has none.
fn named(reference: &Reference, env: &Env) -> Scalar
    ensures { IsScalar result (Is (unwrap_or (bound reference.now.name env.now) null_value)) }
{
    match env.find_at(reference) {
        Some(value) => of_value(value),
        None => Scalar::Unknown,
    }
}

// A number that was formed, where it is in range.
fn number(n: Option<i64>) -> Scalar
    ensures { IsScalar result (number_outcome n) }
{
    match n {
        Some(n) => in_range(n),
        None => Scalar::Other,
    }
}

fn in_range(n: i64) -> Scalar
    ensures { IsScalar result (held (number_datum n)) }
{
    if n == i64::MIN {
        return Scalar::Other;
    }
    Scalar::Number(n)
}

// An operator between two operands.
fn operation(operator: Operator, left: Scalar, right: Scalar) -> Scalar
    ensures { (a b : Outcome) → IsScalar left a → IsScalar right b → IsScalar result (with_values a b (λ d e. held (operation_of operator d e))) }
{
    match (left, right) {
        (Scalar::Number(x), Scalar::Number(y)) => of_numbers(operator, x, y),
        _ => between_truths(operator, left, right),
    }
}

fn between_truths(operator: Operator, left: Scalar, right: Scalar) -> Scalar
    ensures { (a b : Outcome) → IsScalar left a → IsScalar right b → IsScalar result (with_values a b (λ d e. held (operation_of operator d e))) }
{
    let (Some(s), Some(t)) = (truth_in(left), truth_in(right)) else {
        return Scalar::Other;
    };
    of_truths(operator, s, t)
}

fn of_numbers(operator: Operator, x: i64, y: i64) -> Scalar
    ensures { IsScalar result (held (operation_of operator (number_datum x) (number_datum y))) }
{
    match operator {
        Operator::Or | Operator::And => Scalar::Other,
        Operator::Equal => of_truth(decided(x == y)),
        Operator::NotEqual => of_truth(not3(decided(x == y))),
        Operator::Less => of_truth(decided(x < y)),
        Operator::LessEqual => of_truth(not3(decided(y < x))),
        Operator::Greater => of_truth(decided(y < x)),
        Operator::GreaterEqual => of_truth(not3(decided(x < y))),
        Operator::Add => number(x.checked_add(y)),
        Operator::Subtract => number(x.checked_sub(y)),
        Operator::Multiply => number(x.checked_mul(y)),
    }
}

fn of_truths(operator: Operator, s: Truth, t: Truth) -> Scalar
    ensures { IsScalar result (held (operation_of operator (truth_datum s) (truth_datum t))) }
{
    match operator {
        Operator::Or => of_truth(or3(s, t)),
        Operator::And => of_truth(and3(s, t)),
        _ => Scalar::Other,
    }
}

// What is left of one number by another that is positive.
fn modulo(left: Scalar, right: Scalar) -> Scalar
    ensures { (a b : Outcome) → IsScalar left a → IsScalar right b → IsScalar result (with_values a b (λ d e. held (modulo_of d e))) }
{
    match (left, right) {
        (Scalar::Number(x), Scalar::Number(y)) => left_by(x, y),
        _ => Scalar::Other,
    }
}

fn left_by(x: i64, y: i64) -> Scalar
    ensures { IsScalar result (held (modulo_is x y)) }
{
    if y <= 0 {
        return Scalar::Other;
    }
    in_range(x.rem_euclid(y))
}

// The number with its sign turned.
fn negated(operand: Scalar) -> Scalar
    ensures { (a : Outcome) → IsScalar operand a → IsScalar result (with_value a (λ d. held (of_number (λ x. number_datum (pos 0 -ℤ x)) d))) }
{
    match operand {
        Scalar::Number(x) => number(x.checked_neg()),
        _ => Scalar::Other,
    }
}

// Whether the operand isn't true.
fn inverted(operand: Scalar) -> Scalar
    ensures { (a : Outcome) → IsScalar operand a → IsScalar result (with_value a (λ d. Is (truth_datum (not_of (truth_of d))))) }
{
    match operand {
        Scalar::Yes => Scalar::No,
        Scalar::No => Scalar::Yes,
        Scalar::Unknown => Scalar::Unknown,
        _ => Scalar::Other,
    }
}

// Whether a number lies between two others.
fn between(value: Scalar, low: Scalar, high: Scalar) -> Scalar
    ensures { (a b c : Outcome) → IsScalar value a → IsScalar low b → IsScalar high c → IsScalar result (with_value a (λ d. with_values b c (λ l h. Is (between_of d l h)))) }
{
    match (value, low, high) {
        (Scalar::Number(x), Scalar::Number(l), Scalar::Number(h)) => within(x, l, h),
        _ => Scalar::Other,
    }
}

fn within(x: i64, low: i64, high: i64) -> Scalar
    ensures { IsScalar result (Is (between_of (number_datum x) (number_datum low) (number_datum high))) }
{
    let reaches_low = not3(decided(x < low));
    let reaches_high = not3(decided(high < x));
    of_truth(and3(reaches_low, reaches_high))
}
