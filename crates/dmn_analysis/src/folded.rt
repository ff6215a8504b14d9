//! What constants are: literals, and numbers that are worked out of numbers.
ghost use Rattle.std.specs.Prelude.{◌≡◌, ◌+ℤ◌, ◌-ℤ◌, ◌*ℤ◌, pos, false, true, IfSome, None};
ghost use Rattle.feel_value.specs.Datum.{number as number_datum};
ghost use Rattle.feel_value.specs.Limits.{in_range};
ghost use Rattle.feel_value.specs.Outcome.{held};
ghost use Rattle.feel_value.specs.View.{datum_of};
ghost use Rattle.feel_value.specs.declared.feel.Outcome.TheVariants.{Is, Limit};
ghost use Rattle.feel_text.specs.Constants.{expr_of_constant};
ghost use Rattle.feel_text.specs.Meaning.{Bindings, den, operation};
ghost use Rattle.feel_text.specs.View.{view};
ghost use Rattle.dmn_analysis.specs.Constant.{bare as bare_of, is_arithmetic, is_scalar, is_sum};

use feel_text::{Constant, Operator, Tree};
use feel_value::Value;

const LEAST: i128 = -9_223_372_036_854_775_807;

const MOST: i128 = 9_223_372_036_854_775_807;

/// An expression without its parentheses.
pub(crate) fn bare(expr: &Tree) -> &Tree
    ensures { view result.now ≡ bare_of (view expr.now) }
{
    match expr {
        Tree::Group(inner) => bare(inner),
        Tree::Constant(_) => expr,
        Tree::Number(_)
        | Tree::Name(_)
        | Tree::List(_)
        | Tree::Call(_, _)
        | Tree::Modulo(_, _)
        | Tree::Not(_)
        | Tree::Negate(_)
        | Tree::Path(_, _)
        | Tree::Binary(_, _, _)
        | Tree::Between(_, _, _)
        | Tree::If(_, _, _) => expr,
    }
}

// A number that was worked out; None where it is past the range.
fn held_number(z: i128) -> Option<i64>
    ensures some { IfSome result (λ n. held (number_datum z) ≡ Is (number_datum n)) }
    ensures range { IfSome result (λ n. in_range n ≡ true) }
    ensures none { result ≡ None → held (number_datum z) ≡ Limit }
{
    if z < LEAST || MOST < z {
        return None;
    }
    Some(z as i64)
}

fn sum(x: i64, y: i64) -> i128
    ensures { result ≡ x +ℤ y }
{
    i128::from(x) + i128::from(y)
}

fn difference(x: i64, y: i64) -> i128
    ensures { result ≡ x -ℤ y }
{
    i128::from(x) - i128::from(y)
}

fn product(x: i64, y: i64) -> i128
    ensures { result ≡ x *ℤ y }
{
    i128::from(x) * i128::from(y)
}

// What an operator makes of two numbers; None where that is past the range, or it is none of `+ - *`.
fn operated(operator: Operator, x: i64, y: i64) -> Option<i64>
    ensures some { IfSome result (λ n. held (operation operator (number_datum x) (number_datum y)) ≡ Is (number_datum n)) }
    ensures range { IfSome result (λ n. in_range n ≡ true) }
    ensures none { result ≡ None → is_arithmetic operator ≡ true → held (operation operator (number_datum x) (number_datum y)) ≡ Limit }
{
    match operator {
        Operator::Add => held_number(sum(x, y)),
        Operator::Subtract => held_number(difference(x, y)),
        Operator::Multiply => held_number(product(x, y)),
        Operator::Or
        | Operator::And
        | Operator::Equal
        | Operator::NotEqual
        | Operator::Less
        | Operator::LessEqual
        | Operator::Greater
        | Operator::GreaterEqual => None,
    }
}

// The number of a literal.
fn literal_number(constant: &Constant) -> Option<i64>
    ensures some { IfSome result (λ n. (m : Bindings) → den (expr_of_constant constant.now) m ≡ Is (number_datum n)) }
    ensures range { IfSome result (λ n. in_range n ≡ true) }
    ensures none { result ≡ None → is_sum (expr_of_constant constant.now) ≡ false }
{
    match constant.value().value() {
        Value::Number(n) => Some(*n),
        Value::Null | Value::Bool(_) | Value::Text(_) | Value::List(_) | Value::Context(_) => None,
    }
}

// A number of a text; None where it is past the range.
fn natural(n: u64) -> Option<i64>
    ensures some { IfSome result (λ z. held (number_datum (pos n)) ≡ Is (number_datum z)) }
    ensures range { IfSome result (λ n. in_range n ≡ true) }
    ensures none { result ≡ None → held (number_datum (pos n)) ≡ Limit }
{
    held_number(i128::from(n))
}

/// The number that numbers with parentheses, `-`, `+` and `*` are, whatever the names stand for; None where a limit is broken, or the
/// expression is another.
pub(crate) fn number_of(expr: &Tree) -> Option<i64>
    ensures some { IfSome result (λ n. (m : Bindings) → den (view expr.now) m ≡ Is (number_datum n)) }
    ensures range { IfSome result (λ n. in_range n ≡ true) }
    ensures none { result ≡ None → is_sum (view expr.now) ≡ true → (m : Bindings) → den (view expr.now) m ≡ Limit }
{
    match expr {
        Tree::Constant(constant) => literal_number(constant),
        Tree::Number(n) => natural(*n),
        Tree::Group(inner) => number_of(inner),
        Tree::Negate(inner) => {
            let Some(n) = number_of(inner) else {
                return None;
            };
            operated(Operator::Subtract, 0, n)
        }
        Tree::Binary(operator, left, right) => {
            let Some(x) = number_of(left) else {
                return None;
            };
            let Some(y) = number_of(right) else {
                return None;
            };
            operated(*operator, x, y)
        }
        Tree::Name(_)
        | Tree::List(_)
        | Tree::Call(_, _)
        | Tree::Modulo(_, _)
        | Tree::Not(_)
        | Tree::Path(_, _)
        | Tree::Between(_, _, _)
        | Tree::If(_, _, _) => None,
    }
}

/// The value of a literal, which may be in parentheses.
pub(crate) fn literal(expr: &Tree) -> Option<&Value>
    ensures some { IfSome result (λ d. (m : Bindings) → den (view expr.now) m ≡ Is (datum_of d.now)) }
    ensures none { result ≡ None → is_scalar (bare_of (view expr.now)) ≡ false }
{
    match bare(expr) {
        Tree::Constant(constant) => Some(constant.value().value()),
        Tree::Number(_)
        | Tree::Name(_)
        | Tree::Group(_)
        | Tree::List(_)
        | Tree::Call(_, _)
        | Tree::Modulo(_, _)
        | Tree::Not(_)
        | Tree::Negate(_)
        | Tree::Path(_, _)
        | Tree::Binary(_, _, _)
        | Tree::Between(_, _, _)
        | Tree::If(_, _, _) => None,
    }
}
