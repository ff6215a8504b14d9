//! Whether two rules give the same.
ghost use Rattle.std.specs.Prelude.{IfSome, map};
ghost use Rattle.feel_value.specs.Datum.{number};
ghost use Rattle.feel_value.specs.View.{datum_of};
ghost use Rattle.feel_text.specs.Constants.{expr_of_constant};
ghost use Rattle.feel_text.specs.Expr.{Negate};
ghost use Rattle.feel_text.specs.View.{view};
ghost use Rattle.dmn_table.specs.Parts.{rule_view};
ghost use Rattle.desk_checking.specs.Literals.{HasValue, TellsLiteral, TellsPair};
ghost use Rattle.desk_checking.specs.Outputs.{TellsEntries, TellsOutputs};

use crate::same_tree::are_same;
use dmn_table::Rule;
use feel_lang::Expr;
use feel_text::{Constant, Tree};
use feel_value::Value;

/// The opposite of a literal, where it is a number.
fn opposite_of(constant: &Constant) -> Option<i64>
    ensures { IfSome result (λ z. HasValue (Negate (expr_of_constant constant.now)) (number z)) }
{
    match constant.value().value() {
        Value::Number(number) => 0i64.checked_sub(*number),
        Value::Null | Value::Bool(_) | Value::Text(_) | Value::List(_) | Value::Context(_) => None,
    }
}

/// The opposite of the number that an expression is, where it is a literal.
fn opposite(tree: &Tree) -> Option<i64>
    ensures { IfSome result (λ z. HasValue (Negate (view tree.now)) (number z)) }
{
    match tree {
        Tree::Constant(constant) => opposite_of(constant),
        _ => None,
    }
}

/// The number that an expression is, where it is a literal with a `-`.
pub(crate) fn negative(tree: &Tree) -> Option<i64>
    ensures { IfSome result (λ z. HasValue (view tree.now) (number z)) }
{
    match tree {
        Tree::Negate(inner) => opposite(inner),
        _ => None,
    }
}

/// Whether a negative number is another value than this one.
fn number_differs(tree: &Tree, value: &Value) -> Option<bool>
    ensures { TellsLiteral (datum_of value.now) (view tree.now) result }
{
    let number = negative(tree)?;
    Some(!value.is_equal(&Value::Number(number)))
}

/// Whether an expression is a constant that differs from a value; None where it is none.
fn differs_from(tree: &Tree, value: &Value) -> Option<bool>
    ensures { TellsLiteral (datum_of value.now) (view tree.now) result }
{
    match tree {
        Tree::Constant(constant) => {
            let another = constant.value();
            Some(!value.is_equal(another.value()))
        }
        _ => number_differs(tree, value),
    }
}

/// Whether two entries differ, where both are constants.
fn differ(one: &Tree, other: &Tree) -> Option<bool>
    ensures { TellsPair (view one.now) (view other.now) result }
{
    if let Some(number) = negative(one) {
        return differs_from(other, &Value::Number(number));
    }
    let Tree::Constant(constant) = one else {
        return None;
    };
    let value = constant.value();
    differs_from(other, value.value())
}

/// Whether two entries differ: known of two constants, and of an expression that stands in both.
fn entries_differ(one: &Expr, other: &Expr) -> Option<bool>
    ensures { TellsPair one.now other.now result }
{
    let (one, other) = (one.tree(), other.tree());
    if let Some(answer) = differ(one, other) {
        return Some(answer);
    }
    if are_same(one, other) {
        return Some(false);
    }
    None
}

/// Whether rules with these output entries give other outputs wherever both hit: true where in some column two constants aren't equal,
/// false where in each column both are equal constants or the same expression. Otherwise it goes by the names, and isn't known.
fn gives_differ(ones: &[Expr], others: &[Expr]) -> Option<bool>
    ensures { TellsEntries ones.now others.now result }
{
    let mut is_known = true;
    for column in 0..ones.len() {
        if column >= others.len() {
            return None;
        }
        match entries_differ(&ones[column], &others[column]) {
            Some(true) => return Some(true),
            Some(false) => {}
            None => is_known = false,
        }
    }
    if is_known { Some(false) } else { None }
}

fn rules_differ(one: &Rule, other: &Rule) -> Option<bool>
    ensures { TellsEntries (rule_view one.now).gives (rule_view other.now).gives result }
{
    gives_differ(&one.gives, &other.gives)
}

/// The same of two rules of a table, counted from 0.
pub(crate) fn outputs_differ(rules: &[Rule], first: usize, second: usize) -> Option<bool>
    ensures { TellsOutputs (map rule_view rules.now) first second result }
{
    if first >= rules.len() {
        return None;
    }
    if second >= rules.len() {
        return None;
    }
    rules_differ(&rules[first], &rules[second])
}
