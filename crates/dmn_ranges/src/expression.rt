//! What an expression can give.
ghost use Rattle.std.specs.Prelude.{◌≡◌, true, [], IfOk, None};
ghost use Rattle.feel_text.specs.Constants.{expr_of_constant};
ghost use Rattle.feel_text.specs.Meaning.{Bindings, den};
ghost use Rattle.feel_text.specs.View.{view, views};
ghost use Rattle.dmn_ranges.specs.Ranges.{Fits, covers, scope};
ghost use Rattle.dmn_ranges.specs.Steps.{natural as natural_of, outcomes as outcomes_of, point as point_of, branches as branches_of, list_call as list_call_of, list_outcomes as list_outcomes_of, members_folded as members_folded_of, members_parts, no_parts, of_members as of_members_of, of_no_members as of_no_members_of};

use crate::calls::{called, paths};
use crate::comparison::{between, inverted, operated};
use crate::folded::{Folded, with_member};
use crate::interval::Interval;
use crate::members::{known_member, known_or};
use crate::names::Names;
use crate::numbers::{negated, remainders};
use crate::outcomes::{Outcomes, either_of, numbers_given, when};
use crate::parts::Parts;
use crate::range::{NamedRange, Range, either};
use crate::size::Size;
use crate::span::held_if;
use crate::texts::Texts;
use crate::truths::{Truths, truths_in};
use feel_text::{Constant, Expr, Function, Tree};
use feel_value::Value;
use std::alloc::{AllocError, Global};

/// What an expression can give, where each name stands for a value of its range.
///
/// Whatever values of their ranges the names have, its value lies in the range that is answered; and where a limit is broken, the
/// answer says that it can be. A name that isn't among them stands for null. The steps are in proportion to the size of the
/// expression and to the number of names, times the logarithm of that.
#[tactic(auto, using(crate::proofs::Sound::sound))]
pub fn range_of_expression(
    alloc: Global,
    expr: &Tree,
    names: &[NamedRange],
) -> Result<Outcomes, AllocError>
    ensures { IfOk result (λ o. (m : Bindings) → Fits (scope names.now) m → covers o (den (view expr.now) m) ≡ true) }
{
    let names = Names::listed(alloc, names)?;
    Ok(outcomes(expr, &names))
}

// One number.
fn point(n: i64) -> Range
    ensures { result ≡ point_of n }
{
    Range::numbers_or_null(false, Some(Interval { low: n, high: n }))
}

// The value of a literal.
fn constant(constant: &Constant) -> Outcomes
    ensures { result ≡ outcomes_of (expr_of_constant constant.now) [] }
{
    match constant.value().value() {
        Value::Bool(holds) => Outcomes::given(Range {
            nulls: false,
            trues: *holds,
            falses: !*holds,
            numbers: None,
            texts: Texts::none(),
            lists: false,
            contexts: false,
            size: Size::none(),
        }),
        Value::Number(n) => Outcomes::given(point(*n)),
        Value::Text(text) => Outcomes::given(Range::text(text.as_str())),
        Value::Null | Value::List(_) | Value::Context(_) => Outcomes::given(Range::null()),
    }
}

// A number of a text, which may be past the range.
fn natural(n: u64) -> Outcomes
    ensures { result ≡ natural_of n }
{
    match i64::try_from(n) {
        Ok(n) => Outcomes::given(point(n)),
        Err(_) => Outcomes {
            range: Range::nothing(),
            limit: true,
        },
    }
}

// What a function gives of a list of no members.
fn of_no_members(function: Function) -> Outcomes
    ensures { result ≡ of_no_members_of function }
{
    match function {
        Function::Count => natural(0),
        Function::Abs | Function::Sum | Function::Min | Function::Max => {
            Outcomes::given(Range::null())
        }
    }
}

// What a function gives of a list of so many members, which keeps the limits.
fn of_members(function: Function, count: u64, folded: Folded) -> Outcomes
    ensures { result ≡ of_members_of function count folded }
{
    match function {
        Function::Abs => Outcomes::given(Range::null()),
        Function::Count => natural(count),
        Function::Sum | Function::Min | Function::Max => {
            numbers_given(folded.others, held_if(folded.numbers))
        }
    }
}

// What a function gives of a list of so many members.
fn list_outcomes(function: Function, count: u64, folded: Option<Folded>) -> Outcomes
    ensures { result ≡ list_outcomes_of function count folded }
{
    match folded {
        Some(folded) => {
            let list = folded.parts.list();
            of_members(function, count, folded).limited(list.limit)
        }
        None => of_no_members(function),
    }
}

// The branches of an `if` that can be taken.
fn branches(test: Truths, a: Outcomes, b: Outcomes) -> Outcomes
    ensures { result ≡ branches_of test a b }
{
    either_of(when(test.yes, a), when(either(test.no, test.unknown), b))
}

/// What an expression can give.
pub(crate) fn expr_outcomes(expr: &Expr, names: &Names) -> Outcomes
    ensures { result ≡ outcomes_of expr.now names.now }
{
    outcomes(expr.tree(), names)
}

// The members of a list.
#[cycle(outcomes)]
fn members(exprs: &[Tree], names: &Names) -> Parts
    ensures { result ≡ members_parts no_parts (views exprs.now) names.now }
{
    let mut parts = Parts::none();
    for expr in exprs {
        parts = parts.with(outcomes(expr, names));
    }
    parts
}

// What is known of the members of a list.
#[cycle(outcomes)]
fn members_folded(function: Function, exprs: &[Tree], names: &Names) -> Option<Folded>
    ensures { result ≡ members_folded_of function None (views exprs.now) names.now }
{
    let mut folded = None;
    for expr in exprs {
        folded = Some(with_member(function, folded, outcomes(expr, names)));
    }
    folded
}

// What a function gives of a written list; None where its argument is none.
#[cycle(outcomes)]
fn list_call(function: Function, argument: &Tree, names: &Names) -> Option<Outcomes>
    ensures { result ≡ list_call_of function (view argument.now) names.now }
{
    match argument {
        Tree::Group(inner) => list_call(function, inner, names),
        Tree::List(exprs) => {
            let folded = members_folded(function, exprs, names);
            Some(list_outcomes(function, exprs.len() as u64, folded))
        }
        _ => None,
    }
}

#[cycle(outcomes)]
pub(crate) fn outcomes(expr: &Tree, names: &Names) -> Outcomes
    ensures { result ≡ outcomes_of (view expr.now) names.now }
{
    match expr {
        Tree::Constant(literal) => constant(literal),
        Tree::Number(n) => natural(*n),
        Tree::Name(reference) => Outcomes::given(names.range(reference.name.as_str())),
        Tree::Group(inner) => outcomes(inner, names),
        Tree::List(exprs) => members(exprs, names).list(),
        Tree::Call(function, argument) => {
            if let Some(told) = list_call(*function, argument, names) {
                return told;
            }
            let argument = outcomes(argument, names);
            called(*function, argument.range).limited(argument.limit)
        }
        Tree::Modulo(left, right) => {
            let (left, right) = (outcomes(left, names), outcomes(right, names));
            remainders(left.range, right.range).limited(either(left.limit, right.limit))
        }
        Tree::Not(inner) => {
            let inner = outcomes(inner, names);
            inverted(inner.range).limited(inner.limit)
        }
        Tree::Negate(inner) => {
            let inner = outcomes(inner, names);
            negated(inner.range).limited(inner.limit)
        }
        Tree::Path(inner, _) => {
            let inner = outcomes(inner, names);
            let others = paths(inner.range).limited(inner.limit);
            known_or(known_member(expr, names), others)
        }
        Tree::Binary(operator, left, right) => {
            let (left, right) = (outcomes(left, names), outcomes(right, names));
            operated(*operator, left.range, right.range).limited(either(left.limit, right.limit))
        }
        Tree::Between(value, low, high) => {
            let value = outcomes(value, names);
            let (low, high) = (outcomes(low, names), outcomes(high, names));
            between(value.range, low.range, high.range)
                .limited(either(low.limit, high.limit))
                .limited(value.limit)
        }
        Tree::If(test, yes, no) => {
            let test = outcomes(test, names);
            let (yes, no) = (outcomes(yes, names), outcomes(no, names));
            branches(truths_in(test.range), yes, no).limited(test.limit)
        }
    }
}
