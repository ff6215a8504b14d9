//! Values that may meet the entries of a rule: those of its constants and those beside them. They are to be asked.

use crate::cost::{of_entry, take};
use crate::same_outputs::negative;
use dmn_table::Rule;
use feel_lang::{Env, Held, Tests, holds};
use feel_text::{Test, TestsTree, Tree};
use feel_value::{Feel, Value};
use std::alloc::{AllocError, Global};
use std::sync::ArcStr;

/// The most values that are tried of an entry.
const MOST_TRIED: usize = 48;

/// What it costs to find the values that are tried of an entry, in steps.
const FOUND: u64 = 16;

/// Numbers that are tried for a bound that isn't a literal or a name.
const FAR: [i64; 6] = [
    1_000,
    -1_000,
    1_000_000,
    -1_000_000,
    1_000_000_000_000,
    -1_000_000_000_000,
];

/// By how much each further name differs from the one before.
const APART: i64 = 10;

fn add(values: &mut Vec<Feel>, value: Value) -> Result<(), AllocError> {
    if values.len() >= MOST_TRIED {
        return Ok(());
    }
    let Some(value) = Feel::of(value) else {
        return Ok(());
    };
    values.push(value)?;
    Ok(())
}

// A number and those beside it.
fn add_number(values: &mut Vec<Feel>, number: i64) -> Result<(), AllocError> {
    add(values, Value::Number(number))?;
    add(values, Value::Number(number.saturating_sub(1)))?;
    add(values, Value::Number(number.saturating_add(1)))?;
    Ok(())
}

// A text and the next one.
fn add_text(alloc: Global, values: &mut Vec<Feel>, text: &ArcStr) -> Result<(), AllocError> {
    let mut next = String::from_str(alloc, text.as_str())?;
    next.push_str("\0")?;
    let next = ArcStr::from_str(alloc, next.as_str())?;
    add(values, Value::Text(text.clone()?))?;
    add(values, Value::Text(next))?;
    Ok(())
}

fn add_beside(alloc: Global, values: &mut Vec<Feel>, value: &Feel) -> Result<(), AllocError> {
    match value.value() {
        Value::Number(number) => add_number(values, *number),
        Value::Text(text) => add_text(alloc, values, text),
        _ => {
            let copy = value.value().try_clone()?;
            add(values, copy)
        }
    }
}

// What an expression is, where it is a literal or a name, and what is beside it.
fn add_of(alloc: Global, values: &mut Vec<Feel>, expr: &Tree, env: &Env) -> Result<(), AllocError> {
    if let Some(number) = negative(expr) {
        return add_number(values, number);
    }
    match expr {
        Tree::Constant(constant) => add_beside(alloc, values, constant.value()),
        Tree::Name(name) => match env.find(name.name.as_str()) {
            Some(value) => add_beside(alloc, values, value),
            None => Ok(()),
        },
        _ => Ok(()),
    }
}

fn add_of_test(
    alloc: Global,
    values: &mut Vec<Feel>,
    test: &Test,
    env: &Env,
) -> Result<(), AllocError> {
    match test {
        Test::Compares(_, expr) => add_of(alloc, values, expr, env),
        Test::Interval(_, low, high, _) => {
            add_of(alloc, values, low, env)?;
            add_of(alloc, values, high, env)
        }
        Test::Equals(expr) => add_of(alloc, values, expr, env),
    }
}

fn add_of_tests(
    alloc: Global,
    values: &mut Vec<Feel>,
    tests: &[Test],
    env: &Env,
) -> Result<(), AllocError> {
    for test in tests {
        if values.len() >= MOST_TRIED {
            return Ok(());
        }
        add_of_test(alloc, values, test, env)?;
    }
    Ok(())
}

fn add_far(values: &mut Vec<Feel>) -> Result<(), AllocError> {
    for number in FAR {
        add(values, Value::Number(number))?;
    }
    Ok(())
}

// A value of each kind, and those of the constants of an entry.
fn some_values(alloc: Global, tests: &Tests, env: &Env) -> Result<Vec<Feel>, AllocError> {
    let mut values = Vec::new(alloc);
    add(&mut values, Value::Number(0))?;
    add(&mut values, Value::Bool(true))?;
    add(&mut values, Value::Bool(false))?;
    add(&mut values, Value::Null)?;
    add_text(alloc, &mut values, &ArcStr::from_str(alloc, "")?)?;
    let list = Value::list(alloc, Vec::new(alloc))?;
    add(&mut values, list)?;
    match tests.tree() {
        TestsTree::Any => {}
        TestsTree::OneOf(tests) => add_of_tests(alloc, &mut values, tests, env)?,
        TestsTree::NoneOf(tests) => add_of_tests(alloc, &mut values, tests, env)?,
    }
    add_far(&mut values)?;
    Ok(values)
}

// A value that meets an entry; None where none of those that are tried does, or the steps ran out.
fn met_value(
    alloc: Global,
    tests: &Tests,
    env: &Env,
    steps: &mut u64,
) -> Result<Option<Feel>, AllocError> {
    let cost = of_entry(tests).saturating_add(1);
    if !take(steps, FOUND) {
        return Ok(None);
    }
    for value in some_values(alloc, tests, env)? {
        if !take(steps, cost) {
            return Ok(None);
        }
        if let Held::Yes = holds(alloc, tests, &value, env)? {
            return Ok(Some(value));
        }
    }
    Ok(None)
}

/// Values one a column that meet a rule's entries; None where none were found.
pub(crate) fn met_values(
    alloc: Global,
    rule: &Rule,
    env: &Env,
    steps: &mut u64,
) -> Result<Option<Vec<Feel>>, AllocError> {
    let mut values = Vec::with_capacity(alloc, rule.tests.len())?;
    for tests in &rule.tests {
        let Some(value) = met_value(alloc, tests, env, steps)? else {
            return Ok(None);
        };
        values.push(value)?;
    }
    Ok(Some(values))
}

// One of these values that meets an entry and doesn't meet another; None where there is none, or the steps ran out.
fn apart_among(
    alloc: Global,
    values: Vec<Feel>,
    tests: &Tests,
    other: &Tests,
    env: &Env,
    steps: &mut u64,
) -> Result<Option<Feel>, AllocError> {
    let cost = of_entry(tests)
        .saturating_add(of_entry(other))
        .saturating_add(1);
    for value in values {
        if !take(steps, cost) {
            return Ok(None);
        }
        let Held::Yes = holds(alloc, tests, &value, env)? else {
            continue;
        };
        if let Held::No = holds(alloc, other, &value, env)? {
            return Ok(Some(value));
        }
    }
    Ok(None)
}

// A value that meets an entry and doesn't meet another, by the constants of either. Each value meets the entry `-`.
fn value_apart(
    alloc: Global,
    tests: &Tests,
    other: &Tests,
    env: &Env,
    steps: &mut u64,
) -> Result<Option<Feel>, AllocError> {
    if matches!(other.tree(), TestsTree::Any) || !take(steps, FOUND) {
        return Ok(None);
    }
    let beside_other = some_values(alloc, other, env)?;
    if let Some(value) = apart_among(alloc, beside_other, tests, other, env, steps)? {
        return Ok(Some(value));
    }
    let beside = some_values(alloc, tests, env)?;
    apart_among(alloc, beside, tests, other, env, steps)
}

// Puts into a column a value that meets the rule's entry and not that of another; false where there is none.
fn put_apart(
    alloc: Global,
    rule: &Rule,
    other: &Rule,
    env: &Env,
    place: usize,
    values: &mut Vec<Feel>,
    steps: &mut u64,
) -> Result<bool, AllocError> {
    if place >= rule.tests.len() || place >= other.tests.len() || place >= values.len() {
        return Ok(false);
    }
    let (tests, other) = (&rule.tests[place], &other.tests[place]);
    let Some(value) = value_apart(alloc, tests, other, env, steps)? else {
        return Ok(false);
    };
    values[place] = value;
    Ok(true)
}

// The same of the columns from a place on, the first where there is such a value.
fn put_apart_from(
    alloc: Global,
    rule: &Rule,
    other: &Rule,
    env: &Env,
    from: usize,
    values: &mut Vec<Feel>,
    steps: &mut u64,
) -> Result<bool, AllocError> {
    for place in from..rule.tests.len() {
        if put_apart(alloc, rule, other, env, place, values, steps)? {
            return Ok(true);
        }
    }
    Ok(false)
}

/// Puts into a column a value that meets the rule's entry and not that of another; false where there is no such column.
/// It begins with another column at each turn.
pub(crate) fn meet_apart(
    alloc: Global,
    rule: &Rule,
    other: &Rule,
    env: &Env,
    turn: usize,
    values: &mut Vec<Feel>,
    steps: &mut u64,
) -> Result<bool, AllocError> {
    let count = rule.tests.len();
    if count == 0 {
        return Ok(false);
    }
    let from = turn % count;
    if put_apart_from(alloc, rule, other, env, from, values, steps)? {
        return Ok(true);
    }
    put_apart_from(alloc, rule, other, env, 0, values, steps)
}

// A number for the next name.
fn next_number(number: i64, env: &Env) -> i64 {
    let before = i64::try_from(env.len()).unwrap_or(0);
    number.saturating_add(before.saturating_mul(APART))
}

// Binds an expression to a number, where it is a name that has none.
fn bind_name(expr: &Tree, number: i64, env: &mut Env) -> Result<(), AllocError> {
    let Tree::Name(name) = expr else {
        return Ok(());
    };
    if env.find(name.name.as_str()).is_some() {
        return Ok(());
    }
    let Some(value) = Feel::of(Value::Number(next_number(number, env))) else {
        return Ok(());
    };
    env.bind(name.name.as_str(), value)
}

// The same of an expression or its operands.
fn bind_names(expr: &Tree, number: i64, env: &mut Env) -> Result<(), AllocError> {
    match expr {
        Tree::Negate(inner) => bind_name(inner, number, env),
        Tree::Binary(_, one, other) => {
            bind_name(one, number, env)?;
            bind_name(other, number, env)
        }
        _ => bind_name(expr, number, env),
    }
}

fn bind_in_test(test: &Test, number: i64, env: &mut Env) -> Result<(), AllocError> {
    match test {
        Test::Compares(_, expr) => bind_names(expr, number, env),
        Test::Interval(_, low, high, _) => {
            bind_names(low, number, env)?;
            bind_names(high, number, env)
        }
        Test::Equals(expr) => bind_names(expr, number, env),
    }
}

fn bind_in_tests(tests: &[Test], number: i64, env: &mut Env) -> Result<(), AllocError> {
    for test in tests {
        bind_in_test(test, number, env)?;
    }
    Ok(())
}

/// The names in the entries of a rule, the first bound to this number, each further one to a greater.
pub(crate) fn names_as(
    alloc: Global,
    rule: &Rule,
    number: i64,
) -> Result<Env<'static>, AllocError> {
    let mut env = Env::new(alloc);
    for tests in &rule.tests {
        match tests.tree() {
            TestsTree::Any => {}
            TestsTree::OneOf(tests) => bind_in_tests(tests, number, &mut env)?,
            TestsTree::NoneOf(tests) => bind_in_tests(tests, number, &mut env)?,
        }
    }
    Ok(env)
}
