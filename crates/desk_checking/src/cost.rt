//! What it costs to ask a rule of some values, in steps: one, and one for each part of the expressions that are evaluated then.

use crate::same_outputs::negative;
use dmn_table::{HitPolicy, Rule, Table};
use feel_lang::{Expr, Tests};
use feel_text::{Test, TestsTree, Tree};
use std::alloc::{AllocError, Global};

/// The parts of an expression.
#[cycle(parts)]
fn parts_of(tree: &Tree) -> u64 {
    let within = match tree {
        Tree::Constant(_) => 0,
        Tree::Number(_) => 0,
        Tree::Name(_) => 0,
        Tree::Group(inner) => parts_of(inner),
        Tree::List(members) => parts_of_all(members),
        Tree::Call(_, inner) => parts_of(inner),
        Tree::Modulo(one, other) => parts_of(one).saturating_add(parts_of(other)),
        Tree::Not(inner) => parts_of(inner),
        Tree::Negate(inner) => parts_of(inner),
        Tree::Path(inner, _) => parts_of(inner),
        Tree::Binary(_, one, other) => parts_of(one).saturating_add(parts_of(other)),
        Tree::Between(one, low, high) => {
            let ends = parts_of(low).saturating_add(parts_of(high));
            parts_of(one).saturating_add(ends)
        }
        Tree::If(one, first, second) => {
            let branches = parts_of(first).saturating_add(parts_of(second));
            parts_of(one).saturating_add(branches)
        }
    };
    within.saturating_add(1)
}

#[cycle(parts)]
fn parts_of_all(trees: &[Tree]) -> u64 {
    let mut parts = 0u64;
    for tree in trees {
        parts = parts.saturating_add(parts_of(tree));
    }
    parts
}

fn is_literal(tree: &Tree) -> bool {
    if negative(tree).is_some() {
        return true;
    }
    matches!(tree, Tree::Constant(_))
}

fn has_literals(test: &Test) -> bool {
    match test {
        Test::Compares(_, tree) => is_literal(tree),
        Test::Interval(_, low, high, _) => is_literal(low) && is_literal(high),
        Test::Equals(tree) => is_literal(tree),
    }
}

fn have_literals(tests: &[Test]) -> bool {
    for test in tests {
        if !has_literals(test) {
            return false;
        }
    }
    true
}

fn of_test(test: &Test) -> u64 {
    match test {
        Test::Compares(_, tree) => parts_of(tree),
        Test::Interval(_, low, high, _) => parts_of(low).saturating_add(parts_of(high)),
        Test::Equals(tree) => parts_of(tree),
    }
}

// Literals alone are looked up, and cost nothing.
fn of_each(tests: &[Test]) -> u64 {
    if have_literals(tests) {
        return 0;
    }
    let mut cost = 0u64;
    for test in tests {
        cost = cost.saturating_add(of_test(test));
    }
    cost
}

/// What an entry costs.
pub(crate) fn of_entry(tests: &Tests) -> u64 {
    match tests.tree() {
        TestsTree::Any => 0,
        TestsTree::OneOf(tests) => of_each(tests),
        TestsTree::NoneOf(tests) => of_each(tests),
    }
}

fn of_entries(entries: &[Tests]) -> u64 {
    let mut cost = 1u64;
    for tests in entries {
        cost = cost.saturating_add(of_entry(tests));
    }
    cost
}

fn of_outputs(outputs: &[Expr]) -> u64 {
    let mut cost = 0u64;
    for output in outputs {
        cost = cost.saturating_add(parts_of(output.tree()));
    }
    cost
}

fn of_rule(policy: HitPolicy, rule: &Rule) -> u64 {
    let entries = of_entries(&rule.tests);
    match policy {
        HitPolicy::Priority => entries.saturating_add(of_outputs(&rule.gives)),
        _ => entries,
    }
}

/// What each rule of a table costs; under `P` with what it gives.
pub(crate) fn of_rules(alloc: Global, table: &Table) -> Result<Vec<u64>, AllocError> {
    let rules = table.rules();
    let mut costs = Vec::with_capacity(alloc, rules.len())?;
    for rule in rules {
        costs.push(of_rule(table.policy(), rule))?;
    }
    Ok(costs)
}

/// Takes what a rule costs; false where there are no steps left.
pub(crate) fn take_for(steps: &mut u64, costs: &[u64], rule: usize) -> bool {
    let cost = costs.get(rule).copied().unwrap_or(1);
    take(steps, cost)
}

/// Takes steps; false where there are none left.
pub(crate) fn take(steps: &mut u64, cost: u64) -> bool {
    *steps = steps.saturating_sub(cost);
    *steps > 0
}
