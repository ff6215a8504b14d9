//! What it takes to look at the rules of a table, in steps. Nothing is promised of it.
ghost use Rattle.std.specs.Prelude.{◌<◌};

use crate::folded::bare;
use dmn_table::Rule;
use feel_text::{Test, Tests, TestsTree, Tree};
use feel_value::Value;

/// So many bytes of a text are read in a step.
const BYTES_A_STEP: usize = 16;

/// A step of a search asks so many constants at most, or counts for more.
const CONSTANTS_A_STEP: u64 = 4;

fn cost_of_value(value: &Value) -> u64 {
    let Value::Text(text) = value else {
        return 1;
    };
    let steps = (text.as_str().len() / BYTES_A_STEP) as u64;
    steps.saturating_add(1)
}

// What an expression takes: a constant, or numbers that are worked out.
fn cost_of(expr: &Tree) -> u64 {
    match expr {
        Tree::Constant(constant) => cost_of_value(constant.value().value()),
        Tree::Group(inner) => cost_of(inner).saturating_add(1),
        Tree::Negate(inner) => cost_of(inner).saturating_add(1),
        Tree::Binary(_, left, right) => {
            let both = cost_of(left).saturating_add(cost_of(right));
            both.saturating_add(1)
        }
        Tree::Number(_)
        | Tree::Name(_)
        | Tree::List(_)
        | Tree::Call(_, _)
        | Tree::Modulo(_, _)
        | Tree::Not(_)
        | Tree::Path(_, _)
        | Tree::Between(_, _, _)
        | Tree::If(_, _, _) => 1,
    }
}

fn cost_of_members(members: &[Tree]) -> u64 {
    let mut cost: u64 = 0;
    for member in members {
        cost = cost.saturating_add(cost_of(member));
    }
    cost
}

fn cost_of_test(test: &Test) -> u64 {
    match test {
        Test::Compares(_, expr) => cost_of(expr),
        Test::Interval(_, low, high, _) => cost_of(low).saturating_add(cost_of(high)),
        Test::Equals(expr) => match bare(expr) {
            Tree::List(members) => cost_of_members(members),
            _ => cost_of(expr),
        },
    }
}

fn cost_of_tests(tests: &[Test]) -> u64 {
    let mut cost: u64 = 0;
    for test in tests {
        cost = cost.saturating_add(cost_of_test(test));
    }
    cost
}

fn cost_of_entry(tests: &Tests) -> u64 {
    match tests.tree() {
        TestsTree::Any => 0,
        TestsTree::OneOf(tests) => cost_of_tests(tests),
        TestsTree::NoneOf(tests) => cost_of_tests(tests),
    }
}

/// What it takes to read rules, and what the dearest of their entries takes whenever it is asked.
#[derive(Clone, Copy)]
pub(crate) struct Price {
    reading: u64,
    dearest: u64,
}

impl Price {
    fn with_entry(self, tests: &Tests) -> Price {
        let cost = cost_of_entry(tests);
        Price {
            reading: self.reading.saturating_add(cost).saturating_add(1),
            dearest: self.dearest.max(cost),
        }
    }

    fn with_rule(self, rule: &Rule) -> Price {
        let mut price = self;
        for tests in &rule.tests {
            price = price.with_entry(tests);
        }
        price
    }

    /// For how many a step of a search counts.
    fn a_step(self) -> u64
        ensures { 0 < result }
    {
        self.dearest / CONSTANTS_A_STEP + 1
    }

    /// How many steps a search may take of so many, once the rules were read.
    pub(crate) fn for_search(self, steps: u64) -> u64 {
        steps.saturating_sub(self.reading) / self.a_step()
    }

    /// What so many steps of a search count for.
    pub(crate) fn of_search(self, steps: u64) -> u64 {
        steps.saturating_mul(self.a_step())
    }
}

/// What these rules take: to read them a step for each entry, each constant and each 16 bytes of a text; and a step of a search counts for
/// as many as the dearest entry has constants and such bytes, by four.
pub(crate) fn price_of(rules: &[Rule]) -> Price {
    let mut price = Price {
        reading: 1,
        dearest: 0,
    };
    for rule in rules {
        price = price.with_rule(rule);
    }
    price
}
