//! FEEL texts, read to trees: expressions, unary tests and literals are read exactly as they are spelled. What they mean
//! is defined here too, since what is known of tests once they are read is said in these words; `feel_eval` evaluates
//! them. The crates above name both by `feel_lang`.
#![tactic(auto)]

mod class;
mod constant;
mod expr;
mod expression;
mod fault;
mod held;
mod input_entry;
mod laws;
mod line;
mod literal;
mod name;
mod name_order;
mod names;
mod needs;
mod reader;
mod ready;
mod reference;
mod scanner;
mod sieve;
mod texts;
mod token;
mod trees;
mod unary;
mod unary_reader;
mod within_limits;

pub use class::{Class, MARKS, mark};
pub use constant::Constant;
pub use expr::{Function, Operator, Tree};
pub use expression::Expr;
pub use fault::ReadFault;
pub use held::Held;
pub use input_entry::Tests;
pub use laws::{expressions_by_the_grammar, literals_by_the_grammar, tests_by_the_grammar};
pub use name::Name;
pub use name_order::{HasName, compare_names, found_by_halves, order_by_name};
pub use names::is_name;
pub use needs::{Needs, value_found};
pub use ready::contains;
pub use reference::Reference;
pub use sieve::Sieve;
pub use texts::{read_expr, read_expr_under, read_literal, read_tests, read_tests_under};
pub use unary::{Bound, Test, TestsTree, high_end, low_end};
