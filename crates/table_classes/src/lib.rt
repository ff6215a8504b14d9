//! Classes of values, by which rules that a value can't hit are told without asking them.
#![tactic(auto)]

mod classes;
mod entries;
mod spans;

pub use classes::{ClassRules, ColumnClasses, WORD, classes_of_columns, common, rows_of};
pub use entries::{HasTests, keep_limits};
