//! What expressions, decision tables, boxed expressions and decision services can give, whatever values their names have in the
//! sets that are said.
#![tactic(auto)]

mod analysed;
mod asking;
mod bounded;
mod boxed;
#[cfg(test)]
mod boxed_tests;
mod calls;
mod columns;
mod comparison;
mod domain;
#[cfg(test)]
mod domain_tests;
mod entries;
mod expression;
mod folded;
mod interval;
mod members;
#[cfg(test)]
mod members_tests;
mod names;
mod numbers;
mod outcomes;
mod parts;
mod range;
mod rule;
mod service;
mod size;
mod span;
mod table;
#[cfg(test)]
mod table_tests;
mod tally;
#[cfg(test)]
mod tests;
mod texts;
mod truths;
mod wider;

pub use asking::columns_asked;
pub use boxed::range_of_logic;
pub use columns::{ToldTables, columns_of_service};
pub use domain::range_of_domain;
pub use expression::range_of_expression;
pub use interval::Interval;
pub use outcomes::Outcomes;
pub use range::{MemberRange, NamedRange, ParameterRange, Range};
pub use service::{
    ServiceRanges, range_of_service, ranges_of_decisions, ranges_of_service, told_at,
};
pub use size::Size;
pub use table::range_of_table;
pub use texts::{Texts, Word};
pub use wider::either_tables;
