//! FEEL texts and their evaluation: expressions, unary tests and literals are read exactly as they are spelled, and
//! evaluated exactly to what they mean. Nothing is defined here: `feel_text` reads, `feel_eval` evaluates, and the crates
//! above have both by this one name.
#![tactic(auto)]

pub use feel_eval::{Env, eval, holds};
pub use feel_text::{
    Class, Expr, HasName, Held, MARKS, Needs, ReadFault, Sieve, Tests, compare_names,
    expressions_by_the_grammar, found_by_halves, is_name, literals_by_the_grammar, mark,
    order_by_name, read_expr, read_expr_under, read_literal, read_tests, read_tests_under,
    tests_by_the_grammar,
};
