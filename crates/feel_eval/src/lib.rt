//! The evaluation of FEEL expressions and unary tests that `feel_text` has read, exactly to what they mean, where names have
//! the values that an environment gives them. The crates above name both by `feel_lang`.
#![tactic(auto)]

mod added;
mod env;
mod eval_calls;
mod eval_expr;
mod eval_operators;
mod eval_outcome;
mod eval_paths;
mod evaluation;
mod holds_tests;
mod indexed;
mod lent;
mod listed;
mod operands;
mod scalar;

pub use env::Env;
pub use evaluation::{eval, holds};
