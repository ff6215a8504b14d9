//! Evaluation as callers see it.

ghost use Rattle.std.specs.Prelude.{◌≡◌, IfOk};
ghost use Rattle.feel_text.specs.Meaning.{den};
ghost use Rattle.feel_text.specs.Satisfied.{satisfied, held_of};

use crate::env::Env;
use crate::{eval_expr, holds_tests};
use feel_text::{Expr, Held, Tests};
use feel_value::{Feel, Outcome};
use std::alloc::{AllocError, Global};

/// The value of an expression, where names have the values that the environment gives them, or that
/// a limit is broken. Every part is evaluated but the branch of an `if` that isn't taken.
pub fn eval(alloc: Global, expr: &Expr, env: &Env) -> Result<Outcome, AllocError>
    ensures { IfOk result (λ o. o ≡ den expr.now env.now) }
{
    eval_expr::eval(alloc, expr.tree(), env)
}

/// Whether the value meets the tests. It doesn't where that is unknown.
pub fn holds(alloc: Global, tests: &Tests, value: &Feel, env: &Env) -> Result<Held, AllocError>
    ensures { IfOk result (λ h. h ≡ held_of (satisfied tests.now value.now env.now)) }
{
    if let Some(met) = tests.told(value) {
        return Ok(if met { Held::Yes } else { Held::No });
    }
    holds_tests::holds(alloc, tests.tree(), value, env)
}
