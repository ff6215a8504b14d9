//! Reading whole texts.

ghost use Rattle.std.specs.Prelude.{◌≡◌, IfOk, IsErrOf};
ghost use Rattle.feel_value.specs.Datum.{Datum};
ghost use Rattle.feel_text.specs.Expr as expr_specs;
ghost use Rattle.feel_text.specs.Gives.{Gives};
ghost use Rattle.feel_text.specs.Readings.{expr_of, tests_of, literal_of};
ghost use Rattle.feel_text.specs.Spells.{Spells, SpellsTests, SpellsLiteral};
ghost use Rattle.feel_text.specs.Tests as tests_specs;
ghost use Rattle.feel_text.specs.TestsView.{tests_view};
ghost use Rattle.feel_text.specs.View.{view};
ghost use Rattle.feel_text.specs.declared.fault.ReadFault.TheVariants.{Syntax};

use crate::expr::Tree;
use crate::expression::Expr;
use crate::fault::ReadFault;
use crate::input_entry::Tests;
use crate::needs::Needs;
use crate::unary::TestsTree;
use crate::{literal, reader, scanner, unary_reader};
use feel_value::Feel;
use std::alloc::Global;

// The tree of the expression that a text spells.
fn expr_tree(alloc: Global, text: &str, needs: &Needs) -> Result<Tree, ReadFault>
    ensures { Gives view result (expr_of text.now) }
{
    let tokens = scanner::tokens(alloc, text, needs)?;
    reader::expression(alloc, &tokens)
}

/// The expression that a text spells, within the limit of depth. Syntax is answered exactly where
/// it spells none.
pub fn read_expr(alloc: Global, text: &str) -> Result<Expr, ReadFault>
    ensures found { IfOk result (λ e. Spells text.now e) }
    ensures alone { IfOk result (λ e. (f : expr_specs.Expr) → Spells text.now f → f ≡ e) }
    ensures none { IsErrOf result Syntax → (f : expr_specs.Expr) → Spells text.now f → ⊥ }

    // The same by the function that says what a text spells.
    ensures reading { Gives (λ e. e) result (expr_of text.now) }
{
    read_expr_under(alloc, text, &Needs::new(alloc))
}

/// The same expression. Its names know where they stand among the needed ones, so an environment over these finds them at once.
pub fn read_expr_under(alloc: Global, text: &str, needs: &Needs) -> Result<Expr, ReadFault>
    ensures found { IfOk result (λ e. Spells text.now e) }
    ensures alone { IfOk result (λ e. (f : expr_specs.Expr) → Spells text.now f → f ≡ e) }
    ensures none { IsErrOf result Syntax → (f : expr_specs.Expr) → Spells text.now f → ⊥ }

    // The same by the function that says what a text spells.
    ensures reading { Gives (λ e. e) result (expr_of text.now) }
{
    let tree = expr_tree(alloc, text, needs)?;
    Ok(Expr::of(tree))
}

// The tree of the unary tests that a text spells.
fn tests_tree(alloc: Global, text: &str, needs: &Needs) -> Result<TestsTree, ReadFault>
    ensures { Gives tests_view result (tests_of text.now) }
{
    let tokens = scanner::tokens(alloc, text, needs)?;
    unary_reader::tests(alloc, &tokens)
}

/// The unary tests that a text spells, each expression within the limit of depth. A text of the
/// form `not(..)` round a list of tests is that form only. Syntax is answered exactly where it
/// spells none.
pub fn read_tests(alloc: Global, text: &str) -> Result<Tests, ReadFault>
    ensures found { IfOk result (λ t. SpellsTests text.now t) }
    ensures alone { IfOk result (λ t. (u : tests_specs.Tests) → SpellsTests text.now u → u ≡ t) }
    ensures none { IsErrOf result Syntax → (u : tests_specs.Tests) → SpellsTests text.now u → ⊥ }

    // The same by the function that says what a text spells.
    ensures reading { Gives (λ t. t) result (tests_of text.now) }
{
    read_tests_under(alloc, text, &Needs::new(alloc))
}

/// The same unary tests, whose names know where they stand among the needed ones.
pub fn read_tests_under(alloc: Global, text: &str, needs: &Needs) -> Result<Tests, ReadFault>
    ensures found { IfOk result (λ t. SpellsTests text.now t) }
    ensures alone { IfOk result (λ t. (u : tests_specs.Tests) → SpellsTests text.now u → u ≡ t) }
    ensures none { IsErrOf result Syntax → (u : tests_specs.Tests) → SpellsTests text.now u → ⊥ }

    // The same by the function that says what a text spells.
    ensures reading { Gives (λ t. t) result (tests_of text.now) }
{
    let tree = tests_tree(alloc, text, needs)?;
    Ok(Tests::of(alloc, tree)?)
}

/// The literal that a text spells: a number with an optional `-`, a string, `true`, `false` or
/// `null`. Syntax is answered exactly where it spells none.
pub fn read_literal(alloc: Global, text: &str) -> Result<Feel, ReadFault>
    ensures found { IfOk result (λ d. SpellsLiteral text.now d) }
    ensures alone { IfOk result (λ d. (c : Datum) → SpellsLiteral text.now c → c ≡ d) }
    ensures none { IsErrOf result Syntax → (c : Datum) → SpellsLiteral text.now c → ⊥ }

    // The same by the function that says what a text spells.
    ensures reading { Gives (λ d. d) result (literal_of text.now) }
{
    let tokens = scanner::tokens(alloc, text, &Needs::new(alloc))?;
    literal::literal(alloc, &tokens)
}
