//! Expressions as callers see them.

ghost use Rattle.std.specs.Prelude.{◌≡◌, IfSome};
ghost use Rattle.feel_value.specs.declared.feel.Outcome.TheVariants.{Is};
ghost use Rattle.feel_text.specs.Meaning.{Bindings, den};
ghost use Rattle.feel_text.specs.Spells.{HasText};
ghost use Rattle.feel_text.specs.View.{view};

use crate::expr::Tree;
use feel_value::Feel;
use std::marker::Model;

/// A FEEL expression that some text spells. So it is at most 64 deep, and its numbers are in range.
#[derive(Debug, Drop)]
pub struct Expr {
    tree: Tree,
}

impl Model for Expr {
    ghost use Rattle.feel_text.specs.Expr as specs;
    ghost use Rattle.feel_text.specs.Code.{expr_code};

    ghost Value = { specs.Expr };

    ghost coded = { expr_code };

    ghost use Rattle.feel_text.specs.Spells.{HasText};
    ghost use Rattle.feel_text.specs.View.{view as view_of};

    ghost view = { λ e. view_of e.tree };

    ghost invariant = { λ e. HasText (view_of e.tree) };
}

impl Expr {
    /// The expression of a tree that some text spells.
    pub(crate) fn of(tree: Tree) -> Expr
        requires { HasText (view tree) }
        ensures { result ≡ view tree }
    {
        Expr { tree }
    }

    /// The tree of the expression.
    pub fn tree(&self) -> &Tree
        ensures { view result.now ≡ self.now }
    {
        &self.tree
    }
    /// The value of an expression that is a literal, whatever names are bound to. None says nothing.
    pub fn constant(&self) -> Option<&Feel>
        ensures { IfSome result (λ v. (m : Bindings) → den self.now m ≡ Is v.now) }
    {
        match &self.tree {
            Tree::Constant(constant) => Some(constant.value()),
            _ => None,
        }
    }
}
