//! Unary tests as callers see them.

ghost use Rattle.std.specs.Prelude.{◌≡◌, ◌≢◌, true, IsTrue, IfOk, IfSome};
ghost use Rattle.feel_value.specs.Datum.{Datum};
ghost use Rattle.feel_value.specs.Limits.{is_value};
ghost use Rattle.feel_text.specs.Classes.{is_in_class};
ghost use Rattle.feel_text.specs.Meaning.{Bindings};
ghost use Rattle.feel_text.specs.Ready.{Meets};
ghost use Rattle.feel_text.specs.Satisfied.{satisfied, Broken, held_of};
ghost use Rattle.feel_text.specs.declared.held.Held.TheVariants.{No};
ghost use Rattle.feel_text.specs.Sieves.{IsSieveOf};
ghost use Rattle.feel_text.specs.Spells.{TestsHaveText};
ghost use Rattle.feel_text.specs.TestsView.{tests_view};

use crate::class::Class;
use crate::ready::Ready;
use crate::sieve::Sieve;
use crate::unary::TestsTree;
use crate::within_limits::tests_stay;
use feel_value::Feel;
use std::alloc::{AllocError, Global};
use std::fmt;
use std::marker::Model;

/// Unary tests, an input entry of a decision table, that some text spells. So each of their
/// expressions is at most 64 deep. What they ask of a value, and whether they are known to break
/// no limit, is found once, when they are read.
#[derive(Drop)]
pub struct Tests {
    tree: TestsTree,
    ready: Ready,
    keep_limits: bool,
}

impl Model for Tests {
    ghost use Rattle.feel_text.specs.Tests as specs;
    ghost use Rattle.feel_text.specs.Code.{tests_code};

    ghost Value = { specs.Tests };

    ghost coded = { tests_code };

    ghost use Rattle.std.specs.Prelude.{◌≡◌};
    ghost use Rattle.feel_text.specs.Spells.{TestsHaveText};
    ghost use Rattle.feel_text.specs.TestsView.{tests_view};
    ghost use Rattle.feel_text.specs.Ready.{AreReady};
    ghost use Rattle.feel_text.specs.WithinLimits.{tests_stay};

    ghost view = { λ t. tests_view t.tree };

    ghost invariant = { λ t. TestsHaveText (tests_view t.tree) × (t.keep_limits ≡ tests_stay (tests_view t.tree)) × AreReady t.ready (tests_view t.tree) };
}

impl Tests {
    /// The tests of a tree that some text spells.
    pub(crate) fn of(alloc: Global, tree: TestsTree) -> Result<Tests, AllocError>
        requires { TestsHaveText (tests_view tree) }
        ensures { IfOk result (λ t. t ≡ tests_view tree) }
    {
        let keep_limits = tests_stay(&tree);
        let ready = Ready::of(alloc, &tree)?;
        Ok(Tests {
            tree,
            ready,
            keep_limits,
        })
    }

    /// The tree of the tests.
    pub fn tree(&self) -> &TestsTree
        ensures { tests_view result.now ≡ self.now }
    {
        &self.tree
    }

    /// Whether the value meets the tests, whatever the names stand for; None where that has to be
    /// evaluated.
    pub fn told(&self, value: &Feel) -> Option<bool>
        ensures { IfSome result (λ met. (bindings : Bindings) → Meets (satisfied self.now value.now bindings) met) }
    {
        let met = self.ready.told(value.value())?;
        Some(met)
    }

    /// Whether each value of the class is known not to meet the tests, whatever the names stand for. False says nothing.
    pub fn misses(&self, class: Class) -> bool
        ensures { IsTrue result → (value : Datum) (bindings : Bindings) → is_value value ≡ true → is_in_class class value ≡ true → held_of (satisfied self.now value bindings) ≡ No }
    {
        self.ready.misses(class)
    }

    /// Which values may meet the tests, worked out once to be asked of many classes.
    pub fn sieve(&self) -> Sieve
        ensures { IsSieveOf self.now result }
    {
        self.ready.sieve()
    }

    /// Whether the tests are known to be met by no text but those that they name, of which there is one.
    pub fn ask_for_texts(&self) -> bool {
        self.ready.ask_for_texts()
    }

    /// Adds numbers at which the answer of the tests changes, as far as they are known.
    pub fn cuts(&self, cuts: &mut Vec<i64>) -> Result<(), AllocError> {
        self.ready.cuts(cuts)
    }

    /// Whether the tests are known to break no limit, whatever the value and whatever the names stand for.
    pub fn keep_limits(&self) -> bool
        ensures { IsTrue result → (value : Datum) (bindings : Bindings) → satisfied self.now value bindings ≢ Broken }
    {
        self.keep_limits
    }
}

impl fmt::Debug for Tests {
    fn fmt<W: fmt::Write>(&self, f: &mut fmt::Formatter<W>) -> fmt::Result {
        let Tests {
            tree,
            keep_limits,
            ..
        } = self;
        write!(
            f,
            "Tests {{ tree: {tree:?}, keep_limits: {keep_limits:?} }}"
        )
    }
}
