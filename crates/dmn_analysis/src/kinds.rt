//! What the tests of a column ask for.
ghost use Rattle.std.specs.Prelude.{◌≡◌, ◌∷◌, [], IfOk, OnOk, map, option_map, true, false};
ghost use Rattle.std.specs.Arc.{arc_str_bytes};
ghost use Rattle.std.specs.List.{All, slice_get};
ghost use Rattle.feel_value.specs.Datum.{Datum};
ghost use Rattle.feel_value.specs.View.{datum_of};
ghost use Rattle.feel_text.specs.Constants.{expr_of_constant};
ghost use Rattle.feel_text.specs.TestsView.{test_view, test_views, tests_view};
ghost use Rattle.feel_text.specs.View.{view, views};
ghost use Rattle.dmn_table.specs.Parts.{rule_view};
ghost use Rattle.dmn_analysis.specs.Asked.{is_asked, is_in_utf8};
ghost use Rattle.dmn_analysis.specs.Constant.{is_arithmetic as is_arithmetic_of, is_sum as is_sum_of};
ghost use Rattle.dmn_analysis.specs.Kinds.{AskKinds, AskTexts, AsksAll, AsksOf, Kinds, column_tests, has_none, is_list, is_null, is_truth, kinds_of, listed, numbers_of, tests_in, tests_of_entry, text_in, without_parentheses};
ghost use Rattle.dmn_analysis.specs.Seeing.{entry_view, is_null_value, is_truth_value, is_whole_value, kinds_among, kinds_in, seen_kinds, value_words, with_kinds, with_words, words_of};

use crate::asked::{Asked, Numbers, Texts};
use crate::folded::bare;
use crate::words::in_order;
use dmn_table::{Rule, Table};
use feel_lang::Tests;
use feel_text::{Constant, Operator, Test, TestsTree, Tree};
use feel_value::Value;
use std::alloc::{AllocError, Global};
use std::sync::ArcStr;

/// The constants that stand in the tests of a column.
#[derive(Drop)]
struct Seen {
    null: bool,
    truths: bool,
    numbers: bool,
    parted: bool,
    texts: Vec<ArcStr>,
    // Whether a text is compared by order.
    has_order: bool,
}

fn is_null_value(value: &Value) -> bool
    ensures { result ≡ is_null_value (datum_of value.now) }
{
    match value {
        Value::Null => true,
        Value::Bool(_) | Value::Number(_) | Value::Text(_) | Value::List(_) | Value::Context(_) =>
            false,
    }
}

fn is_null_constant(constant: &Constant) -> bool
    ensures { result ≡ is_null (expr_of_constant constant.now) }
{
    is_null_value(constant.value().value())
}

fn is_truth_value(value: &Value) -> bool
    ensures { result ≡ is_truth_value (datum_of value.now) }
{
    match value {
        Value::Bool(_) => true,
        Value::Null | Value::Number(_) | Value::Text(_) | Value::List(_) | Value::Context(_) =>
            false,
    }
}

fn is_truth_constant(constant: &Constant) -> bool
    ensures { result ≡ is_truth (expr_of_constant constant.now) }
{
    is_truth_value(constant.value().value())
}

fn is_whole_value(value: &Value) -> bool
    ensures { result ≡ is_whole_value (datum_of value.now) }
{
    match value {
        Value::Number(_) => true,
        Value::Null | Value::Bool(_) | Value::Text(_) | Value::List(_) | Value::Context(_) => false,
    }
}

fn is_whole_constant(constant: &Constant) -> bool
    ensures { result ≡ is_sum_of (expr_of_constant constant.now) }
{
    is_whole_value(constant.value().value())
}

fn value_text(value: &Value) -> Option<&ArcStr>
    ensures { words_of result ≡ value_words (datum_of value.now) }
{
    match value {
        Value::Text(text) => Some(text),
        Value::Null | Value::Bool(_) | Value::Number(_) | Value::List(_) | Value::Context(_) =>
            None,
    }
}

fn constant_text(constant: &Constant) -> Option<&ArcStr>
    ensures { words_of result ≡ text_in (expr_of_constant constant.now) }
{
    value_text(constant.value().value())
}

/// Whether an expression is null.
fn is_null(expr: &Tree) -> bool
    ensures { result ≡ is_null (view expr.now) }
{
    match expr {
        Tree::Constant(constant) => is_null_constant(constant),
        Tree::Number(_)
        | Tree::Name(_)
        | Tree::Group(_)
        | Tree::List(_)
        | Tree::Call(_, _)
        | Tree::Modulo(_, _)
        | Tree::Not(_)
        | Tree::Negate(_)
        | Tree::Path(_, _)
        | Tree::Binary(_, _, _)
        | Tree::Between(_, _, _)
        | Tree::If(_, _, _) => false,
    }
}

/// Whether it is true or false.
fn is_truth(expr: &Tree) -> bool
    ensures { result ≡ is_truth (view expr.now) }
{
    match expr {
        Tree::Constant(constant) => is_truth_constant(constant),
        Tree::Number(_)
        | Tree::Name(_)
        | Tree::Group(_)
        | Tree::List(_)
        | Tree::Call(_, _)
        | Tree::Modulo(_, _)
        | Tree::Not(_)
        | Tree::Negate(_)
        | Tree::Path(_, _)
        | Tree::Binary(_, _, _)
        | Tree::Between(_, _, _)
        | Tree::If(_, _, _) => false,
    }
}

// Whether an operator works numbers out.
fn is_arithmetic(operator: Operator) -> bool
    ensures { result ≡ is_arithmetic_of operator }
{
    matches!(
        operator,
        Operator::Add | Operator::Subtract | Operator::Multiply
    )
}

/// Whether it is of numbers alone, with parentheses, `-`, `+` and `*`.
fn is_sum(expr: &Tree) -> bool
    ensures { result ≡ is_sum_of (view expr.now) }
{
    match expr {
        Tree::Constant(constant) => is_whole_constant(constant),
        Tree::Number(_) => true,
        Tree::Group(inner) => is_sum(inner),
        Tree::Negate(inner) => is_sum(inner),
        Tree::Binary(operator, left, right) => {
            is_arithmetic(*operator) && is_sum(left) && is_sum(right)
        }
        Tree::Name(_)
        | Tree::List(_)
        | Tree::Call(_, _)
        | Tree::Modulo(_, _)
        | Tree::Not(_)
        | Tree::Path(_, _)
        | Tree::Between(_, _, _)
        | Tree::If(_, _, _) => false,
    }
}

/// Whether it is a list.
fn is_list(expr: &Tree) -> bool
    ensures { result ≡ is_list (view expr.now) }
{
    match expr {
        Tree::List(_) => true,
        Tree::Constant(_)
        | Tree::Number(_)
        | Tree::Name(_)
        | Tree::Group(_)
        | Tree::Call(_, _)
        | Tree::Modulo(_, _)
        | Tree::Not(_)
        | Tree::Negate(_)
        | Tree::Path(_, _)
        | Tree::Binary(_, _, _)
        | Tree::Between(_, _, _)
        | Tree::If(_, _, _) => false,
    }
}

/// The text that it is.
fn text_of(expr: &Tree) -> Option<&ArcStr>
    ensures { words_of result ≡ text_in (view expr.now) }
{
    match expr {
        Tree::Constant(constant) => constant_text(constant),
        Tree::Number(_)
        | Tree::Name(_)
        | Tree::Group(_)
        | Tree::List(_)
        | Tree::Call(_, _)
        | Tree::Modulo(_, _)
        | Tree::Not(_)
        | Tree::Negate(_)
        | Tree::Path(_, _)
        | Tree::Binary(_, _, _)
        | Tree::Between(_, _, _)
        | Tree::If(_, _, _) => None,
    }
}

fn entry_at(tests: &[Tests], place: usize) -> Option<&Tests>
    ensures { option_map (λ t. t.now) result ≡ slice_get tests.now place }
{
    if place >= tests.len() {
        return None;
    }
    Some(&tests[place])
}

impl Seen {
    fn see_text(&mut self, text: Option<&ArcStr>) -> Result<(), AllocError>
        ensures { OnOk result (seen_kinds self.new ≡ with_words (seen_kinds self.old) (words_of text.entry)) }
    {
        let Some(text) = text else {
            return Ok(());
        };
        let copy = text.clone()?;
        self.texts.push(copy)?;
        Ok(())
    }

    fn see(&mut self, expr: &Tree) -> Result<(), AllocError>
        ensures { OnOk result (seen_kinds self.new ≡ with_kinds (seen_kinds self.old) (kinds_in false (view expr.now))) }
    {
        self.null |= is_null(expr);
        self.truths |= is_truth(expr);
        self.numbers |= is_sum(expr);
        self.parted |= is_list(expr);
        self.see_text(text_of(expr))?;
        Ok(())
    }

    // Of an expression that the input is compared with by order.
    fn see_bound(&mut self, expr: &Tree) -> Result<(), AllocError>
        ensures { OnOk result (seen_kinds self.new ≡ with_kinds (seen_kinds self.old) (kinds_in true (view expr.now))) }
    {
        self.has_order |= text_of(expr).is_some();
        self.see(expr)?;
        Ok(())
    }

    fn see_one(&mut self, expr: &Tree) -> Result<(), AllocError>
        ensures { OnOk result (seen_kinds self.new ≡ with_kinds (seen_kinds self.old) (kinds_among (view expr.now ∷ []))) }
    {
        self.see(expr)?;
        Ok(())
    }

    fn see_members(&mut self, members: &[Tree]) -> Result<(), AllocError>
        ensures { OnOk result (seen_kinds self.new ≡ with_kinds (seen_kinds self.old) (kinds_among (without_parentheses (views members.now)))) }
    {
        for member in members {
            self.see(bare(member))?;
        }
        Ok(())
    }

    // Of an expression that the input is to be, or in whose list it is to be.
    fn see_asked(&mut self, expr: &Tree) -> Result<(), AllocError>
        ensures { OnOk result (seen_kinds self.new ≡ with_kinds (seen_kinds self.old) (kinds_among (listed (view expr.now)))) }
    {
        match expr {
            Tree::List(members) => {
                self.see_members(members)?;
                Ok(())
            }
            Tree::Constant(_) => {
                self.see_one(expr)?;
                Ok(())
            }
            Tree::Number(_)
            | Tree::Name(_)
            | Tree::Group(_)
            | Tree::Call(_, _)
            | Tree::Modulo(_, _)
            | Tree::Not(_)
            | Tree::Negate(_)
            | Tree::Path(_, _)
            | Tree::Binary(_, _, _)
            | Tree::Between(_, _, _)
            | Tree::If(_, _, _) => {
                self.see_one(expr)?;
                Ok(())
            }
        }
    }

    fn see_test(&mut self, test: &Test) -> Result<(), AllocError>
        ensures { OnOk result (seen_kinds self.new ≡ with_kinds (seen_kinds self.old) (kinds_of (test_view test.now ∷ []))) }
    {
        match test {
            Test::Compares(_, expr) => {
                self.see_bound(bare(expr))?;
                Ok(())
            }
            Test::Interval(_, low, high, _) => {
                self.see_bound(bare(low))?;
                self.see_bound(bare(high))?;
                Ok(())
            }
            Test::Equals(expr) => {
                self.see_asked(bare(expr))?;
                Ok(())
            }
        }
    }

    fn see_each(&mut self, tests: &[Test]) -> Result<(), AllocError>
        ensures { OnOk result (seen_kinds self.new ≡ with_kinds (seen_kinds self.old) (kinds_of (test_views tests.now))) }
    {
        for test in tests {
            self.see_test(test)?;
        }
        Ok(())
    }

    fn see_tests(&mut self, tests: &TestsTree) -> Result<(), AllocError>
        ensures { OnOk result (seen_kinds self.new ≡ with_kinds (seen_kinds self.old) (kinds_of (tests_in (tests_view tests.now)))) }
    {
        match tests {
            TestsTree::Any => Ok(()),
            TestsTree::OneOf(tests) => {
                self.see_each(tests)?;
                Ok(())
            }
            TestsTree::NoneOf(tests) => {
                self.see_each(tests)?;
                Ok(())
            }
        }
    }

    fn see_entry(&mut self, entry: Option<&Tests>) -> Result<(), AllocError>
        ensures { OnOk result (seen_kinds self.new ≡ with_kinds (seen_kinds self.old) (kinds_of (tests_of_entry (entry_view entry.entry)))) }
    {
        let Some(tests) = entry else {
            return Ok(());
        };
        self.see_tests(tests.tree())?;
        Ok(())
    }

    fn nothing(alloc: Global) -> Seen
        ensures { seen_kinds result ≡ kinds_of [] }
    {
        Seen {
            null: false,
            truths: false,
            numbers: false,
            parted: false,
            texts: Vec::new(alloc),
            has_order: false,
        }
    }

    fn of(alloc: Global, rules: &[Rule], place: usize) -> Result<Seen, AllocError>
        ensures { IfOk result (λ seen. seen_kinds seen ≡ kinds_of (column_tests (map rule_view rules.now) place)) }
    {
        let mut seen = Seen::nothing(alloc);
        for rule in rules {
            seen.see_entry(entry_at(&rule.tests, place))?;
        }
        Ok(seen)
    }

    // Whether there is no constant but null.
    fn is_nothing(&self) -> bool
        ensures { result ≡ has_none (seen_kinds self.now) }
    {
        if self.truths || self.numbers || self.parted {
            return false;
        }
        self.texts.is_empty()
    }

    // Every value; where texts are compared by order, of texts those in UTF-8, of which that can be told.
    fn every(&self) -> Asked
        ensures asked { (v : Datum) → is_in_utf8 v ≡ true → is_asked result v ≡ true }
        ensures all { AsksAll (seen_kinds self.now) result }
    {
        if self.has_order {
            return Asked::every_in_utf8();
        }
        Asked::every()
    }

    // What is asked for: of texts all, or where `words_only` says so those that are seen, unless some are compared by order. Where
    // there is no constant but null, every value.
    fn into_asked(self, words_only: bool) -> Asked
        ensures { AsksOf words_only (seen_kinds self) result }
    {
        if self.is_nothing() {
            return self.every();
        }
        let Seen {
            null,
            truths,
            numbers,
            parted,
            texts,
            has_order,
        } = self;
        let numbers = numbers_asked(numbers);
        let texts = texts_asked(texts, words_only, has_order);
        Asked {
            null,
            truths,
            numbers,
            texts,
            parted,
        }
    }
}

fn numbers_asked(are: bool) -> Numbers
    ensures { result ≡ numbers_of are }
{
    if are { Numbers::All } else { Numbers::None }
}

// Of the texts that stand in tests, which are asked about.
fn texts_asked(texts: Vec<ArcStr>, words_only: bool, has_order: bool) -> Texts
    ensures { (k : Kinds) → k.words ≡ map arc_str_bytes texts.items → k.by_order ≡ has_order → AskTexts words_only k result }
{
    if texts.is_empty() {
        return Texts::None;
    }
    if has_order {
        return Texts::Utf8;
    }
    if words_only {
        return Texts::These(in_order(texts));
    }
    Texts::All
}

/// Of each column of the table the values of the kinds (number, text, truth value, null, list or context) of the constants in its
/// tests, or every value where there is no constant but null; with `words_only`, of texts only those that stand in its tests, where no
/// test compares texts by order.
pub fn kinds_asked(alloc: Global, table: &Table, words_only: bool) -> Result<Vec<Asked>, AllocError>
    ensures { IfOk result (λ asked. AskKinds words_only table.now asked.items) }
{
    let count = table.inputs().len();
    let mut asked = Vec::with_capacity(alloc, count)?;
    for place in 0..count {
        let seen = Seen::of(alloc, table.rules(), place)?;
        let one = seen.into_asked(words_only);
        asked.push(one)?;
    }
    Ok(asked)
}

/// Of each column of the table every value; where a test compares texts by order, of texts those in UTF-8.
pub fn every_value(alloc: Global, table: &Table) -> Result<Vec<Asked>, AllocError>
    ensures asked { IfOk result (λ asked. All (λ a. (v : Datum) → is_in_utf8 v ≡ true → is_asked a v ≡ true) asked.items) }
{
    let count = table.inputs().len();
    let mut asked = Vec::with_capacity(alloc, count)?;
    for place in 0..count {
        let seen = Seen::of(alloc, table.rules(), place)?;
        asked.push(seen.every())?;
    }
    Ok(asked)
}
