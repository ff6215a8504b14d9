//! The texts by which the values of a table's columns are told.
ghost use Rattle.std.specs.Prelude.{◌≡◌, IfOk, IsTrue, length};
ghost use Rattle.dmn_analysis.specs.Cells.{AllInOrder, AreInOrder};

use crate::asked::{Asked, Texts};
use crate::cell::Words;
use crate::class::is_less;
use crate::folded::{bare, literal};
use dmn_table::Rule;
use feel_text::{Test, TestsTree, Tree};
use feel_value::Value;
use std::alloc::{AllocError, Global};
use std::sync::ArcStr;

fn add_text(texts: &mut Vec<ArcStr>, expr: &Tree) -> Result<(), AllocError> {
    if let Some(Value::Text(text)) = literal(expr) {
        texts.push(text.clone()?)?;
    }
    Ok(())
}

fn add_texts(texts: &mut Vec<ArcStr>, members: &[Tree]) -> Result<(), AllocError> {
    for member in members {
        add_text(texts, member)?;
    }
    Ok(())
}

fn add_test(texts: &mut Vec<ArcStr>, test: &Test) -> Result<(), AllocError> {
    match test {
        Test::Compares(_, expr) => add_text(texts, expr),
        Test::Equals(expr) => match bare(expr) {
            Tree::List(members) => add_texts(texts, members),
            _ => add_text(texts, expr),
        },
        Test::Interval(_, low, high, _) => {
            add_text(texts, low)?;
            add_text(texts, high)
        }
    }
}

fn add_tests(texts: &mut Vec<ArcStr>, tests: &TestsTree) -> Result<(), AllocError> {
    match tests {
        TestsTree::Any => Ok(()),
        TestsTree::OneOf(tests) | TestsTree::NoneOf(tests) => {
            for test in tests {
                add_test(texts, test)?;
            }
            Ok(())
        }
    }
}

/// These texts, each once, in their order.
pub(crate) fn in_order(texts: Vec<ArcStr>) -> Vec<ArcStr> {
    let mut texts = texts;
    texts.sort_unstable_by(|a, b| a.as_str().cmp(b.as_str()));
    texts.dedup_by(|a, b| a.as_str() == b.as_str());
    texts
}

/// Whether each of these texts is less than the one behind it.
pub(crate) fn are_in_order(texts: &[ArcStr]) -> bool
    ensures { IsTrue result → AreInOrder texts.now }
{
    for i in 1..texts.len() {
        if !is_less(texts[i - 1].as_str(), texts[i].as_str()) {
            return false;
        }
    }
    true
}

// The texts that stand in the tests of the column at this place.
fn tested_texts(alloc: Global, rules: &[Rule], place: usize) -> Result<Vec<ArcStr>, AllocError> {
    let mut texts = Vec::new(alloc);
    for rule in rules {
        if let Some(tests) = rule.tests.get(place) {
            add_tests(&mut texts, tests.tree())?;
        }
    }
    Ok(texts)
}

fn copied(alloc: Global, texts: &[ArcStr]) -> Result<Vec<ArcStr>, AllocError> {
    let mut copies = Vec::with_capacity(alloc, texts.len())?;
    for text in texts {
        copies.push(text.clone()?)?;
    }
    Ok(copies)
}

// The texts that a column is asked about, where these are a few, and otherwise those that stand in its tests.
fn texts_of(
    alloc: Global,
    rules: &[Rule],
    asked: &[Asked],
    place: usize,
) -> Result<Vec<ArcStr>, AllocError> {
    match asked.get(place) {
        Some(
            Asked {
                texts: Texts::These(texts),
                ..
            },
        ) => copied(alloc, texts),
        _ => tested_texts(alloc, rules, place),
    }
}

/// The texts by which the values of the column at this place are told, each once, in their order: those that it is asked about, where
/// these are a few, and otherwise those that stand in its tests. That they are in order is looked at again, so that it can be relied
/// on; if they weren't, there would be none.
pub(crate) fn words_of(
    alloc: Global,
    rules: &[Rule],
    asked: &[Asked],
    place: usize,
) -> Result<Words, AllocError>
    ensures { IfOk result (λ words. AreInOrder words.texts.items) }
{
    let texts = texts_of(alloc, rules, asked, place)?;
    let texts = in_order(texts);
    if !are_in_order(&texts) {
        return Ok(Words {
            texts: Vec::new(alloc),
        });
    }
    Ok(Words { texts })
}

/// The same of each of so many columns.
pub(crate) fn all_words(
    alloc: Global,
    rules: &[Rule],
    asked: &[Asked],
    count: usize,
) -> Result<Vec<Words>, AllocError>
    ensures count { IfOk result (λ all. length all.items ≡ count) }
    ensures order { IfOk result (λ all. AllInOrder all.items) }
{
    let mut all = Vec::with_capacity(alloc, count)?;
    for place in 0..count {
        let words = words_of(alloc, rules, asked, place)?;
        all.push(words)?;
    }
    Ok(all)
}
