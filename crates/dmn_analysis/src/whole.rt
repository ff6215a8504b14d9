//! The cells of all values that are asked about.
ghost use Rattle.std.specs.Prelude.{◌≡◌, ◌≤◌, IfOk, IfSome, IsTrue, None, bytes_eq, length, map};
ghost use Rattle.std.specs.Arc.{arc_str_bytes};
ghost use Rattle.std.specs.List.{list_all};
ghost use Rattle.dmn_analysis.specs.Cells.{is_text_among};
ghost use Rattle.dmn_analysis.specs.Claims.{AreKnown};
ghost use Rattle.dmn_analysis.specs.Whole.{AreOthers, AreWhole, AreWholeTexts, IsWhole, highest as highest_of, lowest as lowest_of, whole_of};

use crate::asked::{Asked, Numbers, Texts};
use crate::cell::{Cell, Others, Words};
use std::alloc::{AllocError, Global};
use std::sync::ArcStr;

fn is_same(a: &ArcStr, b: &ArcStr) -> bool
    ensures same { IsTrue result → arc_str_bytes a.now ≡ arc_str_bytes b.now }
    ensures all { arc_str_bytes a.now ≡ arc_str_bytes b.now → IsTrue result }
{
    a.as_str() == b.as_str()
}

// Whether these are the same texts, one after another.
fn are_same(a: &[ArcStr], b: &[ArcStr]) -> bool
    ensures same { IsTrue result → map arc_str_bytes a.now ≡ map arc_str_bytes b.now }
    ensures all { map arc_str_bytes a.now ≡ map arc_str_bytes b.now → IsTrue result }
{
    if a.len() != b.len() {
        return false;
    }
    for i in 0..a.len() {
        if !is_same(&a[i], &b[i]) {
            return false;
        }
    }
    true
}

// Whether this is the text.
fn is_text(text: &ArcStr, word: &ArcStr) -> bool
    ensures { result ≡ bytes_eq (arc_str_bytes text.now) (arc_str_bytes word.now) }
{
    text.as_str() == word.as_str()
}

// Whether this is one of the words.
fn is_word(text: &ArcStr, words: &[ArcStr]) -> bool
    ensures { result ≡ is_text_among words.now (arc_str_bytes text.now) }
{
    words.iter().any(|word| is_text(text, word))
}

// Whether each of these is one of the words.
fn are_words(these: &[ArcStr], words: &[ArcStr]) -> bool
    ensures { result ≡ list_all (λ t. is_text_among words.now (arc_str_bytes t)) these.now }
{
    these.iter().all(|text| is_word(text, words))
}

// Which texts beside the words are asked about with these: none where each of these is a word, and otherwise all.
fn others_beside(these: &[ArcStr], words: &[ArcStr]) -> Others
    ensures { AreOthers these.now words.now result }
{
    if are_same(these, words) {
        return Others::None;
    }
    if are_words(these, words) {
        Others::None
    } else {
        Others::All
    }
}

/// Which texts of a column are asked about: its words before a place, and some of the others.
#[derive(Clone, Copy)]
struct WholeTexts {
    to: usize,
    others: Others,
}

// The texts that are asked about, and maybe more: with some of the words the others too, and with a text that is none all texts.
fn whole_texts(words: &[ArcStr], texts: &Texts) -> WholeTexts
    ensures { AreWholeTexts words.now texts.now result.to result.others }
{
    match texts {
        Texts::None => WholeTexts {
            to: 0,
            others: Others::None,
        },
        Texts::Utf8 => WholeTexts {
            to: words.len(),
            others: Others::Between(0, words.len()),
        },
        Texts::All => WholeTexts {
            to: words.len(),
            others: Others::All,
        },
        Texts::These(these) => WholeTexts {
            to: words.len(),
            others: others_beside(these, words),
        },
    }
}

// The lowest number that is asked about; where none is, it lies above the highest.
fn lowest(numbers: Numbers) -> i64
    ensures { result ≡ lowest_of numbers }
{
    match numbers {
        Numbers::None => 1,
        Numbers::Between(low, _) => low,
        Numbers::All => -i64::MAX,
    }
}

fn highest(numbers: Numbers) -> i64
    ensures { result ≡ highest_of numbers }
{
    match numbers {
        Numbers::None => 0,
        Numbers::Between(_, high) => high,
        Numbers::All => i64::MAX,
    }
}

// All values that are asked about, with these texts.
fn with_texts(asked: &Asked, texts: WholeTexts) -> Cell
    ensures { result ≡ whole_of asked.now texts.to texts.others }
{
    Cell {
        null: asked.null,
        yes: asked.truths,
        no: asked.truths,
        low: lowest(asked.numbers),
        high: highest(asked.numbers),
        from: 0,
        to: texts.to,
        others: texts.others,
        parted: asked.parted,
    }
}

/// The values of a column that are asked about.
fn whole_cell(words: &Words, asked: &Asked) -> Cell
    ensures { IsWhole words.now asked.now result }
{
    let texts = whole_texts(&words.texts, &asked.texts);
    with_texts(asked, texts)
}

/// The values of so many columns that are asked about; None where there are fewer.
pub(crate) fn whole(
    alloc: Global,
    words: &[Words],
    asked: &[Asked],
    count: usize,
) -> Result<Option<Vec<Cell>>, AllocError>
    ensures long { IfOk result (λ found. IfSome found (λ cells. length cells.items ≡ count)) }
    ensures all { IfOk result (λ found. IfSome found (λ cells. AreWhole words.now asked.now cells.items)) }
    ensures none { IfOk result (λ found. found ≡ None → count ≤ length words.now → AreKnown count words.now asked.now → ⊥) }
{
    let mut cells = Vec::with_capacity(alloc, count)?;
    for place in 0..count {
        if place >= words.len() || place >= asked.len() {
            return Ok(None);
        }
        cells.push(whole_cell(&words[place], &asked[place]))?;
    }
    Ok(Some(cells))
}
