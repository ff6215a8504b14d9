//! All values that the inputs of a table's columns can have, as the analysis of the table is asked about them.
ghost use Rattle.std.specs.Prelude.{◌≡◌, ◌++◌, List, [], ℕ, IfOk, IfSome, IsTrue, true, length, map};
ghost use Rattle.std.specs.Arc.{arc_str_bytes};
ghost use Rattle.std.specs.List.{list_all};
ghost use Rattle.feel_value.specs.Datum.{Datum};
ghost use Rattle.dmn_analysis.specs.Asked.{is_asked, is_asked_text};
ghost use Rattle.dmn_analysis.specs.Cells.{is_text_among};
ghost use Rattle.dmn_ranges.specs.Asking.{AskColumns, text_in, texts_in, numbers_asked as numbers_asked_of};
ghost use Rattle.dmn_ranges.specs.Ranges.{is_among, lies_in};
ghost use Rattle.dmn_ranges.specs.Steps.{are_numbers as are_numbers_of};

use crate::interval::Interval;
use crate::outcomes::Outcomes;
use crate::range::{Range, are_numbers, either};
use crate::texts::{Texts, Word};
use dmn_analysis::{Asked, Numbers, Texts as AskedTexts};
use std::alloc::{AllocError, Global};
use std::sync::ArcStr;

fn numbers_asked(numbers: Option<Interval>) -> Numbers
    ensures { result ≡ numbers_asked_of numbers }
{
    match numbers {
        Some(numbers) => Numbers::Between(numbers.low, numbers.high),
        None => Numbers::None,
    }
}

// These texts, and that of one word more, if it is there; None where its bytes are no text.
fn with_text(
    alloc: Global,
    texts: Vec<ArcStr>,
    word: &Option<Word>,
) -> Result<Option<Vec<ArcStr>>, AllocError>
    ensures { IfOk result (λ found. IfSome found (λ more. map arc_str_bytes more.items ≡ map arc_str_bytes texts.items ++ text_in word.now)) }
{
    let Some(word) = word else {
        return Ok(Some(texts));
    };
    let Some(text) = word.as_str() else {
        return Ok(None);
    };
    let text = ArcStr::from_str(alloc, text)?;
    let mut more = texts;
    more.push(text)?;
    Ok(Some(more))
}

// The texts of these words; None where the bytes of one are no text.
fn texts_of(alloc: Global, words: &[Option<Word>]) -> Result<Option<Vec<ArcStr>>, AllocError>
    ensures { IfOk result (λ found. IfSome found (λ texts. map arc_str_bytes texts.items ≡ texts_in words.now)) }
{
    let mut texts = Vec::new(alloc);
    for word in words {
        let Some(more) = with_text(alloc, texts, word)? else {
            return Ok(None);
        };
        texts = more;
    }
    Ok(Some(texts))
}

fn are_none(texts: &[ArcStr]) -> bool
    ensures { IsTrue result → texts.now ≡ [] }
{
    texts.is_empty()
}

// These texts.
fn those(texts: Vec<ArcStr>) -> AskedTexts
    ensures { (s : List ℕ) → is_text_among texts.items s ≡ true → is_asked_text result s ≡ true }
{
    if are_none(&texts) {
        return AskedTexts::None;
    }
    AskedTexts::These(texts)
}

fn texts_asked(alloc: Global, texts: &Texts) -> Result<AskedTexts, AllocError>
    ensures { IfOk result (λ asked. (s : List ℕ) → is_among texts.now s ≡ true → is_asked_text asked s ≡ true) }
{
    let Texts::Few(words) = texts else {
        return Ok(AskedTexts::All);
    };
    let Some(texts) = texts_of(alloc, words)? else {
        return Ok(AskedTexts::All);
    };
    Ok(those(texts))
}

// All values of a range.
fn range_asked(alloc: Global, range: &Range) -> Result<Asked, AllocError>
    ensures { IfOk result (λ asked. (v : Datum) → lies_in range.now v ≡ true → is_asked asked v ≡ true) }
{
    let texts = texts_asked(alloc, &range.texts)?;
    Ok(Asked {
        null: range.nulls,
        truths: either(range.trues, range.falses),
        numbers: numbers_asked(range.numbers),
        texts,
        parted: either(range.lists, range.contexts),
    })
}

/// Of each column all values that its input can have, as the analysis of the table is asked about them.
pub fn columns_asked(alloc: Global, columns: &[Outcomes]) -> Result<Vec<Asked>, AllocError>
    ensures told { IfOk result (λ asked. AskColumns columns.now asked.items) }
    ensures count { IfOk result (λ asked. length asked.items ≡ length columns.now) }
{
    let mut asked = Vec::with_capacity(alloc, columns.len())?;
    for column in columns {
        let one = range_asked(alloc, &column.range)?;
        asked.push(one)?;
    }
    Ok(asked)
}

fn has_values(column: &Outcomes) -> bool
    ensures { result ≡ are_numbers_of column.now.range.numbers }
{
    are_numbers(column.range.numbers)
}

/// Whether each number that the input of a column can be is one of the range of numbers.
pub(crate) fn have_values(columns: &[Outcomes]) -> bool
    ensures { result ≡ list_all (λ o. are_numbers_of o.range.numbers) columns.now }
{
    columns.iter().all(|column| has_values(column))
}
