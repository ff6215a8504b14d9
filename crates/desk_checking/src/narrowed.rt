//! What a table is asked about before all else, where it is known what comes to it: that; but of a column to which every value comes the
//! kinds of values that its tests ask.
ghost use Rattle.std.specs.Prelude.{◌≡◌, IfOk, Some, if◌then◌else◌, map, option_map};
ghost use Rattle.std.specs.Arc.{arc_str_bytes};
ghost use Rattle.std.specs.List.{list_any, slice_get};
ghost use Rattle.desk_checking.specs.Answering.{AreNarrowed, AreSame, AreSameTexts, AskNarrowed, IsNarrowed, are_all_numbers as are_all_numbers_of, are_all_texts as are_all_texts_of, is_every as is_every_of};

use dmn_analysis::{Asked, Numbers, Texts, kinds_asked};
use dmn_table::Table;
use std::alloc::{AllocError, Global};
use std::sync::ArcStr;

fn are_all_numbers(numbers: Numbers) -> bool
    ensures { result ≡ are_all_numbers_of numbers }
{
    match numbers {
        Numbers::None => false,
        Numbers::Between(low, high) => low <= -i64::MAX && i64::MAX <= high,
        Numbers::All => true,
    }
}

fn are_all_texts(texts: &Texts) -> bool
    ensures { result ≡ are_all_texts_of texts.now }
{
    match texts {
        Texts::None => false,
        Texts::These(_) => false,
        Texts::Utf8 => true,
        Texts::All => true,
    }
}

fn is_every(asked: &Asked) -> bool
    ensures { result ≡ is_every_of asked.now }
{
    (asked.null && asked.truths)
        && (asked.parted && (are_all_numbers(asked.numbers) && are_all_texts(&asked.texts)))
}

/// Whether every value comes to some column.
pub(crate) fn has_every(comes: &[Asked]) -> bool
    ensures { result ≡ list_any is_every_of comes.now }
{
    comes.iter().any(|asked| is_every(asked))
}

fn copied_texts(alloc: Global, texts: &[ArcStr]) -> Result<Vec<ArcStr>, AllocError>
    ensures { IfOk result (λ copies. map arc_str_bytes copies.items ≡ map arc_str_bytes texts.now) }
{
    let mut copies = Vec::with_capacity(alloc, texts.len())?;
    for text in texts {
        let copy = text.clone()?;
        copies.push(copy)?;
    }
    Ok(copies)
}

fn same_texts(alloc: Global, texts: &Texts) -> Result<Texts, AllocError>
    ensures { IfOk result (AreSameTexts texts.now) }
{
    match texts {
        Texts::None => Ok(Texts::None),
        Texts::These(texts) => {
            let copies = copied_texts(alloc, texts)?;
            Ok(Texts::These(copies))
        }
        Texts::Utf8 => Ok(Texts::Utf8),
        Texts::All => Ok(Texts::All),
    }
}

/// The same values.
fn copied(alloc: Global, asked: &Asked) -> Result<Asked, AllocError>
    ensures { IfOk result (AreSame asked.now) }
{
    let texts = same_texts(alloc, &asked.texts)?;
    Ok(Asked {
        null: asked.null,
        truths: asked.truths,
        numbers: asked.numbers,
        texts,
        parted: asked.parted,
    })
}

/// Of the values that come to a column and those of its kinds the ones that are asked about.
fn chosen<'a>(comes: &'a Asked, kinds: &'a Asked) -> &'a Asked
    ensures { result.now ≡ (if is_every_of comes.now then kinds.now else comes.now) }
{
    if is_every(comes) { kinds } else { comes }
}

/// What is asked about in a column to which these values come.
fn narrower(alloc: Global, comes: &Asked, kinds: Option<&Asked>) -> Result<Asked, AllocError>
    ensures { IfOk result (IsNarrowed (Some comes.now) (option_map (λ k. k.now) kinds.entry)) }
{
    match kinds {
        Some(kinds) => {
            let asked = copied(alloc, chosen(comes, kinds))?;
            Ok(asked)
        }
        None => {
            let asked = copied(alloc, comes)?;
            Ok(asked)
        }
    }
}

fn asked_at(asked: &[Asked], place: usize) -> Option<&Asked>
    ensures { option_map (λ a. a.now) result ≡ slice_get asked.now place }
{
    asked.get(place)
}

/// The same of each column.
fn each_narrower(alloc: Global, comes: &[Asked], kinds: &[Asked]) -> Result<Vec<Asked>, AllocError>
    ensures { IfOk result (λ asked. AreNarrowed comes.now kinds.now asked.items) }
{
    let mut all = Vec::with_capacity(alloc, comes.len())?;
    for place in 0..comes.len() {
        let asked = narrower(alloc, &comes[place], asked_at(kinds, place))?;
        all.push(asked)?;
    }
    Ok(all)
}

/// What the columns of a table are asked about to which these values come; of a column to which every value comes the values of the kinds
/// of the constants in its tests, or, where only words are asked, the words.
pub(crate) fn narrowed(
    alloc: Global,
    table: &Table,
    comes: &[Asked],
    words_only: bool,
) -> Result<Vec<Asked>, AllocError>
    ensures { IfOk result (λ asked. AskNarrowed words_only table.now comes.now asked.items) }
{
    let kinds = kinds_asked(alloc, table, words_only)?;
    let asked = each_narrower(alloc, comes, &kinds)?;
    Ok(asked)
}
