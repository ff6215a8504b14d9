//! What can be given, as lines of JSON.
ghost use Rattle.std.specs.Prelude.{◌≡◌, ◌++◌, IfOk, OnOk, Some, is_some, option_map};
ghost use Rattle.std.specs.List.{flat_map, list_all, list_any};
ghost use Rattle.serde_json.specs.Data.{Items, array, boolean, number};
ghost use Rattle.serde_json.specs.Find.{of_integer};
ghost use Rattle.serde_json.specs.Written.{comma_if, compact_text, items_text};
ghost use Rattle.desk_lines.specs.Lines.{ended};
ghost use Rattle.desk_ranges.specs.Lines.{decision_line, few_told, head_text, interval_told, is_text as is_text_of, item_if, kinds_text, more_services, outcomes_told, parts_text, service_line, text_in as text_in_of, texts_told, word_items};

use dmn_ranges::{Interval, Outcomes, Range, Texts, Word};
use json_writer::{add_number, add_quoted};
use std::alloc::{AllocError, Global};

fn add_bool(is: bool, text: &mut Vec<u8>) -> Result<(), AllocError>
    ensures { OnOk result (text.new.items ≡ text.old.items ++ compact_text (boolean is)) }
{
    if is {
        text.extend_from_slice(b"true")
    } else {
        text.extend_from_slice(b"false")
    }
}

fn add_integer(value: i64, text: &mut Vec<u8>) -> Result<(), AllocError>
    ensures { OnOk result (text.new.items ≡ text.old.items ++ compact_text (number (of_integer value))) }
{
    text.extend_from_slice(itoa::Buffer::new().format(value).as_bytes())
}

/// Adds the least and the greatest number, or null where there are none.
#[tactic(auto, using(crate::proofs::Pieces::interval_pieces))]
fn add_interval(numbers: Option<Interval>, text: &mut Vec<u8>) -> Result<(), AllocError>
    ensures { OnOk result (text.new.items ≡ text.old.items ++ compact_text (interval_told numbers)) }
{
    let Some(numbers) = numbers else {
        return text.extend_from_slice(b"null");
    };
    text.push(b'[')?;
    add_integer(numbers.low, text)?;
    text.push(b',')?;
    add_integer(numbers.high, text)?;
    text.push(b']')?;
    Ok(())
}

/// Adds whether null and the truth values can be given.
#[tactic(auto, using(crate::proofs::Pieces::six_pieces))]
fn add_kinds(range: Range, text: &mut Vec<u8>) -> Result<(), AllocError>
    ensures { OnOk result (text.new.items ≡ text.old.items ++ kinds_text range) }
{
    text.extend_from_slice(b"{\"null\":")?;
    add_bool(range.nulls, text)?;
    text.extend_from_slice(b",\"true\":")?;
    add_bool(range.trues, text)?;
    text.extend_from_slice(b",\"false\":")?;
    add_bool(range.falses, text)?;
    Ok(())
}

/// The text of a word, as each word of a text has one.
fn text_of_word(word: &Word) -> Option<&str>
    ensures { option_map (λ s. s.now) result ≡ text_in_of (Some word.now) }
{
    let text = word.as_str()?;
    // They are UTF-8.
    let _bytes = text.as_bytes();
    Some(text)
}

/// The text of a word, if it is there.
fn text_in(word: &Option<Word>) -> Option<&str>
    ensures { option_map (λ s. s.now) result ≡ text_in_of word.now }
{
    match word {
        Some(word) => text_of_word(word),
        None => None,
    }
}

/// Whether a word is a text, if it is there.
fn is_text(word: &Option<Word>) -> bool
    ensures { result ≡ is_text_of word.now }
{
    word.is_none() || text_in(word).is_some()
}

fn are_texts(words: &[Option<Word>]) -> bool
    ensures { result ≡ list_all is_text_of words.now }
{
    words.iter().all(|word| is_text(word))
}

fn has_word(words: &[Option<Word>]) -> bool
    ensures { result ≡ list_any is_some words.now }
{
    words.iter().any(|word| word.is_some())
}

/// Adds a comma, where something stands before.
fn add_comma(later: bool, text: &mut Vec<u8>) -> Result<(), AllocError>
    ensures { OnOk result (text.new.items ≡ text.old.items ++ comma_if later) }
{
    if later {
        text.extend_from_slice(b",")
    } else {
        text.extend_from_slice(b"")
    }
}

/// Adds a word, if it is there, with a comma where something stands before. Tells whether something stands before what comes next.
fn add_word(
    alloc: Global,
    later: bool,
    word: &Option<Word>,
    text: &mut Vec<u8>,
) -> Result<bool, AllocError>
    ensures { IfOk result (λ next. (rest : Items) → text.old.items ++ items_text later (item_if (text_in_of word.now) rest) ≡ text.new.items ++ items_text next rest) }
{
    let Some(word) = text_in(word) else {
        return Ok(later);
    };
    add_comma(later, text)?;
    add_quoted(alloc, word, text)?;
    Ok(true)
}

/// Adds a list of words.
fn add_words(alloc: Global, words: &[Option<Word>], text: &mut Vec<u8>) -> Result<(), AllocError>
    ensures { OnOk result (text.new.items ≡ text.old.items ++ compact_text (array (word_items words.now))) }
{
    text.push(b'[')?;
    let mut later = false;
    for word in words {
        later = add_word(alloc, later, word, text)?;
    }
    text.push(b']')?;
    Ok(())
}

/// Adds a list of these words, or whether there is a text.
fn add_few(alloc: Global, words: &[Option<Word>], text: &mut Vec<u8>) -> Result<(), AllocError>
    ensures { OnOk result (text.new.items ≡ text.old.items ++ compact_text (few_told words.now)) }
{
    if !are_texts(words) {
        return add_bool(true, text);
    }
    if !has_word(words) {
        return add_bool(false, text);
    }
    add_words(alloc, words, text)
}

/// Adds which texts there are, where these are few, or whether there is one.
fn add_texts(alloc: Global, texts: Texts, text: &mut Vec<u8>) -> Result<(), AllocError>
    ensures { OnOk result (text.new.items ≡ text.old.items ++ compact_text (texts_told texts)) }
{
    match texts {
        Texts::Any => add_bool(true, text),
        Texts::Few(words) => add_few(alloc, &words, text),
    }
}

/// Adds which numbers and texts, and whether lists and contexts can be given.
fn add_parts(alloc: Global, range: Range, text: &mut Vec<u8>) -> Result<(), AllocError>
    ensures { OnOk result (text.new.items ≡ text.old.items ++ parts_text range) }
{
    text.extend_from_slice(b",\"numbers\":")?;
    add_interval(range.numbers, text)?;
    text.extend_from_slice(b",\"texts\":")?;
    add_texts(alloc, range.texts, text)?;
    text.extend_from_slice(b",\"lists\":")?;
    add_bool(range.lists, text)?;
    text.extend_from_slice(b",\"contexts\":")?;
    add_bool(range.contexts, text)?;
    Ok(())
}

/// Adds what can be given.
fn add_outcomes(alloc: Global, outcomes: Outcomes, text: &mut Vec<u8>) -> Result<(), AllocError>
    ensures { OnOk result (text.new.items ≡ text.old.items ++ compact_text (outcomes_told outcomes)) }
{
    add_kinds(outcomes.range, text)?;
    add_parts(alloc, outcomes.range, text)?;
    text.extend_from_slice(b",\"limit\":")?;
    add_bool(outcomes.limit, text)?;
    text.push(b'}')?;
    Ok(())
}

/// Adds the line of what a service can give.
pub(crate) fn add_result(
    alloc: Global,
    service: &str,
    outcomes: Outcomes,
    text: &mut Vec<u8>,
) -> Result<(), AllocError>
    ensures { OnOk result (text.new.items ≡ text.old.items ++ ended (service_line service.now outcomes)) }
{
    text.extend_from_slice(b"{\"service\":")?;
    add_quoted(alloc, service, text)?;
    text.extend_from_slice(b",\"gives\":")?;
    add_outcomes(alloc, outcomes, text)?;
    text.extend_from_slice(b"}\n")?;
    Ok(())
}

/// Begins the line of a decision of a service.
#[tactic(auto, using(crate::proofs::Pieces::four_pieces))]
fn begin_decision(
    alloc: Global,
    decision: &str,
    service: &str,
    text: &mut Vec<u8>,
) -> Result<(), AllocError>
    ensures { OnOk result (text.new.items ≡ text.old.items ++ head_text decision.now service.now) }
{
    text.extend_from_slice(b"{\"decision\":")?;
    add_quoted(alloc, decision, text)?;
    text.extend_from_slice(b",\"service\":")?;
    add_quoted(alloc, service, text)?;
    Ok(())
}

/// Adds the line of what a decision of a service can give.
#[tactic(auto, using(crate::proofs::Pieces::decision_pieces))]
pub(crate) fn add_decision(
    alloc: Global,
    decision: &str,
    service: &str,
    outcomes: Outcomes,
    text: &mut Vec<u8>,
) -> Result<(), AllocError>
    ensures { OnOk result (text.new.items ≡ text.old.items ++ ended (decision_line service.now (decision.now, outcomes))) }
{
    begin_decision(alloc, decision, service, text)?;
    text.extend_from_slice(b",\"gives\":")?;
    add_outcomes(alloc, outcomes, text)?;
    text.extend_from_slice(b"}\n")?;
    Ok(())
}

/// Adds the line of how many services are left out, where some are.
pub(crate) fn add_more(more: usize, text: &mut Vec<u8>) -> Result<(), AllocError>
    ensures { OnOk result (text.new.items ≡ text.old.items ++ flat_map ended (more_services more)) }
{
    if more == 0 {
        return Ok(());
    }
    text.extend_from_slice(b"{\"service\":null,\"more\":")?;
    add_number(more as u64, text)?;
    text.extend_from_slice(b"}\n")?;
    Ok(())
}
