//! A value of each of some cells.
ghost use Rattle.std.specs.Prelude.{◌≡◌, ◌≤◌, ◌<◌, ◌&&◌, ℕ, ℤ, List, true, false, IfOk, IfSome, IsTrue, None, int_le, length};
ghost use Rattle.std.specs.Arc.{arc_str_bytes};
ghost use Rattle.std.specs.List.{All};
ghost use Rattle.std.specs.declared.alloc.Global.{Global as GlobalData};
ghost use Rattle.std.specs.declared.sync.ArcStr.{ArcStr as ArcStrData};
ghost use Rattle.feel_value.specs.Datum.{Datum};
ghost use Rattle.feel_value.specs.Limits.{in_range, is_value};
ghost use Rattle.feel_value.specs.View.{datum_of};
ghost use Rattle.dmn_analysis.specs.Cells.{AllInOrder, AreIn, AreInOrder, IsOther, IsTextBehind, is_in, is_text_among, is_text_in};
ghost use Rattle.dmn_analysis.specs.declared.cell.Others.TheVariants.{Between};
ghost use Rattle.dmn_analysis.specs.Telling.{HasNoOther, IsInAt, IsVoid, IsVoidAt};

use crate::cell::{Cell, Others, Words, within};
use crate::class::is_less;
use feel_value::{Feel, Value};
use std::alloc::{AllocError, Global};
use std::sync::ArcStr;

// The number of the cell nearest to 0; None where none of its numbers keeps the limits.
fn number_of(cell: Cell) -> Option<i64>
    ensures inside { IfSome result (λ n. (int_le cell.low n && int_le n cell.high) ≡ true) }
    ensures lawful { IfSome result (λ n. in_range n ≡ true) }
    ensures none { result ≡ None → (z : ℤ) → in_range z ≡ true → (int_le cell.low z && int_le z cell.high) ≡ false }
{
    if cell.low > cell.high {
        return None;
    }
    if cell.high == i64::MIN {
        return None;
    }
    if cell.high < 0 {
        return Some(cell.high);
    }
    if cell.low > 0 {
        return Some(cell.low);
    }
    Some(0)
}

// How many bytes the longest of these texts has.
fn longest(texts: &[ArcStr]) -> usize
    ensures { All (λ t. length (arc_str_bytes t) ≤ result) texts.now }
{
    let mut longest = 0;
    for text in texts {
        let bytes = text.as_str().len();
        if bytes > longest {
            longest = bytes;
        }
    }
    longest
}

// A text of more bytes than these.
fn longer_text(alloc: Global, bytes: usize) -> Result<ArcStr, AllocError>
    ensures { IfOk result (λ t. bytes < length (arc_str_bytes t)) }
{
    let mut text = String::from_str(alloc, "other")?;
    for _place in 0..bytes {
        text.push_str("x")?;
    }
    let text = ArcStr::from_str(alloc, text.as_str())?;
    Ok(text)
}

// A text that is none of these.
fn other_text(alloc: Global, texts: &[ArcStr]) -> Result<ArcStr, AllocError>
    ensures { IfOk result (λ t. is_text_among texts.now (arc_str_bytes t) ≡ false) }
{
    let text = longer_text(alloc, longest(texts))?;
    Ok(text)
}

// The least text that is greater than the word before this place; before the first place, the least of all.
fn text_behind(alloc: Global, words: &[ArcStr], place: usize) -> Result<ArcStr, AllocError>
    requires { place ≤ length words.now }
    ensures { IfOk result (λ t. IsTextBehind words.now place (arc_str_bytes t)) }
{
    let mut text = String::new(alloc);
    if place > 0 {
        text.push_str(words[place - 1].as_str())?;
        text.push_str("\0")?;
    }
    let text = ArcStr::from_str(alloc, text.as_str())?;
    Ok(text)
}

// A text that is no word, greater than the words before the first place and less than those from the second on. None where there is
// none.
fn text_between(
    alloc: Global,
    words: &[ArcStr],
    from: usize,
    to: usize,
) -> Result<Option<ArcStr>, AllocError>
    requires { AreInOrder words.now }
    ensures inside { IfOk result (λ found. IfSome found (λ t. IsOther words.now (Between from to) (arc_str_bytes t))) }
    ensures none { IfOk result (λ found. found ≡ None → (s : List ℕ) → IsOther words.now (Between from to) s → ⊥) }
{
    let first = if from < words.len() {
        from
    } else {
        words.len()
    };
    for place in first..words.len() + 1 {
        if place > to {
            return Ok(None);
        }
        let text = text_behind(alloc, words, place)?;
        if place == words.len() || is_less(text.as_str(), words[place].as_str()) {
            return Ok(Some(text));
        }
    }
    Ok(None)
}

// A text that is no word; None where there is none of these.
fn other_of(alloc: Global, words: &[ArcStr], others: Others) -> Result<Option<ArcStr>, AllocError>
    requires { AreInOrder words.now }
    ensures inside { IfOk result (λ found. IfSome found (λ t. IsOther words.now others (arc_str_bytes t))) }
    ensures none { IfOk result (λ found. found ≡ None → (s : List ℕ) → IsOther words.now others s → ⊥) }
{
    match others {
        Others::None => Ok(None),
        Others::All => {
            let text = other_text(alloc, words)?;
            Ok(Some(text))
        }
        Others::Between(from, to) => {
            let text = text_between(alloc, words, from, to)?;
            Ok(text)
        }
    }
}

// A text of the cell; None where it has none.
fn text_of(alloc: Global, words: &[ArcStr], cell: Cell) -> Result<Option<ArcStr>, AllocError>
    requires { AreInOrder words.now }
    ensures inside { IfOk result (λ found. IfSome found (λ t. is_text_in words.now cell (arc_str_bytes t) ≡ true)) }
    ensures none { IfOk result (λ found. found ≡ None → (s : List ℕ) → is_text_in words.now cell s ≡ false) }
{
    let some = within(words, cell.from, cell.to);
    if !some.is_empty() {
        let word = some[0].clone()?;
        return Ok(Some(word));
    }
    let other = other_of(alloc, words, cell.others)?;
    Ok(other)
}

// A value of the cell that is neither a number nor a text; None where it has none.
fn other_value(alloc: Global, cell: Cell) -> Result<Option<Value>, AllocError>
    ensures inside { IfOk result (λ found. IfSome found (λ v. (words : List (ArcStrData GlobalData)) → is_in words cell (datum_of v) ≡ true)) }
    ensures lawful { IfOk result (λ found. IfSome found (λ v. is_value (datum_of v) ≡ true)) }
    ensures none { IfOk result (λ found. found ≡ None → HasNoOther cell) }
{
    if cell.yes {
        return Ok(Some(Value::Bool(true)));
    }
    if cell.no {
        return Ok(Some(Value::Bool(false)));
    }
    if cell.null {
        return Ok(Some(Value::Null));
    }
    if cell.parted {
        let list = Value::list(alloc, Vec::new(alloc))?;
        return Ok(Some(list));
    }
    Ok(None)
}

// A value of the cell, a number or a text where there is one; None where none of its values keeps the limits.
fn value_of(alloc: Global, words: &[ArcStr], cell: Cell) -> Result<Option<Value>, AllocError>
    requires { AreInOrder words.now }
    ensures inside { IfOk result (λ found. IfSome found (λ v. is_in words.now cell (datum_of v) ≡ true)) }
    ensures lawful { IfOk result (λ found. IfSome found (λ v. is_value (datum_of v) ≡ true)) }
    ensures none { IfOk result (λ found. found ≡ None → (v : Datum) → is_value v ≡ true → is_in words.now cell v ≡ false) }
{
    if let Some(number) = number_of(cell) {
        return Ok(Some(Value::Number(number)));
    }
    if let Some(text) = text_of(alloc, words, cell)? {
        return Ok(Some(Value::Text(text)));
    }
    let other = other_value(alloc, cell)?;
    Ok(other)
}

// A value of the cell at a place; None where there is none.
fn value_at(
    alloc: Global,
    words: &[Words],
    place: usize,
    cell: Cell,
) -> Result<Option<Feel>, AllocError>
    requires { AllInOrder words.now }
    ensures inside { IfOk result (λ found. IfSome found (IsInAt words.now place cell)) }
    ensures lawful { IfOk result (λ found. IfSome found (λ v. is_value v ≡ true)) }
    ensures none { IfOk result (λ found. found ≡ None → IsVoidAt words.now place cell) }
{
    if place >= words.len() {
        return Ok(Feel::of(Value::Null));
    }
    let Some(value) = value_of(alloc, &words[place].texts, cell)? else {
        return Ok(None);
    };
    Ok(Feel::of(value))
}

// Whether the cell has nothing but texts between words, of which there may be none.
fn is_between_alone(cell: Cell) -> bool {
    let others = cell.null || cell.yes || cell.no || cell.parted;
    let Others::Between(_, _) = cell.others else {
        return false;
    };
    !others && cell.low > cell.high && cell.from >= cell.to
}

/// Whether it is known that the cells have no values: in one of them nothing but texts between words is asked about, of which there are
/// none.
pub(crate) fn is_void(alloc: Global, words: &[Words], cells: &[Cell]) -> Result<bool, AllocError>
    requires { AllInOrder words.now }
    ensures { IfOk result (λ void. IsTrue void → IsVoid words.now cells.now) }
{
    for (place, cell) in cells.iter().enumerate() {
        if !is_between_alone(*cell) {
            continue;
        }
        let None = value_at(alloc, words, place, *cell)? else {
            continue;
        };
        return Ok(true);
    }
    Ok(false)
}

/// A value of each of the cells; None where one has none.
pub(crate) fn values_of(
    alloc: Global,
    words: &[Words],
    cells: &[Cell],
) -> Result<Option<Vec<Feel>>, AllocError>
    requires { AllInOrder words.now }
    ensures long { IfOk result (λ found. IfSome found (λ values. length values.items ≡ length cells.now)) }
    ensures inside { IfOk result (λ found. IfSome found (λ values. AreIn words.now cells.now values.items)) }
    ensures lawful { IfOk result (λ found. IfSome found (λ values. All (λ v. is_value v ≡ true) values.items)) }
    ensures none { IfOk result (λ found. found ≡ None → IsVoid words.now cells.now) }
{
    let mut values = Vec::with_capacity(alloc, cells.len())?;
    for (place, cell) in cells.iter().enumerate() {
        let Some(value) = value_at(alloc, words, place, *cell)? else {
            return Ok(None);
        };
        values.push(value)?;
    }
    Ok(Some(values))
}
