//! Whether the values of a cell meet unary tests, whatever the names stand for.
ghost use Rattle.std.specs.Prelude.{◌≡◌, ℕ, ℤ, List, true, false, IsTrue, IfSome};
ghost use Rattle.feel_value.specs.Datum.{Datum, null as null_datum, boolean, number as number_datum, text as text_datum};
ghost use Rattle.feel_text.specs.Meaning.{Bindings};
ghost use Rattle.feel_text.specs.Satisfied.{satisfied};
ghost use Rattle.dmn_analysis.specs.Cells.{AreInOrder, is_in, is_one_of, is_text_among, truth_in, words_within};
ghost use Rattle.dmn_analysis.specs.Classes.{is_number_in, is_of, is_parted};
ghost use Rattle.dmn_analysis.specs.Listing.{IsListing};
ghost use Rattle.dmn_analysis.specs.Searching.{Settles};

use crate::cell::{Cell, Others, within};
use crate::class::Class;
use crate::listing::Listing;
use crate::on_class::answer_on;
use feel_text::Tests;
use feel_value::{Truth, Value};
use std::sync::ArcStr;

// Whether it is known that each value of the class meets the tests, or that none does, as is asked.
fn is_sure(class: &Class<'_>, tests: &Tests, met: bool) -> bool
    ensures { IsTrue result → (v : Datum) (m : Bindings) → is_of class.now v ≡ true → Settles met (satisfied tests.now v m) }
{
    match answer_on(class, tests) {
        Some(Truth::Yes) => met,
        Some(_) => !met,
        None => false,
    }
}

fn null_is_sure(cell: Cell, tests: &Tests, met: bool) -> bool
    ensures { IsTrue result → IsTrue cell.null → (m : Bindings) → Settles met (satisfied tests.now null_datum m) }
{
    if !cell.null {
        return true;
    }
    is_sure(&Class::One(Value::Null), tests, met)
}

fn has_truth(cell: Cell, truth: bool) -> bool
    ensures { result ≡ truth_in cell truth }
{
    if truth { cell.yes } else { cell.no }
}

fn truth_is_sure(cell: Cell, truth: bool, tests: &Tests, met: bool) -> bool
    ensures { IsTrue result → IsTrue (truth_in cell truth) → (m : Bindings) → Settles met (satisfied tests.now (boolean truth) m) }
{
    if !has_truth(cell, truth) {
        return true;
    }
    is_sure(&Class::One(Value::Bool(truth)), tests, met)
}

fn numbers_are_sure(cell: Cell, tests: &Tests, listing: Option<&Listing>, met: bool) -> bool
    requires { IfSome listing (λ l. IsListing l.now tests.now) }
    ensures { IsTrue result → (z : ℤ) (m : Bindings) → is_number_in cell.low cell.high (number_datum z) ≡ true → Settles met (satisfied tests.now (number_datum z) m) }
{
    if cell.low > cell.high {
        return true;
    }
    if let Some(listing) = listing {
        return listing.numbers_are_sure(cell.low, cell.high, met);
    }
    is_sure(&Class::Numbers(cell.low, cell.high), tests, met)
}

fn words_are_sure(
    words: &[ArcStr],
    cell: Cell,
    tests: &Tests,
    listing: Option<&Listing>,
    met: bool,
) -> bool
    requires { IfSome listing (λ l. IsListing l.now tests.now) }
    ensures { IsTrue result → AreInOrder words.now → (s : List ℕ) (m : Bindings) → is_text_among (words_within words.now cell.from cell.to) s ≡ true → Settles met (satisfied tests.now (text_datum s) m) }
{
    let some = within(words, cell.from, cell.to);
    if some.is_empty() {
        return true;
    }
    if let Some(listing) = listing {
        return listing.words_are_sure(some, met);
    }
    is_sure(&Class::Words(some), tests, met)
}

fn others_are_sure(words: &[ArcStr], others: Others, tests: &Tests, met: bool) -> bool
    ensures { IsTrue result → (s : List ℕ) (m : Bindings) → is_one_of words.now others s ≡ true → is_text_among words.now s ≡ false → Settles met (satisfied tests.now (text_datum s) m) }
{
    match others {
        Others::None => true,
        Others::All => is_sure(&Class::OtherTexts(words), tests, met),
        Others::Between(from, to) => is_sure(&Class::Between(words, from, to), tests, met),
    }
}

fn parted_are_sure(cell: Cell, tests: &Tests, met: bool) -> bool
    ensures { IsTrue result → IsTrue cell.parted → (v : Datum) (m : Bindings) → is_parted v ≡ true → Settles met (satisfied tests.now v m) }
{
    if !cell.parted {
        return true;
    }
    is_sure(&Class::Parted, tests, met)
}

/// Whether it is known that each value of the cell meets the tests, or that none does, as is asked. The listing is that of the tests,
/// where they have one.
pub(crate) fn are_sure(
    words: &[ArcStr],
    cell: Cell,
    tests: &Tests,
    listing: Option<&Listing>,
    met: bool,
) -> bool
    requires { IfSome listing (λ l. IsListing l.now tests.now) }
    ensures { IsTrue result → AreInOrder words.now → (v : Datum) (m : Bindings) → is_in words.now cell v ≡ true → Settles met (satisfied tests.now v m) }
{
    if !numbers_are_sure(cell, tests, listing, met) {
        return false;
    }
    if !words_are_sure(words, cell, tests, listing, met) {
        return false;
    }
    if !others_are_sure(words, cell.others, tests, met) {
        return false;
    }
    if !null_is_sure(cell, tests, met) {
        return false;
    }
    if !truth_is_sure(cell, true, tests, met) {
        return false;
    }
    if !truth_is_sure(cell, false, tests, met) {
        return false;
    }
    parted_are_sure(cell, tests, met)
}
