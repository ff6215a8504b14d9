//! Whether a rule hits for all values of some cells, or for none, whatever the names stand for.
ghost use Rattle.std.specs.Prelude.{◌≡◌, ◌<◌, true, IfSome, IsTrue, None, length};
ghost use Rattle.dmn_analysis.specs.Listing.{IsListing};
ghost use Rattle.dmn_analysis.specs.Searching.{CannotHit, MustHit, SettlesIn};

use crate::cell::{Cell, Words};
use crate::listing::Listing;
use crate::met::are_sure;
use crate::row::Row;
use feel_text::{Tests, TestsTree};

/// So many tests are asked in a step.
const TESTS_A_STEP: usize = 8;

// How many steps an entry takes. What it lists is found by halving.
fn steps_of(tests: &Tests, listing: Option<&Listing>) -> u64 {
    if listing.is_some() {
        return 1;
    }
    let count = match tests.tree() {
        TestsTree::Any => 0,
        TestsTree::OneOf(tests) => tests.len(),
        TestsTree::NoneOf(tests) => tests.len(),
    };
    let steps = (count / TESTS_A_STEP) as u64;
    steps.saturating_add(1)
}

/// Whether it is known that each value of the cell meets the tests, or that none does, as is asked. It takes steps.
pub(crate) fn asked(
    words: &Words,
    cell: Cell,
    tests: &Tests,
    listing: Option<&Listing>,
    met: bool,
    steps: &mut u64,
) -> bool
    requires { IfSome listing (λ l. IsListing l.now tests.now) }
    ensures { IsTrue result → SettlesIn met words.now cell tests.now }
{
    *steps = steps.saturating_sub(steps_of(tests, listing));
    are_sure(&words.texts, cell, tests, listing, met)
}

/// The first column for which it isn't known that all values of its cell meet the rule's entry; None where the rule hits for all
/// values of the cells.
pub(crate) fn first_unsettled(
    words: &[Words],
    cells: &[Cell],
    row: &Row,
    steps: &mut u64,
) -> Option<usize>
    ensures must { result ≡ None → MustHit words.now cells.now row.now }
    ensures entry { IfSome result (λ place. place < length row.now.tests) }
    ensures cell { IfSome result (λ place. place < length cells.now) }
{
    for (place, tests) in row.rule().tests.iter().enumerate() {
        if place >= cells.len() {
            return None;
        }
        if place >= words.len() {
            return Some(place);
        }
        let listing = row.listing(place);
        if !asked(&words[place], cells[place], tests, listing, true, steps) {
            return Some(place);
        }
    }
    None
}

/// Whether the rule is known to hit for all values of the cells.
pub(crate) fn must_hit(words: &[Words], cells: &[Cell], row: &Row, steps: &mut u64) -> bool
    ensures { IsTrue result → MustHit words.now cells.now row.now }
{
    first_unsettled(words, cells, row, steps).is_none()
}

/// Whether the rule is known to hit for none of the values of the cells.
pub(crate) fn cannot_hit(words: &[Words], cells: &[Cell], row: &Row, steps: &mut u64) -> bool
    ensures { IsTrue result → CannotHit words.now cells.now row.now }
{
    for (place, tests) in row.rule().tests.iter().enumerate() {
        if place >= words.len() || place >= cells.len() {
            return false;
        }
        let listing = row.listing(place);
        if asked(&words[place], cells[place], tests, listing, false, steps) {
            return true;
        }
    }
    false
}
