//! The rules of a table, with what their long entries list.
ghost use Rattle.std.specs.Prelude.{◌≡◌, IfOk, IfSome, Some, map};
ghost use Rattle.std.specs.List.{slice_get};
ghost use Rattle.feel_text.specs.Tests.{Tests as TestsSpec};
ghost use Rattle.dmn_table.specs.Parts.{rule_view};
ghost use Rattle.dmn_analysis.specs.Listing.{AreListings, IsListing};

use crate::listing::Listing;
use dmn_table::Rule;
use feel_text::Tests;
use std::alloc::{AllocError, Global};
use std::marker::Model;

/// A rule, with what its long entries list.
#[derive(Drop)]
pub(crate) struct Row<'a> {
    rule: &'a Rule,
    listings: Vec<Option<Listing>>,
}

impl<'a> Model for Row<'a> {
    ghost use Rattle.dmn_table.specs.Code.{rule_code};
    ghost use Rattle.dmn_table.specs.Table as specs;

    ghost Value = { specs.Rule };

    ghost coded = { rule_code };

    ghost use Rattle.dmn_table.specs.Parts.{rule_view};
    ghost use Rattle.dmn_analysis.specs.Listing.{AreListings};

    ghost view = { λ r. rule_view r.rule.now };

    ghost invariant = { λ r. AreListings r.listings.items r.rule.now.tests.items };
}

fn listings_of(alloc: Global, tests: &[Tests]) -> Result<Vec<Option<Listing>>, AllocError>
    ensures { IfOk result (λ listings. AreListings listings.items tests.now) }
{
    let mut listings = Vec::with_capacity(alloc, tests.len())?;
    for one in tests {
        let listing = Listing::of(alloc, one)?;
        listings.push(listing)?;
    }
    Ok(listings)
}

impl Row<'_> {
    fn of(alloc: Global, rule: &Rule) -> Result<Row<'_>, AllocError>
        ensures { IfOk result (λ row. row ≡ rule_view rule.now) }
    {
        let listings = listings_of(alloc, &rule.tests)?;
        Ok(Row { rule, listings })
    }

    /// The rule.
    pub(crate) fn rule(&self) -> &Rule
        ensures { rule_view result.now ≡ self.now }
    {
        self.rule
    }

    /// What the entry at a place lists, where it is a long one.
    pub(crate) fn listing(&self, place: usize) -> Option<&Listing>
        ensures { IfSome result (λ l. (tests : TestsSpec) → slice_get self.now.tests place ≡ Some tests → IsListing l.now tests) }
    {
        if place >= self.listings.len() {
            return None;
        }
        self.listings[place].as_ref()
    }
}

/// These rules, with what their long entries list.
pub(crate) fn rows_of<'a>(alloc: Global, rules: &'a [Rule]) -> Result<Vec<Row<'a>>, AllocError>
    ensures { IfOk result (λ rows. rows.items ≡ map rule_view rules.now) }
{
    let mut rows = Vec::with_capacity(alloc, rules.len())?;
    for rule in rules {
        let row = Row::of(alloc, rule)?;
        rows.push(row)?;
    }
    Ok(rows)
}
