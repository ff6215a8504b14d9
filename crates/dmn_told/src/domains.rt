//! The values that inputs may have.
ghost use Rattle.std.specs.Prelude.{◌≡◌, ◌<◌, ◌∷◌, [], true, length, map, reverse, bytes_eq, string_bytes, IfOk, IfSome, MatchOption, OnOk};
ghost use Rattle.feel_value.specs.Datum.{Datum};
ghost use Rattle.feel_value.specs.Limits.{is_value};
ghost use Rattle.dmn_ranges.specs.Domains.{meets};
ghost use Rattle.dmn_ranges.specs.Ranges.{lies_in};
ghost use Rattle.dmn_told.specs.Parts.{parts};
ghost use Rattle.dmn_told.specs.Covered.{AreCovered, IsCovered, Narrows};

use dmn_ranges::{MemberRange, ParameterRange, Range, range_of_domain};
use feel_lang::Tests;
use std::alloc::{AllocError, Global};

/// How many members of a parameter are looked at. What is declared of others counts as nothing declared.
const MOST_MEMBERS: usize = 100;

/// How many names a path into a parameter has at most. No expression has a longer one.
const MOST_NAMES: usize = 64;

/// What is declared of a parameter, or of a member of it: its values meet these tests.
#[derive(Drop)]
pub struct Domain {
    /// The name of the parameter; of a member the path to it, with a dot before each other name.
    pub name: String,
    pub tests: Tests,
}

// The first part of a text, and the text behind the dot after it, where there is one.
fn first_part(text: &str) -> Option<(&str, &str)>
    ensures { MatchOption result (parts text.now ≡ text.now ∷ []) (λ x. (parts text.now ≡ x.0.now ∷ parts x.1.now) × (length x.1.now < length text.now)) }
{
    text.split_once('.')
}

// The parts of a text between its dots, the last one first. None where there are too many.
fn parts_from_last(alloc: Global, text: &str) -> Result<Option<Vec<String>>, AllocError>
    ensures { IfOk result (λ found. IfSome found (λ ps. map string_bytes ps.items ≡ reverse (parts text.now))) }
{
    let mut names = Vec::new(alloc);
    let mut rest = text;
    while let Some((first, others)) = first_part(rest) {
        if names.len() >= MOST_NAMES {
            return Ok(None);
        }
        let name = String::from_str(alloc, first)?;
        names.push(name)?;
        rest = others;
    }
    let last = String::from_str(alloc, rest)?;
    names.push(last)?;
    names.reverse();
    Ok(Some(names))
}

// The values that a name may have, where they lie in the range and meet one domain more.
fn with_domain(alloc: Global, range: Range, domain: &Domain, name: &str) -> Range
    ensures { (v : Datum) → is_value v ≡ true → (bytes_eq (string_bytes domain.now.name) name.now ≡ true → meets domain.now.tests v ≡ true) → lies_in range v ≡ true → lies_in result v ≡ true }
{
    if domain.name.as_str() == name {
        range_of_domain(alloc, &domain.tests)
    } else {
        range
    }
}

// Tells of a parameter what one domain more says of it, or of a member of it.
fn add_domain(
    alloc: Global,
    parameter: &mut ParameterRange,
    domain: &Domain,
    name: &str,
) -> Result<(), AllocError>
    ensures { OnOk result (Narrows domain.now name.now parameter.old parameter.new) }
{
    let Some((first, others)) = first_part(domain.name.as_str()) else {
        parameter.range = with_domain(alloc, parameter.range, domain, name);
        return Ok(());
    };
    let is_its = first == name;
    if !is_its {
        return Ok(());
    }
    let Some(path) = parts_from_last(alloc, others)? else {
        return Ok(());
    };
    let tests = &domain.tests;
    let range = range_of_domain(alloc, tests);
    parameter.members.push(MemberRange { path, range })?;
    Ok(())
}

// Whether a domain is one of this parameter, or of a member of it.
fn is_of(domain: &Domain, name: &str) -> bool {
    match first_part(domain.name.as_str()) {
        Some((first, _)) => first == name,
        None => name == domain.name.as_str(),
    }
}

// The values that a name may have, and its members. Domains that aren't in the order of their names may not be found, and then any value
// may come.
fn domain_of(alloc: Global, domains: &[Domain], name: &str) -> Result<ParameterRange, AllocError>
    ensures { IfOk result (IsCovered domains.now name.now) }
{
    let first = domains.partition_point(|domain| domain.name.as_str() < name);
    let mut parameter = ParameterRange {
        range: Range::any(),
        members: Vec::new(alloc),
    };
    for place in first..domains.len() {
        let domain = &domains[place];
        if !is_of(domain, name) || parameter.members.len() >= MOST_MEMBERS {
            return Ok(parameter);
        }
        add_domain(alloc, &mut parameter, domain, name)?;
    }
    Ok(parameter)
}

/// The values that each of these names may have, and their members.
pub(crate) fn domains_of(
    alloc: Global,
    domains: &[Domain],
    names: &[&str],
) -> Result<Vec<ParameterRange>, AllocError>
    ensures covered { IfOk result (λ r. AreCovered domains.now (map (λ n. n.now) names.now) r.items) }
    ensures count { IfOk result (λ r. length r.items ≡ length names.now) }
{
    let mut ranges = Vec::with_capacity(alloc, names.len())?;
    for name in names {
        let range = domain_of(alloc, domains, name)?;
        ranges.push(range)?;
    }
    Ok(ranges)
}
