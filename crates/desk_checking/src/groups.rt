//! Rules that give the same, by groups.
ghost use Rattle.std.specs.Prelude.{◌≡◌, ◌<◌, ◌≤◌, ℕ, IfOk, IsTrue, Some, length, map};
ghost use Rattle.std.specs.List.{All, slice_get};
ghost use Rattle.dmn_table.specs.Parts.{rule_view};
ghost use Rattle.dmn_table.specs.Table.{Rule as RuleSpec};
ghost use Rattle.desk_checking.specs.Outputs.{AreGroups, AreSame};

use crate::same_outputs::outputs_differ;
use dmn_table::Rule;
use std::alloc::{AllocError, Global};

/// The most rules that are compared; of more each has a group of its own.
const MOST_RULES: usize = 2_000;

/// Whether two rules are known to give the same.
fn give_same(rules: &[Rule], first: usize, second: usize) -> bool
    ensures { IsTrue result → (r s : RuleSpec) → slice_get (map rule_view rules.now) first ≡ Some r → slice_get (map rule_view rules.now) second ≡ Some s → AreSame r.gives s.gives }
{
    let Some(differ) = outputs_differ(rules, first, second) else {
        return false;
    };
    !differ
}

/// Whether the rule gives the same as the one at a place before it, where that has this number.
fn fits_one(rules: &[Rule], groups: &[usize], number: usize, place: usize, rule: usize) -> bool
    requires { place < length groups.now }
    ensures { IsTrue result → (r s : RuleSpec) → slice_get groups.now place ≡ Some number → slice_get (map rule_view rules.now) place ≡ Some r → slice_get (map rule_view rules.now) rule ≡ Some s → AreSame r.gives s.gives }
{
    let group = groups[place];
    if group != number {
        return true;
    }
    give_same(rules, place, rule)
}

/// Whether the rule gives the same as each before it that has this number.
fn fits(rules: &[Rule], groups: &[usize], number: usize, rule: usize) -> bool
    ensures { IsTrue result → (i : ℕ) (r s : RuleSpec) → slice_get groups.now i ≡ Some number → slice_get (map rule_view rules.now) i ≡ Some r → slice_get (map rule_view rules.now) rule ≡ Some s → AreSame r.gives s.gives }
{
    for place in 0..groups.len() {
        let one = fits_one(rules, groups, number, place, rule);
        if !one {
            return false;
        }
    }
    true
}

/// Whether a number is that of a group whose first rule gives the same as this one.
fn is_likely(rules: &[Rule], groups: &[usize], number: usize, rule: usize) -> bool
    requires { number < length groups.now }
{
    if groups[number] != number {
        return false;
    }
    give_same(rules, number, rule)
}

/// The number of the group that the rule is of: its own, or that of a rule before it.
fn group_of(rules: &[Rule], groups: &[usize], rule: usize) -> usize
    requires count { length groups.now ≡ rule }
    requires before { All (λ g. g < rule) groups.now }
    ensures small { result ≤ rule }
    ensures same { (i : ℕ) (r s : RuleSpec) → slice_get groups.now i ≡ Some result → slice_get (map rule_view rules.now) i ≡ Some r → slice_get (map rule_view rules.now) rule ≡ Some s → AreSame r.gives s.gives }
{
    if rules.len() > MOST_RULES {
        return rule;
    }
    for number in 0..groups.len() {
        if !is_likely(rules, groups, number, rule) {
            continue;
        }
        if fits(rules, groups, number, rule) {
            return number;
        }
    }
    rule
}

/// Of each rule the number of its group, which is that of its first rule: those of one group give the same.
pub(crate) fn groups_of(alloc: Global, rules: &[Rule]) -> Result<Vec<usize>, AllocError>
    ensures { IfOk result (λ groups. AreGroups (map rule_view rules.now) groups.items) }
{
    let mut groups = Vec::with_capacity(alloc, rules.len())?;
    for rule in 0..rules.len() {
        let group = group_of(rules, &groups, rule);
        groups.push(group)?;
    }
    Ok(groups)
}
