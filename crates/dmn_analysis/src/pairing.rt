//! The pairs of rules that share cells.
ghost use Rattle.std.specs.Prelude.{◌≡◌, ◌<◌, ◌&&◌, ℕ, List, [], IsTrue, OnOk, IfOk, Some, length, nat_eq};
ghost use Rattle.std.specs.List.{All, slice_get};
ghost use Rattle.dmn_analysis.specs.Sharing.{HaveEachPair, HaveMore, IsPair, IsPairOf};
ghost use Rattle.dmn_analysis.specs.declared.pairs.Shared.{Shared as SharedData};

use crate::pairs::Shared;
use std::alloc::{AllocError, Global};

/// The most pairs of rules that are looked at.
pub(crate) const MOST_PAIRS: usize = 100_000;

/// Two rules, and the cells in whose values both hit.
#[derive(Clone, Copy, PartialEq, Eq, PartialOrd, Ord)]
pub(crate) struct Pair {
    pub(crate) first: usize,
    pub(crate) second: usize,
    pub(crate) shared: usize,
}

/// Pairs of rules.
#[derive(Drop)]
pub(crate) struct Pairs {
    pub(crate) found: Vec<Pair>,
    /// Whether there are no others.
    pub(crate) is_all: bool,
}

// Adds the pairs of one of these rules with those before it, unless there are too many.
fn add_pairs_with(
    pairs: &mut Vec<Pair>,
    rules: &[usize],
    second: usize,
    shared: usize,
) -> Result<(), AllocError>
    requires { second < length rules.now }
    ensures each { OnOk result ((all : List SharedData) (s : SharedData) → slice_get all shared ≡ Some s → s.rules.items ≡ rules.now → All (IsPairOf all) pairs.old.items → All (IsPairOf all) pairs.new.items) }
    ensures some { OnOk result (0 < second → pairs.new.items ≡ [] → ⊥) }
    ensures kept { OnOk result (HaveMore pairs.old.items pairs.new.items) }
    ensures all { OnOk result (length pairs.new.items < 100000 → (i a b : ℕ) → i < second → slice_get rules.now i ≡ Some a → slice_get rules.now second ≡ Some b → IsPair pairs.new.items a b) }
{
    for first in 0..second {
        if pairs.len() >= MOST_PAIRS {
            return Ok(());
        }
        pairs.push(Pair {
            first: rules[first],
            second: rules[second],
            shared,
        })?;
    }
    Ok(())
}

// Adds the pairs of these rules.
fn add_pairs(pairs: &mut Vec<Pair>, rules: &[usize], shared: usize) -> Result<(), AllocError>
    ensures each { OnOk result ((all : List SharedData) (s : SharedData) → slice_get all shared ≡ Some s → s.rules.items ≡ rules.now → All (IsPairOf all) pairs.old.items → All (IsPairOf all) pairs.new.items) }
    ensures some { OnOk result (pairs.new.items ≡ [] → (pairs.old.items ≡ []) × (length rules.now < 2)) }
    ensures kept { OnOk result (HaveMore pairs.old.items pairs.new.items) }
    ensures all { OnOk result (length pairs.new.items < 100000 → (i j a b : ℕ) → i < j → slice_get rules.now i ≡ Some a → slice_get rules.now j ≡ Some b → IsPair pairs.new.items a b) }
{
    for second in 1..rules.len() {
        add_pairs_with(pairs, rules, second, shared)?;
    }
    Ok(())
}

fn are_same(a: &Pair, b: &Pair) -> bool
    ensures { result ≡ (nat_eq a.now.first b.now.first && nat_eq a.now.second b.now.second) }
{
    a.first == b.first && a.second == b.second
}

// These pairs in order, each once.
fn once(pairs: Vec<Pair>) -> Vec<Pair>
    ensures each { (all : List SharedData) → All (IsPairOf all) pairs.items → All (IsPairOf all) result.items }
    ensures some { result.items ≡ [] → pairs.items ≡ [] }
    ensures all { (a b : ℕ) → IsPair pairs.items a b → IsPair result.items a b }
{
    let mut pairs = pairs;
    pairs.sort_unstable();
    let same = |a: &mut Pair, b: &mut Pair| -> bool
        ensures { (result ≡ (nat_eq a.entry.now.first b.entry.now.first && nat_eq a.entry.now.second b.entry.now.second)) × ((a.exit.now ≡ a.entry.now) × (b.exit.now ≡ b.entry.now)) }
    { are_same(a, b) };
    pairs.dedup_by(same);
    pairs
}

// Whether these pairs are fewer than those that are looked at, so that none was left out.
fn are_few(pairs: &[Pair]) -> bool
    ensures few { IsTrue result → length pairs.now < 100000 }
    ensures none { pairs.now ≡ [] → IsTrue result }
{
    pairs.len() < MOST_PAIRS
}

/// The pairs of rules that share cells, each once.
pub(crate) fn pairs_of(alloc: Global, all: &[Shared]) -> Result<Pairs, AllocError>
    ensures each { IfOk result (λ pairs. All (IsPairOf all.now) pairs.found.items) }
    ensures some { IfOk result (λ pairs. pairs.found.items ≡ [] → All (λ s. length s.rules.items < 2) all.now) }
    ensures all { IfOk result (λ pairs. IsTrue pairs.is_all → HaveEachPair all.now pairs.found.items) }
    ensures none { IfOk result (λ pairs. pairs.found.items ≡ [] → IsTrue pairs.is_all) }
{
    let mut pairs = Vec::new(alloc);
    for (place, shared) in all.iter().enumerate() {
        add_pairs(&mut pairs, &shared.rules, place)?;
    }
    let is_all = are_few(&pairs);
    let found = once(pairs);
    Ok(Pairs { found, is_all })
}
