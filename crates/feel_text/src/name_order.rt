//! An order of names, and names that are found by it.
ghost use Rattle.std.specs.Prelude.{◌≡◌, ◌<◌, ◌≤◌, ◌-◌, ℕ, List, [], IsTrue, IfOk, IfSome, MatchOption, map, length, slice_index_or, bytes_eq, false};
ghost use Rattle.feel_text.specs.NameOrder.{name_cmp, IsBefore, IsInOrder, IsRising, AreAll, IsNameAt, name_ranked, ranked};

use std::alloc::{AllocError, Global};
use std::cmp::Ordering;

/// What has a name.
pub trait HasName {
    ghost name_of: { Self → List ℕ };

    fn name(&self) -> &str
        ensures { result.now ≡ name_of self.now };
}

/// A name that is borrowed.
impl<'a> HasName for &'a str {
    ghost name_of = { λ s. s.now };

    fn name(&self) -> &str {
        *self
    }
}

/// Which of two names comes first: the shorter one, and of equally long ones the one whose bytes do. It takes no memory.
pub fn compare_names(name: &str, other: &str) -> Ordering
    ensures { result ≡ name_cmp name.now other.now }
{
    match name.len().cmp(&other.len()) {
        Ordering::Equal => name.cmp(other),
        unequal => unequal,
    }
}

// The name at a position; an empty text where there is none.
fn name_at<T: HasName>(items: &[T], position: usize) -> &str
    ensures { result.now ≡ slice_index_or (map T.name_of items.now) position [] }
{
    match items.get(position) {
        Some(item) => item.name(),
        None => "",
    }
}

// The position that has this rank in the order; the rank itself, where the order has none for it.
fn position_of(order: &[usize], rank: usize) -> usize
    ensures { result ≡ ranked order.now rank }
{
    match order.get(rank) {
        Some(position) => *position,
        None => rank,
    }
}

/// Whether a name comes behind all that are in this order.
pub(crate) fn is_behind_all<T: HasName>(items: &[T], order: &[usize], name: &str) -> bool
    ensures { IsTrue result → 0 < length items.now → IsBefore (name_ranked (map T.name_of items.now) order.now (length items.now - 1)) name.now }
{
    if items.is_empty() {
        return true;
    }
    let last = position_of(order, items.len() - 1);
    compare_names(name_at(items, last), name).is_lt()
}

/// Where the name stands among items that are in this order. The steps are in proportion to the logarithm of how many there are.
pub fn found_by_halves<T: HasName>(items: &[T], order: &[usize], name: &str) -> Option<usize>
    requires { IsInOrder (map T.name_of items.now) order.now }
    ensures { MatchOption result ((i : ℕ) → i < length items.now → bytes_eq name.now (slice_index_or (map T.name_of items.now) i []) ≡ false) (IsNameAt (map T.name_of items.now) name.now) }
{
    let mut low = 0;
    let mut high = items.len();
    while low < high {
        let middle = low + (high - low) / 2;
        let position = position_of(order, middle);
        match compare_names(name_at(items, position), name) {
            Ordering::Less => low = middle + 1,
            Ordering::Equal => return Some(position),
            Ordering::Greater => high = middle,
        }
    }
    None
}

// All positions below a count.
fn positions(alloc: Global, count: usize) -> Result<Vec<usize>, AllocError>
    ensures { IfOk result (λ v. AreAll count v.items) }
{
    let mut positions = Vec::with_capacity(alloc, count)?;
    for position in 0..count {
        positions.push(position)?;
    }
    Ok(positions)
}

// The positions of the items in the order of their names.
fn sorted_positions<T: HasName>(alloc: Global, items: &[T]) -> Result<Vec<usize>, AllocError>
    ensures { IfOk result (λ v. AreAll (length items.now) v.items) }
{
    let mut sorted = positions(alloc, items.len())?;
    sorted.sort_unstable_by(|first, second| {
        compare_names(name_at(items, *first), name_at(items, *second))
    });
    Ok(sorted)
}

// Whether each name comes behind the one before it in the order.
fn is_rising<T: HasName>(items: &[T], order: &[usize]) -> bool
    ensures { IsTrue result → IsRising (map T.name_of items.now) order.now }
{
    for rank in 1..items.len() {
        let before = name_at(items, position_of(order, rank - 1));
        if !compare_names(before, name_at(items, position_of(order, rank))).is_lt() {
            return false;
        }
    }
    true
}

/// The order of the items by their names, where no name stands twice. It is empty where they stand in it, which takes no memory.
pub fn order_by_name<T: HasName>(
    alloc: Global,
    items: &[T],
) -> Result<Option<Vec<usize>>, AllocError>
    ensures { IfOk result (λ o. IfSome o (λ v. IsInOrder (map T.name_of items.now) v.items)) }
{
    let none = Vec::new(alloc);
    if is_rising(items, &none) {
        return Ok(Some(none));
    }
    let order = sorted_positions(alloc, items)?;
    if is_rising(items, &order) {
        return Ok(Some(order));
    }
    Ok(None)
}
