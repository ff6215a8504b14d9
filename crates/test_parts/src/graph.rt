use dmn_graph::{are_needs_below, order_of};
use std::alloc::{AllocError, Global};
use std::test::Fail;

/// A chain of 100,000 places in which each needs the next one, and the last one needs these.
fn chain(alloc: Global, last: &[usize]) -> Result<Vec<Vec<usize>>, AllocError> {
    let mut needs = Vec::new(alloc);
    for place in 1..100_000usize {
        needs.push(vec![in alloc; place]?)?;
    }
    needs.push(last.to_vec(alloc)?)?;
    Ok(needs)
}

/// An order of that chain, if there is one.
fn ordered(alloc: Global, last: &[usize]) -> Result<Option<Vec<usize>>, Fail> {
    let needs = chain(alloc, last)?;
    if !are_needs_below(&needs) {
        return Err("a need past the places".into());
    }
    Ok(order_of(alloc, &needs)?)
}

/// The length of an order and its first place.
fn ends_of(order: &[usize]) -> (usize, Option<usize>) {
    (order.len(), order.first().copied())
}

/// The order begins with the last place; a ring has none.
#[test]
fn long_chains(rt: HostRuntime) -> Result<(), Fail> {
    let order = ordered(rt.alloc(), &[])?.ok_or("a cycle")?;
    assert!(rt; ends_of(&order) == (100_000, Some(99_999)));
    assert!(rt; ordered(rt.alloc(), &[0])?.is_none());
    Ok(())
}
