//! Contexts whose entries come in other orders, few of them and more: which are equal, also where a name stands twice.
use feel_value::{Feel, Truth, Value, equal};
use std::alloc::{AllocError, Global};
use std::process::Abort;
use std::sync::ArcStr;
use std::test::Fail;
use test_devices::FullHeap;

const THREE: &[&[&str]] = &[
    &["a", "b", "c"],
    &["a", "c", "b"],
    &["b", "a", "c"],
    &["b", "c", "a"],
    &["c", "a", "b"],
    &["c", "b", "a"],
];

const TWENTY: &[&[&str]] = &[
    &[
        "a", "b", "c", "d", "e", "f", "g", "h", "i", "j", "k", "l", "m", "n", "o", "p", "q", "r",
        "s", "t",
    ],
    &[
        "t", "s", "r", "q", "p", "o", "n", "m", "l", "k", "j", "i", "h", "g", "f", "e", "d", "c",
        "b", "a",
    ],
    &[
        "j", "k", "l", "m", "n", "o", "p", "q", "r", "s", "t", "a", "b", "c", "d", "e", "f", "g",
        "h", "i",
    ],
    &[
        "b", "a", "d", "c", "f", "e", "h", "g", "j", "i", "l", "k", "n", "m", "p", "o", "r", "q",
        "t", "s",
    ],
];

/// An entry with a text.
fn entry(alloc: Global, name: &str, text: &str) -> Result<(ArcStr, Value), AllocError> {
    let value = Value::Text(ArcStr::from_str(alloc, text)?);
    Ok((ArcStr::from_str(alloc, name)?, value))
}

/// A context with its own text at each of the names, and then the further entries.
fn context(alloc: Global, names: &[&str], further: &[(&str, &str)]) -> Result<Value, AllocError> {
    let mut entries = Vec::new(alloc);
    for name in names {
        entries.push(entry(alloc, name, name)?)?;
    }
    for (name, text) in further {
        entries.push(entry(alloc, name, text)?)?;
    }
    Ok(Value::context(alloc, entries)?)
}

/// Whether contexts of the same entries in these orders are equal, each to each.
fn are_equal(alloc: Global, orders: &[&[&str]]) -> Result<bool, Fail> {
    for names in orders {
        for others in orders {
            let a = Feel::of(context(alloc, names, &[])?).ok_or("no value")?;
            let b = Feel::of(context(alloc, others, &[])?).ok_or("no value")?;
            if equal(&a, &b) != Truth::Yes {
                return Ok(false);
            }
        }
    }
    Ok(true)
}

#[test]
fn contexts_in_other_orders(rt: HostRuntime) -> Result<(), Fail> {
    assert!(rt; are_equal(rt.alloc(), THREE)?);
    assert!(rt; are_equal(rt.alloc(), TWENTY)?);
    Ok(())
}

/// Further entries of two contexts, and whether the contexts are then equal. A name may be there twice, which is no value.
const FURTHER: &[(&[(&str, &str)], &[(&str, &str)], bool)] = &[
    (&[("x", "1")], &[("x", "1")], true),
    (&[("x", "1")], &[("x", "2")], false),
    (&[("x", "1")], &[("y", "1")], false),
    (&[("x", "1")], &[], false),
    (&[], &[("x", "1")], false),
    (&[("c", "c")], &[], true),
    (&[], &[("c", "c")], true),
    (&[("c", "1")], &[], false),
    (&[("x", "1"), ("x", "2")], &[("x", "2"), ("x", "1")], true),
    (&[("x", "1"), ("x", "2")], &[("x", "1")], false),
];

/// Checks the further entries behind the same ones in each two of the orders.
fn check_further(rt: &impl Abort, alloc: Global, orders: &[&[&str]]) -> Result<(), AllocError> {
    for names in orders {
        for others in orders {
            for (here, there, want) in FURTHER {
                let a = context(alloc, names, here)?;
                let b = context(alloc, others, there)?;
                assert_eq!(rt; a.is_equal(&b), *want, "at {here:?} and {there:?}");
            }
        }
    }
    Ok(())
}

#[test]
fn further_entries(rt: HostRuntime) -> Result<(), Fail> {
    check_further(&rt, rt.alloc(), THREE)?;
    check_further(&rt, rt.alloc(), TWENTY)?;
    Ok(())
}

/// A context of contexts, the outer and the inner ones in these orders of their names.
fn nested(alloc: Global, outer: &[&str], inner: &[&str]) -> Result<Value, AllocError> {
    let mut entries = Vec::new(alloc);
    for name in outer {
        let within = context(alloc, inner, &[("of", name)])?;
        entries.push((ArcStr::from_str(alloc, name)?, within))?;
    }
    Ok(Value::context(alloc, entries)?)
}

#[test]
fn contexts_within_contexts(rt: HostRuntime) -> Result<(), Fail> {
    for names in TWENTY {
        let a = nested(rt.alloc(), TWENTY[0], names)?;
        let b = nested(rt.alloc(), names, TWENTY[1])?;
        assert!(rt; a.is_equal(&b), "at {names:?}");
        let others = nested(rt.alloc(), names, &["a"])?;
        assert!(rt; !a.is_equal(&others), "at {names:?}");
    }
    Ok(())
}

#[test]
fn many_names_are_distinct_or_not(rt: HostRuntime) -> Result<(), Fail> {
    for names in TWENTY {
        assert!(rt;
            Feel::of(context(rt.alloc(), names, &[])?).is_some(),
            "at {names:?}"
        );
        let twice = context(rt.alloc(), names, &[("e", "1")])?;
        assert!(rt; Feel::of(twice).is_none(), "at {names:?}");
    }
    Ok(())
}

/// Names are put in order on the heap; what is told is the same where it is full.
#[test]
fn contexts_are_compared_without_memory(rt: HostRuntime) -> Result<(), Fail> {
    for names in TWENTY {
        let a = context(rt.alloc(), TWENTY[1], &[])?;
        let b = context(rt.alloc(), names, &[])?;
        let other = context(rt.alloc(), names, &[("x", "1")])?;
        let twice = context(rt.alloc(), names, &[("e", "1")])?;
        let full = FullHeap::but(rt.alloc(), 0)?;
        let equal = a.is_equal(&b);
        let differs = !a.is_equal(&other);
        let distinct = Feel::of(b).is_some();
        let repeats = Feel::of(twice).is_none();
        drop(full);
        assert!(rt; equal && differs && distinct && repeats, "at {names:?}");
    }
    Ok(())
}
