//! Bindings that hide one another.
use feel_lang::{Env, Needs};
use feel_value::{Feel, Outcome, Value};
use std::alloc::Global;
use std::process::Abort;
use std::test::Fail;

/// The number that the name is bound to.
fn found(env: &Env, name: &str) -> Option<i64> {
    match env.find(name)?.value() {
        Value::Number(n) => Some(*n),
        _ => None,
    }
}

/// Bindings that are made, how many are there then, how many are left of them, and what a, b and c are bound to.
const STEPS: &[(&[(&str, u8)], usize, usize, [Option<i64>; 3])] = &[
    (&[], 0, 0, [None, None, None]),
    (&[("a", 1), ("a", 2)], 2, 2, [Some(2), None, None]),
    (&[], 2, 1, [Some(1), None, None]),
    (&[], 1, 0, [None, None, None]),
    (
        &[("a", 1), ("b", 2), ("a", 3), ("c", 4), ("b", 5), ("a", 6)],
        6,
        6,
        [Some(6), Some(5), Some(4)],
    ),
    (&[], 6, 4, [Some(3), Some(2), Some(4)]),
    (&[("c", 7)], 5, 2, [Some(1), Some(2), None]),
    // More than are looked through one by one.
    (&[("b", 0); 22], 24, 24, [Some(1), Some(0), None]),
    (
        &[
            ("b", 1),
            ("b", 2),
            ("b", 3),
            ("b", 4),
            ("b", 5),
            ("b", 6),
            ("a", 7),
            ("b", 8),
            ("a", 9),
            ("c", 10),
        ],
        34,
        34,
        [Some(9), Some(8), Some(10)],
    ),
    (&[], 34, 32, [Some(7), Some(8), None]),
    (&[], 32, 31, [Some(7), Some(6), None]),
    (&[("b", 11)], 32, 32, [Some(7), Some(11), None]),
    (&[], 32, 25, [Some(1), Some(1), None]),
    (&[], 25, 3, [Some(1), Some(0), None]),
];

fn number(n: u8) -> Result<Feel, Fail> {
    Ok(Feel::of(Value::Number(i64::from(n))).ok_or("no number")?)
}

/// Makes these bindings, every second one under a name that is lent.
fn bind<'a>(env: &mut Env<'a>, bindings: &[(&'a str, u8)]) -> Result<(), Fail> {
    for (i, (name, n)) in bindings.iter().enumerate() {
        let value = number(*n)?;
        if i % 2 == 0 {
            env.bind(name, value)?;
        } else {
            env.bind_lent(*name, value)?;
        }
    }
    Ok(())
}

/// What a, b and c are bound to.
fn all_found(env: &Env) -> [Option<i64>; 3] {
    [found(env, "a"), found(env, "b"), found(env, "c")]
}

/// Leaves so many bindings.
fn cut(rt: &impl Abort, env: &mut Env, left: usize) {
    assert!(rt; left <= env.len());
    env.cut(left);
}

/// The last binding counts, and what it hid counts again when it is dropped.
#[test]
fn bindings_that_hide_one_another(rt: HostRuntime) -> Result<(), Fail> {
    let mut env = Env::new(rt.alloc());
    for (bindings, there, left, want) in STEPS {
        bind(&mut env, bindings)?;
        assert_eq!(rt; env.len(), *there);
        cut(&rt, &mut env, *left);
        assert_eq!(rt; all_found(&env), *want);
    }
    Ok(())
}

/// These names, each with its place.
fn needs(alloc: Global, places: &[(&str, usize)]) -> Result<Needs, Fail> {
    let mut needs = Needs::new(alloc);
    for (name, place) in places {
        needs.push(name, *place)?;
    }
    Ok(needs)
}

/// What was found: 1, 2 and 3 at the first three places, and at the fourth that a limit is broken.
fn found_values(alloc: Global) -> Result<Vec<Outcome>, Fail> {
    let mut found = Vec::new(alloc);
    for n in 1..4 {
        found.push(Outcome::Is(number(n)?))?;
    }
    found.push(Outcome::Limit)?;
    Ok(found)
}

/// An environment over needs finds the values at their places. Of a name that is needed twice the last place counts, until it
/// is cut off; a binding hides a need until it is cut off.
#[test]
fn needs_that_are_lent(rt: HostRuntime) -> Result<(), Fail> {
    let needs = needs(rt.alloc(), &[("a", 2), ("b", 0), ("a", 1)])?;
    let values = found_values(rt.alloc())?;
    let mut env = Env::over(rt.alloc(), &needs, &values).ok_or("no environment")?;
    assert_eq!(rt; (env.len(), all_found(&env)), (3, [Some(2), Some(1), None]));
    bind(&mut env, &[("a", 7), ("c", 8)])?;
    assert_eq!(rt;
        (env.len(), all_found(&env)),
        (5, [Some(7), Some(1), Some(8)])
    );
    cut(&rt, &mut env, 3);
    assert_eq!(rt; all_found(&env), [Some(2), Some(1), None]);
    cut(&rt, &mut env, 2);
    assert_eq!(rt; all_found(&env), [Some(3), Some(1), None]);
    cut(&rt, &mut env, 1);
    assert_eq!(rt; all_found(&env), [Some(3), None, None]);
    bind(&mut env, &[("b", 9)])?;
    assert_eq!(rt; (env.len(), all_found(&env)), (2, [Some(3), Some(9), None]));
    Ok(())
}

/// There is no environment where a limit was broken at the place of a need, or where nothing stands.
#[test]
fn needs_without_a_value(rt: HostRuntime) -> Result<(), Fail> {
    let values = found_values(rt.alloc())?;
    for (place, is_found) in [(2, true), (3, false), (4, false)] {
        let needs = needs(rt.alloc(), &[("a", 0), ("b", place)])?;
        assert_eq!(rt; Env::over(rt.alloc(), &needs, &values).is_some(), is_found);
    }
    Ok(())
}

/// What a, b and c are found to be over these needs once they were put in order.
fn found_in_order(alloc: Global, places: &[(&str, usize)]) -> Result<[Option<i64>; 3], Fail> {
    let mut needs = needs(alloc, places)?;
    needs.put_in_order()?;
    let values = found_values(alloc)?;
    let env = Env::over(alloc, &needs, &values).ok_or("no environment")?;
    Ok(all_found(&env))
}

/// Needs that were put in order are found as before: whether they came in order or not, also where one is needed twice.
#[test]
fn needs_that_were_put_in_order(rt: HostRuntime) -> Result<(), Fail> {
    let alloc = rt.alloc();
    let rising = found_in_order(alloc, &[("a", 2), ("b", 0), ("c", 1), ("aa", 0)])?;
    assert_eq!(rt; rising, [Some(3), Some(1), Some(2)]);
    let falling = found_in_order(alloc, &[("aa", 2), ("c", 0), ("b", 2), ("a", 1)])?;
    assert_eq!(rt; falling, [Some(2), Some(3), Some(1)]);
    let twice = found_in_order(alloc, &[("c", 0), ("a", 2), ("bb", 0), ("c", 1)])?;
    assert_eq!(rt; twice, [Some(3), None, Some(2)]);
    Ok(())
}
