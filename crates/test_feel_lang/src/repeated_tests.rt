//! Unary tests in which one stands again behind itself. Each row is worked out from what tests mean.
use feel_lang::{Env, Held, holds, read_tests};
use feel_value::{Feel, Value};
use std::alloc::Global;
use std::sync::ArcStr;
use std::test::Fail;

/// The list of these numbers.
fn list(alloc: Global, numbers: &[i64]) -> Result<Value, Fail> {
    let mut values = Vec::new(alloc);
    for n in numbers {
        values.push(Value::Number(*n))?;
    }
    Ok(Value::list(alloc, values)?)
}

/// The list of so many ones.
fn ones(alloc: Global, count: usize) -> Result<Value, Fail> {
    let mut values = Vec::new(alloc);
    for _ in 0..count {
        values.push(Value::Number(1))?;
    }
    Ok(Value::list(alloc, values)?)
}

/// A context in which x is 1, y is 2 and list is the list of 3 and 4.
fn context(alloc: Global) -> Result<Value, Fail> {
    let mut entries = Vec::new(alloc);
    entries.push((ArcStr::from_str(alloc, "list")?, list(alloc, &[3, 4])?))?;
    entries.push((ArcStr::from_str(alloc, "x")?, Value::Number(1)))?;
    entries.push((ArcStr::from_str(alloc, "y")?, Value::Number(2)))?;
    Ok(Value::context(alloc, entries)?)
}

fn bind(env: &mut Env, name: &str, value: Value) -> Result<(), Fail> {
    env.bind(name, Feel::of(value).ok_or("past the limits")?)?;
    Ok(())
}

/// The names that the rows speak of. The list `full` has as many values as there may be.
fn env(alloc: Global) -> Result<Env<'static>, Fail> {
    let mut env = Env::new(alloc);
    bind(&mut env, "b", list(alloc, &[1, 2])?)?;
    bind(&mut env, "c", list(alloc, &[2, 3])?)?;
    bind(&mut env, "longer_name_1", Value::Number(1))?;
    bind(&mut env, "longer_name_2", Value::Number(2))?;
    bind(&mut env, "e", context(alloc)?)?;
    bind(&mut env, "full", ones(alloc, 9_999)?)?;
    Ok(env)
}

/// Whether the number meets the tests.
fn held(alloc: Global, text: &str, n: i64, env: &Env) -> Result<Held, Fail> {
    let tests = read_tests(alloc, text)?;
    let value = Feel::of(Value::Number(n)).ok_or("past the limits")?;
    Ok(holds(alloc, &tests, &value, env)?)
}

#[test]
fn a_test_that_stands_again_changes_nothing(rt: HostRuntime) -> Result<(), Fail> {
    let alloc = rt.alloc();
    let env = env(alloc)?;
    let rows = [
        // Some test holds, or none does.
        ("b, b", 1, Held::Yes),
        ("b, b", 3, Held::No),
        ("b, b, b, c, c", 3, Held::Yes),
        ("c, c, b, b", 1, Held::Yes),
        ("b, c, b, c", 4, Held::No),
        ("none, none", 1, Held::No),
        ("none, none, b, b", 1, Held::Yes),
        // Forms that only look alike.
        ("b, (b), ((b)), ((b))", 2, Held::Yes),
        ("(b), (c)", 3, Held::Yes),
        ("longer_name_1, longer_name_2", 2, Held::Yes),
        ("longer_name_1, longer_name_1", 2, Held::No),
        ("e.x, e.x", 1, Held::Yes),
        ("e.x, e.y", 2, Held::Yes),
        ("e.x, e.y, e.y", 3, Held::No),
        ("e.x, (e).list", 4, Held::Yes),
        ("b.x, e.x", 1, Held::Yes),
        ("e, e.x", 1, Held::Yes),
        // No test may hold.
        ("not(b, b)", 1, Held::No),
        ("not(b, b)", 3, Held::Yes),
        ("not(b, b, c)", 3, Held::No),
        // The first test is unknown.
        ("< none, b, b", 1, Held::Yes),
        ("< none, b, b", 3, Held::No),
        ("not(< none, b, b)", 3, Held::No),
        ("b, b, < none", 3, Held::No),
        // A list of the full list has one value more.
        ("full, full", 1, Held::Yes),
        ("[full], [full]", 1, Held::Limit),
        ("b, b, [full]", 1, Held::Limit),
        ("[full], b, b", 1, Held::Limit),
        ("b, [full], b, b", 1, Held::Limit),
        ("not(b, [full], b, b)", 1, Held::Limit),
    ];
    for (text, n, due) in rows {
        let found = held(alloc, text, n, &env)?;
        assert!(rt; found == due, "{text} of {n}: {found:?}");
    }
    Ok(())
}

/// So many tests that ask whether it is in b.
fn again(alloc: Global, count: usize) -> Result<String, Fail> {
    let mut text = String::from_str(alloc, "b")?;
    for _ in 1..count {
        text.push_str(", b")?;
    }
    Ok(text)
}

/// A test that stands again isn't asked again: this takes no longer than reading it.
#[test]
fn many_tests_of_a_long_list_end(rt: HostRuntime) -> Result<(), Fail> {
    let alloc = rt.alloc();
    let mut env = Env::new(alloc);
    bind(&mut env, "b", ones(alloc, 9_999)?)?;
    let text = again(alloc, 20_000)?;
    assert_eq!(rt; held(alloc, text.as_str(), 2, &env)?, Held::No);
    assert_eq!(rt; held(alloc, text.as_str(), 1, &env)?, Held::Yes);
    Ok(())
}
