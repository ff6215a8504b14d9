//! Names that are bound over a scope, where they are found by their positions in it.
use feel_lang::{Env, Needs, eval, read_expr_under};
use feel_value::{Feel, Outcome, Value};
use std::alloc::Global;
use std::process::Abort;
use std::test::Fail;

fn number(n: i64) -> Result<Feel, Fail> {
    Ok(Feel::of(Value::Number(n)).ok_or("no number")?)
}

fn number_in(value: &Feel) -> Option<i64> {
    match value.value() {
        Value::Number(n) => Some(*n),
        _ => None,
    }
}

/// The number that the name is bound to.
fn found(env: &Env, name: &str) -> Option<i64> {
    env.find(name).and_then(number_in)
}

/// The names a, k0, k1 and so on, with so many that are numbered, and then b.
fn scope(alloc: Global, count: u8) -> Result<Needs, Fail> {
    let mut scope = Needs::new(alloc);
    scope.push("a", 0)?;
    for i in 0..count {
        let name = format!(in alloc; "k{i}")?;
        scope.push(name.as_str(), 0)?;
    }
    scope.push("b", 0)?;
    scope.put_in_order()?;
    Ok(scope)
}

/// Binds k0, k1 and so on, so many, to 10, 11 and so on.
fn bind_numbered(alloc: Global, env: &mut Env, count: u8) -> Result<(), Fail> {
    for i in 0..count {
        let name = format!(in alloc; "k{i}")?;
        env.bind(name.as_str(), number(10 + i64::from(i))?)?;
    }
    Ok(())
}

/// What a, k0, k6 and z are bound to.
fn all_found(env: &Env) -> [Option<i64>; 4] {
    [
        found(env, "a"),
        found(env, "k0"),
        found(env, "k6"),
        found(env, "z"),
    ]
}

/// Leaves so many bindings.
fn cut(rt: &impl Abort, env: &mut Env, left: usize) {
    assert!(rt; left <= env.len());
    env.cut(left);
}

/// The number that a text gives which is read under the scope.
fn evaluated(alloc: Global, scope: &Needs, text: &str, env: &Env) -> Result<Option<i64>, Fail> {
    let expr = read_expr_under(alloc, text, scope)?;
    match eval(alloc, &expr, env)? {
        Outcome::Is(value) => Ok(number_in(&value)),
        Outcome::Limit => Ok(None),
    }
}

/// Binds so many names of a scope, then one that isn't in it, the need and the first one once more, and cuts them off again.
fn check_bindings(rt: &impl Abort, alloc: Global, count: u8) -> Result<(), Fail> {
    let scope = scope(alloc, count)?;
    let mut needs = Needs::new(alloc);
    needs.push("a", 0)?;
    let values = vec![in alloc; Outcome::Is(number(1)?)]?;
    let mut env = Env::over_scope(alloc, &needs, &scope, &values).ok_or("no environment")?;
    bind_numbered(alloc, &mut env, count)?;
    assert_eq!(rt; all_found(&env), [Some(1), Some(10), Some(16), None]);
    env.bind("z", number(5)?)?;
    env.bind("a", number(2)?)?;
    env.bind("k0", number(3)?)?;
    assert_eq!(rt; all_found(&env), [Some(2), Some(3), Some(16), Some(5)]);
    let sum = evaluated(alloc, &scope, "a + k0 + k6 * 10 + z * 1000", &env)?;
    assert_eq!(rt; sum, Some(5165));
    let numbered = usize::from(count);
    cut(rt, &mut env, numbered + 2);
    assert_eq!(rt; all_found(&env), [Some(1), Some(10), Some(16), Some(5)]);
    cut(rt, &mut env, numbered + 1);
    assert_eq!(rt; all_found(&env), [Some(1), Some(10), Some(16), None]);
    cut(rt, &mut env, 1);
    assert_eq!(rt; all_found(&env), [Some(1), None, None, None]);
    env.bind("k6", number(4)?)?;
    assert_eq!(rt; all_found(&env), [Some(1), None, Some(4), None]);
    cut(rt, &mut env, 0);
    assert_eq!(rt; all_found(&env), [None, None, None, None]);
    Ok(())
}

/// Few names are looked through, and more are found by their positions: with a and b there are 9 or 10 names, and 31 to 34.
#[test]
fn names_of_a_scope(rt: HostRuntime) -> Result<(), Fail> {
    for count in [7, 8, 29, 30, 31, 32] {
        check_bindings(&rt, rt.alloc(), count)?;
    }
    Ok(())
}

/// A scope in which a name stands twice is of no use, and changes nothing.
#[test]
fn a_name_that_stands_twice_in_a_scope(rt: HostRuntime) -> Result<(), Fail> {
    let alloc = rt.alloc();
    let mut scope = scope(alloc, 32)?;
    scope.push("k3", 0)?;
    scope.put_in_order()?;
    let needs = Needs::new(alloc);
    let mut env = Env::over_scope(alloc, &needs, &scope, &[]).ok_or("no environment")?;
    bind_numbered(alloc, &mut env, 32)?;
    assert_eq!(rt;
        (found(&env, "k3"), found(&env, "k31")),
        (Some(13), Some(41))
    );
    assert_eq!(rt; evaluated(alloc, &scope, "k3 + k31", &env)?, Some(54));
    cut(&rt, &mut env, 3);
    assert_eq!(rt; (found(&env, "k2"), found(&env, "k3")), (Some(12), None));
    Ok(())
}
