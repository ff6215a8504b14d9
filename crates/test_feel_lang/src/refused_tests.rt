//! Calls whose requests for memory are refused. With ample memory each test prints that nothing was refused.
use feel_lang::{
    Env, Expr, Held, Needs, Tests, eval, holds, read_expr, read_expr_under, read_tests,
};
use feel_value::{Feel, Outcome, Value};
use std::alloc::{AllocError, Global};
use std::process::Abort;
use std::test::Fail;
use test_devices::FullHeap;

fn number(rt: &impl Abort, n: i64) -> Feel {
    Feel::of(Value::Number(n)).expect(rt, "a number within the limits")
}

/// The number that is this value.
fn number_in(value: &Feel) -> Option<i64> {
    match value.value() {
        Value::Number(n) => Some(*n),
        _ => None,
    }
}

/// How many bindings there are, and the number that a is bound to.
fn bindings(env: &Env) -> (usize, Option<i64>) {
    (env.len(), env.find("a").and_then(number_in))
}

/// Binds a to the number, once more where that is refused, and answers whether it was.
fn bind(rt: &impl Abort, env: &mut Env, n: i64) -> Result<bool, AllocError> {
    let before = bindings(env);
    let refused = env.bind("a", number(rt, n)).is_err();
    if refused {
        assert!(rt; bindings(env) == before);
        env.bind("a", number(rt, n))?;
    }
    Ok(refused)
}

/// Binds a to 1 and then to 2, and answers which of them was refused.
fn bind_both(rt: &impl Abort, env: &mut Env) -> Result<(bool, bool), AllocError> {
    let first = bind(rt, env, 1)?;
    assert!(rt; bindings(env) == (1, Some(1)));
    let second = bind(rt, env, 2)?;
    assert!(rt; bindings(env) == (2, Some(2)));
    Ok((first, second))
}

/// The same, with new bindings.
fn bound_both(rt: &impl Abort, alloc: Global) -> Result<(bool, bool), AllocError> {
    let mut env = Env::new(alloc);
    bind_both(rt, &mut env)
}

/// A binding that is refused leaves as many as before, and the name as it was bound before.
#[test]
fn a_refused_binding_changes_nothing(rt: HostRuntime) -> Result<(), Fail> {
    let (first, second) = bound_both(&rt, rt.alloc())?;
    println!(rt; "refused: {first}")?;
    println!(rt; "refused: {second}")?;
    Ok(())
}

/// Binds a to the number while the heap gives nothing, which changes nothing, and then once more. Answers whether it was refused.
fn bound_when_full(rt: &impl Abort, alloc: Global, env: &mut Env, n: i64) -> Result<bool, Fail> {
    let before = bindings(env);
    let full = FullHeap::but(alloc, 0)?;
    let refused = env.bind("a", number(rt, n)).is_err();
    let after = bindings(env);
    drop(full);
    assert!(rt; after == before);
    env.bind("a", number(rt, n))?;
    Ok(refused)
}

/// Each binding of one name is refused by a full heap: the first, the second, and those that stand in an index.
#[test]
fn a_full_heap_refuses_each_binding(rt: HostRuntime) -> Result<(), Fail> {
    let alloc = rt.alloc();
    let mut env = Env::new(alloc);
    for n in 1..=12 {
        let refused = bound_when_full(&rt, alloc, &mut env, n)?;
        assert!(rt; refused);
        assert_eq!(rt; env.find("a").and_then(number_in), Some(n));
    }
    assert_eq!(rt; env.len(), 12);
    Ok(())
}

/// An environment in which a is this value.
fn bound(alloc: Global, value: Feel) -> Result<Env<'static>, AllocError> {
    let mut env = Env::new(alloc);
    env.bind("a", value)?;
    Ok(env)
}

/// The number that the expression gives.
fn evaluated(alloc: Global, expr: &Expr, env: &Env) -> Result<Option<i64>, AllocError> {
    match eval(alloc, expr, env)? {
        Outcome::Is(value) => Ok(number_in(&value)),
        _ => Ok(None),
    }
}

/// The same, once more where that is refused, and whether it was.
fn evaluated_at_last(alloc: Global, expr: &Expr, env: &Env) -> Result<(bool, Option<i64>), Fail> {
    match evaluated(alloc, expr, env) {
        Ok(found) => Ok((false, found)),
        Err(AllocError) => Ok((true, evaluated(alloc, expr, env)?)),
    }
}

/// The same, for an expression's text.
fn read_and_evaluated(alloc: Global, text: &str, env: &Env) -> Result<(bool, Option<i64>), Fail> {
    let expr = read_expr(alloc, text)?;
    evaluated_at_last(alloc, &expr, env)
}

/// Whether counting is refused memory at first, where a is 1, and what it gives.
fn counted(rt: &impl Abort, alloc: Global) -> Result<(bool, Option<i64>), Fail> {
    let env = bound(alloc, number(rt, 1))?;
    read_and_evaluated(alloc, "count([[a], \"b\"])", &env)
}

#[test]
fn a_refused_evaluation_answers_nothing_else(rt: HostRuntime) -> Result<(), Fail> {
    let (refused, found) = counted(&rt, rt.alloc())?;
    println!(rt; "refused: {refused}")?;
    assert_eq!(rt; found, Some(2));
    Ok(())
}

/// The list of so many ones.
fn ones(alloc: Global, count: usize) -> Result<Feel, Fail> {
    let mut numbers = Vec::new(alloc);
    for _ in 0..count {
        numbers.push(Value::Number(1))?;
    }
    Ok(Feel::of(Value::list(alloc, numbers)?).ok_or("no list")?)
}

/// What the expression gives over these needs, while the heap gives nothing.
fn evaluated_while_full(
    alloc: Global,
    expr: &Expr,
    needs: &Needs,
    found: &[Outcome],
) -> Result<Option<i64>, Fail> {
    let full = FullHeap::but(alloc, 0)?;
    let env = Env::over(alloc, needs, found).ok_or("no environment")?;
    let value = evaluated(alloc, expr, &env);
    drop(full);
    Ok(value?)
}

/// Nothing is copied of a needed value that is only looked at, however large, nor of its name.
#[test]
fn looking_at_a_large_value_takes_no_memory(rt: HostRuntime) -> Result<(), Fail> {
    let alloc = rt.alloc();
    let mut needs = Needs::new(alloc);
    needs.push("a", 0)?;
    let found = vec![in alloc; Outcome::Is(ones(alloc, 9_000)?)]?;
    let text = "if a = a then count(a) + sum((a)) else 0";
    let expr = read_expr_under(alloc, text, &needs)?;
    let value = evaluated_while_full(alloc, &expr, &needs, &found)?;
    assert_eq!(rt; value, Some(18_000));
    Ok(())
}

/// Whether the input meets the tests, once more where that is refused, and whether it was.
fn held_at_last(
    alloc: Global,
    tests: &Tests,
    input: &Feel,
    env: &Env,
) -> Result<(bool, Held), Fail> {
    match holds(alloc, tests, input, env) {
        Ok(held) => Ok((false, held)),
        Err(AllocError) => Ok((true, holds(alloc, tests, input, env)?)),
    }
}

/// The same, for the tests' text.
fn read_and_held(alloc: Global, text: &str, input: &Feel, env: &Env) -> Result<(bool, Held), Fail> {
    let tests = read_tests(alloc, text)?;
    held_at_last(alloc, &tests, input, env)
}

/// Whether asking is refused memory at first if 1 is in a list of a, which is 1, and what it gives.
fn listed(rt: &impl Abort, alloc: Global) -> Result<(bool, Held), Fail> {
    let env = bound(alloc, number(rt, 1))?;
    read_and_held(alloc, "[a]", &number(rt, 1), &env)
}

#[test]
fn a_refused_test_answers_nothing_else(rt: HostRuntime) -> Result<(), Fail> {
    let (refused, held) = listed(&rt, rt.alloc())?;
    println!(rt; "refused: {refused}")?;
    assert_eq!(rt; held, Held::Yes);
    Ok(())
}
