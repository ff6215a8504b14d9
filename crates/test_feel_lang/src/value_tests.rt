//! Values of texts, worked out by hand.
use feel_lang::{Env, eval, read_expr, read_literal};
use feel_value::{Feel, Outcome, Value};
use std::alloc::{AllocError, Global};
use std::test::Fail;

/// The number that a value is.
fn number_in(value: &Feel) -> Option<i64> {
    match value.value() {
        Value::Number(n) => Some(*n),
        _ => None,
    }
}

/// The number that an expression without names is.
fn number_of(alloc: Global, text: &str) -> Result<Option<i64>, Fail> {
    let expr = read_expr(alloc, text)?;
    match eval(alloc, &expr, &Env::new(alloc))? {
        Outcome::Is(value) => Ok(number_in(&value)),
        Outcome::Limit => Ok(None),
    }
}

/// So many ones with `+` between.
fn ones(alloc: Global, count: usize) -> Result<String, AllocError> {
    let mut text = String::from_str(alloc, "1")?;
    for _ in 1..count {
        text.push_str(" + 1")?;
    }
    Ok(text)
}

/// An expression as deep as one may be.
#[test]
fn sixty_four_ones(rt: HostRuntime) -> Result<(), Fail> {
    let text = ones(rt.alloc(), 64)?;
    assert_eq!(rt; number_of(rt.alloc(), text.as_str())?, Some(64));
    Ok(())
}

/// Whether the text is a literal of this value.
fn is_literal(alloc: Global, text: &str, due: &Value) -> Result<bool, Fail> {
    let found = read_literal(alloc, text)?;
    Ok(match (found.value(), due) {
        (Value::Null, Value::Null) => true,
        (Value::Bool(truth), Value::Bool(wanted)) => *truth == *wanted,
        (Value::Number(n), Value::Number(wanted)) => *n == *wanted,
        _ => false,
    })
}

/// Whether the text is a literal of this text.
fn is_text(alloc: Global, text: &str, due: &str) -> Result<bool, Fail> {
    let found = read_literal(alloc, text)?;
    Ok(match found.value() {
        Value::Text(found) => found.as_str() == due,
        _ => false,
    })
}

#[test]
fn literals(rt: HostRuntime) -> Result<(), Fail> {
    for (text, due) in [
        ("null", Value::Null),
        ("true", Value::Bool(true)),
        ("false", Value::Bool(false)),
        ("0", Value::Number(0)),
        ("12", Value::Number(12)),
        ("-12", Value::Number(-12)),
        ("9223372036854775807", Value::Number(9223372036854775807)),
    ] {
        assert!(rt; is_literal(rt.alloc(), text, &due)?, "{text}");
    }
    assert!(rt; is_text(rt.alloc(), r#""gold""#, "gold")?);
    assert!(rt; is_text(rt.alloc(), r#""""#, "")?);
    Ok(())
}
