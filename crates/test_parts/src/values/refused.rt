//! Each call that takes memory, where one of its requests is refused: the answer says so, nothing is changed, and the next call
//! gives the value. In a plain run nothing is refused. A run that refuses the Nth request of each test shows the rest: past the
//! requests of the set-up a test then ends well with "refused: true", once for each request of its call, and later with "refused: false".
use feel_value::{Feel, Truth, ValueFault, equal};
use std::alloc::{AllocError, Global};
use std::test::Fail;

const TEXT: &str = "{\"a\":[1,\"b\"],\"c\":null}";

/// The JSON of the text, and the value that it is.
fn json_and_value(alloc: Global) -> Result<(serde_json::Value, Feel), Fail> {
    let json = serde_json::Value::from_str(alloc, TEXT)?;
    let value = Feel::from_json(alloc, &json)?;
    Ok((json, value))
}

/// A copy shares its parts, so there is no request that could be refused.
#[test]
fn a_copy_takes_no_memory(rt: HostRuntime) -> Result<(), Fail> {
    let (_, value) = json_and_value(rt.alloc())?;
    let copy = value.try_clone();
    let refused = copy.is_err();
    assert!(rt; !refused);
    assert!(rt; equal(&value, &copy?) == Truth::Yes);
    println!(rt; "refused: {refused}")?;
    Ok(())
}

/// The value, read again where its first reading was refused.
fn reading_of(
    alloc: Global,
    json: &serde_json::Value,
    first: Result<Feel, ValueFault>,
) -> Result<Feel, Fail> {
    match first {
        Ok(value) => Ok(value),
        Err(ValueFault::Memory) => Ok(Feel::from_json(alloc, json)?),
        Err(_) => Err("a refused request is no fault of the value".into()),
    }
}

#[test]
fn a_refused_reading(rt: HostRuntime) -> Result<(), Fail> {
    let json = serde_json::Value::from_str(rt.alloc(), TEXT)?;
    let first = Feel::from_json(rt.alloc(), &json);
    let refused = first.is_err();
    let value = reading_of(rt.alloc(), &json, first)?;
    assert!(rt; value.to_json(rt.alloc())? == json);
    println!(rt; "refused: {refused}")?;
    Ok(())
}

/// The JSON, written again where its first writing was refused.
fn writing_of(
    alloc: Global,
    value: &Feel,
    first: Result<serde_json::Value, AllocError>,
) -> Result<serde_json::Value, AllocError> {
    match first {
        Ok(written) => Ok(written),
        Err(AllocError) => value.to_json(alloc),
    }
}

#[test]
fn a_refused_writing(rt: HostRuntime) -> Result<(), Fail> {
    let (json, value) = json_and_value(rt.alloc())?;
    let first = value.to_json(rt.alloc());
    let refused = first.is_err();
    assert!(rt; writing_of(rt.alloc(), &value, first)? == json);
    println!(rt; "refused: {refused}")?;
    Ok(())
}
