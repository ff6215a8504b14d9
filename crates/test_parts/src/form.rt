use dmn_form::{WrittenDecision, WrittenLogic, WrittenModel, read_form};
use serde_json::Value;
use std::alloc::{AllocError, Global};
use std::test::Fail;

/// The model that this text is the form of.
pub fn form_of(alloc: Global, text: &str) -> Result<WrittenModel, Fail> {
    let json = Value::from_str(alloc, text)?;
    Ok(read_form(alloc, &json)?.ok_or("no model")?)
}

/// A model of one decision with this expression, which is JSON.
pub fn model_text(alloc: Global, expression: &str) -> Result<String, AllocError> {
    format!(in alloc;
        r#"{{"inputs":[],"services":[],"decisions":[{{"name":"d","needs":[],"expr":{expression}}}]}}"#
    )
}

/// A list in a list, so often.
fn nested(alloc: Global, times: usize) -> Result<String, AllocError> {
    let mut text = "{\"list\":[".repeat(alloc, times)?;
    text.push_str("\"1\"")?;
    text.push_str("]}".repeat(alloc, times)?.as_str())?;
    Ok(text)
}

/// Nested as deep as a model may be; as a line of the program it would be a level deeper.
#[test]
fn lists_may_stand_in_each_other_to_a_limit(rt: HostRuntime) -> Result<(), Fail> {
    let text = model_text(rt.alloc(), nested(rt.alloc(), 62)?.as_str())?;
    form_of(rt.alloc(), text.as_str())?;
    Ok(())
}

/// The deepest lists with this in the innermost. No JSON text may nest as deep.
fn nested_with(alloc: Global, innermost: &str) -> Result<Value, Fail> {
    let text = model_text(alloc, nested(alloc, 62)?.as_str())?;
    let mut json = Value::from_str(alloc, text.as_str())?;
    let places = "/list/0".repeat(alloc, 62)?;
    let pointer = format!(in alloc; "/decisions/0/expr{places}")?;
    *json.pointer_mut(pointer.as_str()).ok_or("no part")? = Value::from_str(alloc, innermost)?;
    Ok(json)
}

/// What is put into the innermost list, and whether that is a model still: a text nests no deeper.
const INNERMOST: &[(&str, bool)] = &[
    ("\"b\"", true),
    ("{\"list\":[]}", false),
    ("{\"context\":[]}", false),
];

#[test]
fn what_nests_too_deep_is_no_model(rt: HostRuntime) -> Result<(), Fail> {
    for (innermost, is_model) in INNERMOST {
        let json = nested_with(rt.alloc(), innermost)?;
        let has_form = read_form(rt.alloc(), &json)?.is_some();
        assert!(rt; has_form == *is_model, "{innermost}");
    }
    Ok(())
}

const CONTEXT: &str =
    r#"{"inputs":["a","b"],"services":[],"decisions":[{"name":"d","needs":["b"],"expr":{"context":[{"name":"x","expr":"a + 1"}],"result":"x"}}]}"#;

/// Whether it is the one of the context.
fn is_of_the_context(decision: &WrittenDecision) -> bool {
    let is_context =
        matches!(&decision.logic, WrittenLogic::ContextWith(entries, _) if entries.len() == 1);
    is_context && decision.name.as_str() == "d" && decision.needs.len() == 1
}

#[test]
fn what_is_written_is_kept(rt: HostRuntime) -> Result<(), Fail> {
    let model = form_of(rt.alloc(), CONTEXT)?;
    let [decision] = model.decisions.as_slice() else {
        return Err("not one decision".into());
    };
    assert!(rt; is_of_the_context(decision) && model.inputs.len() == 2);
    Ok(())
}
