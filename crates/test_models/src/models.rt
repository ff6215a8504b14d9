//! Texts of models and inputs that no line of the program can have, models of a thousand decisions, and calls while memory is
//! refused.
mod growing;
mod refused;

use box_core::Work;
use dmn_plan::{ModelFault, Plan, Task, TaskFault};
use feel_value::Outcome;
use std::alloc::{AllocError, Global};
use std::sync::Arc;
use std::test::Fail;

/// Four decisions, of which one is needed by two, and two services; the second takes a decision's value from the caller.
const SHARED: &str = r#"{"inputs":["a"],"decisions":[
{"name":"D","needs":["a"],"expr":"a"},
{"name":"B","needs":["D"],"expr":"D * 4611686018427387904"},
{"name":"C","needs":["D"],"expr":"D + 1"},
{"name":"A","needs":["B","C"],"expr":"B + C"}],"services":[
{"name":"s1","outputs":["A","B"],"encapsulated":["C","D"],"inputDecisions":[],"inputData":["a"]},
{"name":"s2","outputs":["A"],"encapsulated":["C","D"],"inputDecisions":["B"],"inputData":["a"]}]}"#;

/// The model of a text.
fn plan(alloc: Global, text: &str) -> Result<Arc<Plan>, Fail> {
    let plan = Plan::read(alloc, text.as_bytes())?;
    Ok(Arc::new(alloc, plan)?)
}

/// The model of the four decisions.
fn shared(alloc: Global) -> Result<Arc<Plan>, Fail> {
    plan(alloc, SHARED)
}

/// The task of a service of the model of a text.
fn task(alloc: Global, text: &str, service: &str, inputs: &str) -> Result<Task, Fail> {
    let inputs = serde_json::Value::from_str(alloc, inputs)?;
    Ok(Task::new(alloc, plan(alloc, text)?, service, &inputs)?)
}

/// The outcome as JSON text, or `limit`.
fn shown(alloc: Global, outcome: &Outcome) -> Result<String, AllocError> {
    match outcome {
        Outcome::Is(value) => value.to_json(alloc)?.to_string(alloc),
        Outcome::Limit => String::from_str(alloc, "limit"),
    }
}

/// The outcome of a task, as JSON text.
fn outcome_of(alloc: Global, task: &Task) -> Result<String, AllocError> {
    shown(alloc, &task.run(alloc)?)
}

/// Inputs that are no object, with the fault of a request; an unknown service counts before.
const NO_INPUTS: &[(&str, &str, TaskFault)] = &[
    ("A", "null", TaskFault::Service),
    ("s1", "null", TaskFault::Value),
    ("s1", r#"["a"]"#, TaskFault::Value),
];

/// Why there is no task with these inputs, which are JSON.
fn task_fault(
    alloc: Global,
    plan: &Arc<Plan>,
    service: &str,
    inputs: &str,
) -> Result<Option<TaskFault>, Fail> {
    let inputs = serde_json::Value::from_str(alloc, inputs)?;
    let plan = Arc::clone(plan)?;
    Ok(Task::new(alloc, plan, service, &inputs).err())
}

/// Why the text is no model.
fn model_fault(alloc: Global, text: &str) -> Option<ModelFault> {
    Plan::read(alloc, text.as_bytes()).err()
}

#[test]
fn texts_that_no_line_has(rt: HostRuntime) -> Result<(), Fail> {
    assert_eq!(rt; model_fault(rt.alloc(), "{"), Some(ModelFault::Syntax));
    let plan = shared(rt.alloc())?;
    for (service, inputs, fault) in NO_INPUTS {
        let found = task_fault(rt.alloc(), &plan, service, inputs)?;
        assert!(rt; found == Some(*fault), "{service}");
    }
    Ok(())
}

/// The decisions `x` and `y` of so many pairs behind the first, each of which needs both of the pair before.
fn decisions(alloc: Global, pairs: usize) -> Result<String, AllocError> {
    let mut text = String::from_str(
        alloc,
        r#"{"name":"x0","needs":["a"],"expr":"a"},{"name":"y0","needs":["a"],"expr":"a"}"#,
    )?;
    for before in 0..pairs {
        let i = before.saturating_add(1);
        text.push_str(format!(in alloc;
            r#",{{"name":"x{i}","needs":["x{before}","y{before}"],"expr":"x{before}"}},{{"name":"y{i}","needs":["x{before}","y{before}"],"expr":"y{before}"}}"#
        )?.as_str())?;
    }
    Ok(text)
}

/// The names of these decisions.
fn names(alloc: Global, pairs: usize) -> Result<String, AllocError> {
    let mut text = String::from_str(alloc, r#""x0","y0""#)?;
    for before in 0..pairs {
        let i = before.saturating_add(1);
        text.push_str(format!(in alloc; r#","x{i}","y{i}""#)?.as_str())?;
    }
    Ok(text)
}

/// The text of a model with 500 pairs of decisions, of which each but the first pair needs both of the pair before, with these
/// decisions behind them, and a service of these outputs, to which all pairs are known.
fn pairs(alloc: Global, more: &str, outputs: &str) -> Result<String, AllocError> {
    let decisions = decisions(alloc, 499)?;
    let within = names(alloc, 499)?;
    format!(in alloc;
        r#"{{"inputs":["a"],"decisions":[{decisions}{more}],"services":[{{"name":"s","outputs":[{outputs}],"encapsulated":[{within}],"inputDecisions":[],"inputData":["a"]}}]}}"#
    )
}

/// Each of a thousand decisions is evaluated once, or else this would not end.
#[test]
fn a_thousand_decisions(rt: HostRuntime) -> Result<(), Fail> {
    let most = pairs(rt.alloc(), "", r#""x499""#)?;
    let task = task(rt.alloc(), most.as_str(), "s", r#"{"a":4}"#)?;
    assert_eq!(rt; outcome_of(rt.alloc(), &task)?.as_str(), "4");
    Ok(())
}

/// A service without an output counts before.
#[test]
fn more_than_a_thousand_decisions(rt: HostRuntime) -> Result<(), Fail> {
    let more = r#",{"name":"e","needs":[],"expr":"1"}"#;
    for (outputs, fault) in [(r#""x499""#, ModelFault::Large), ("", ModelFault::Service)] {
        let text = pairs(rt.alloc(), more, outputs)?;
        assert_eq!(rt; model_fault(rt.alloc(), text.as_str()), Some(fault));
    }
    Ok(())
}
