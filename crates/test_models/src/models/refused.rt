//! Each call that takes memory, where a request for it is refused: the answer says so, and the same call repeated gives what it
//! gives with ample memory. In a plain run only the last test meets a refusal. A run that refuses the Nth request of each test
//! shows the rest: past the requests of the set-up a test then ends well with "refused: true", once for each request of its call,
//! and later with "refused: false".
use super::{SHARED, outcome_of, shared, shown, task};
use box_core::Work;
use dmn_plan::{ModelFault, Plan, Task, TaskFault};
use feel_value::Outcome;
use serde_json::Value;
use std::alloc::{AllocError, Global};
use std::sync::Arc;
use std::test::Fail;
use test_devices::FullHeap;

/// Both outputs of the first service, for the input 1.
pub(super) const RESULT: &str = r#"{"A":4611686018427387906,"B":4611686018427387904}"#;

/// The model, read again where its first reading was refused.
fn plan_of(alloc: Global, json: &Value, first: Result<Plan, ModelFault>) -> Result<Plan, Fail> {
    match first {
        Ok(plan) => Ok(plan),
        Err(ModelFault::Memory) => Ok(Plan::of(alloc, json)?),
        Err(_) => Err("a refused request is no fault of the model".into()),
    }
}

/// Whether the model keeps its text.
pub(super) fn has_text(alloc: Global, plan: &Plan, json: &Value) -> Result<bool, AllocError> {
    Ok(plan.text() == json.to_string(alloc)?.as_bytes())
}

#[test]
fn a_refused_plan(rt: HostRuntime) -> Result<(), Fail> {
    let json = Value::from_str(rt.alloc(), SHARED)?;
    let first = Plan::of(rt.alloc(), &json);
    let refused = first.is_err();
    let plan = plan_of(rt.alloc(), &json, first)?;
    assert!(rt; has_text(rt.alloc(), &plan, &json)?);
    println!(rt; "refused: {refused}")?;
    Ok(())
}

/// Whether the task's outcome is that of both outputs.
fn gives_both(alloc: Global, task: &Task) -> Result<bool, AllocError> {
    Ok(outcome_of(alloc, task)?.as_str() == RESULT)
}

/// The inputs of a request to the first service.
fn inputs(alloc: Global) -> Result<Value, Fail> {
    Ok(Value::from_str(alloc, r#"{"a":1}"#)?)
}

/// The task, made again where its first making was refused.
fn task_of(
    alloc: Global,
    plan: Arc<Plan>,
    inputs: &Value,
    first: Result<Task, TaskFault>,
) -> Result<Task, Fail> {
    match first {
        Ok(task) => Ok(task),
        Err(TaskFault::Memory) => Ok(Task::new(alloc, plan, "s1", inputs)?),
        Err(_) => Err("a refused request is no fault of the inputs".into()),
    }
}

#[test]
fn a_refused_task(rt: HostRuntime) -> Result<(), Fail> {
    let plan = shared(rt.alloc())?;
    let inputs = inputs(rt.alloc())?;
    let first = Task::new(rt.alloc(), Arc::clone(&plan)?, "s1", &inputs);
    let refused = first.is_err();
    let task = task_of(rt.alloc(), plan, &inputs, first)?;
    assert!(rt; gives_both(rt.alloc(), &task)?);
    println!(rt; "refused: {refused}")?;
    Ok(())
}

/// The outcome, found again where its first finding was refused.
fn settled(
    alloc: Global,
    task: &Task,
    first: Result<Outcome, AllocError>,
) -> Result<String, AllocError> {
    match first {
        Ok(outcome) => shown(alloc, &outcome),
        Err(AllocError) => outcome_of(alloc, task),
    }
}

#[test]
fn a_refused_run(rt: HostRuntime) -> Result<(), Fail> {
    let task = task(rt.alloc(), SHARED, "s1", r#"{"a":1}"#)?;
    let first = task.run(rt.alloc());
    let refused = first.is_err();
    assert!(rt; settled(rt.alloc(), &task, first)?.as_str() == RESULT);
    println!(rt; "refused: {refused}")?;
    Ok(())
}

#[test]
fn a_plan_while_the_heap_is_full(rt: HostRuntime) -> Result<(), Fail> {
    let json = Value::from_str(rt.alloc(), SHARED)?;
    let full = FullHeap::but(rt.alloc(), 0)?;
    let made = Plan::of(rt.alloc(), &json);
    drop(full);
    assert!(rt; matches!(made, Err(ModelFault::Memory)));
    Ok(())
}

#[test]
fn a_task_while_the_heap_is_full(rt: HostRuntime) -> Result<(), Fail> {
    let inputs = inputs(rt.alloc())?;
    let plan = shared(rt.alloc())?;
    // The refused call drops its own share of the plan, so that nothing is given back to the heap.
    let share = Arc::clone(&plan)?;
    let full = FullHeap::but(rt.alloc(), 0)?;
    let made = Task::new(rt.alloc(), share, "s1", &inputs);
    drop(full);
    assert!(rt; matches!(made, Err(TaskFault::Memory)));
    Ok(())
}

/// The outcome of a task while the heap is full.
fn run_without_memory(
    alloc: Global,
    task: &Task,
) -> Result<Result<Outcome, AllocError>, AllocError> {
    let full = FullHeap::but(alloc, 0)?;
    let outcome = task.run(alloc);
    drop(full);
    Ok(outcome)
}

#[test]
fn a_run_while_the_heap_is_full(rt: HostRuntime) -> Result<(), Fail> {
    let task = task(rt.alloc(), SHARED, "s1", r#"{"a":1}"#)?;
    assert!(rt; run_without_memory(rt.alloc(), &task)?.is_err());
    assert!(rt; gives_both(rt.alloc(), &task)?);
    Ok(())
}
