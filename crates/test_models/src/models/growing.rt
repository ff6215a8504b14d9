//! Calls over heaps of growing room: each is refused, or right, until the room is enough. And values that would grow far past
//! their limit, in little room.
use super::refused::{RESULT, has_text};
use super::{SHARED, outcome_of, shared, shown, task};
use box_core::{Answered, Done, Mailbox, Work};
use dmn_plan::{ModelFault, Plan, Task, TaskFault};
use feel_value::Outcome;
use serde_json::Value;
use std::alloc::{AllocError, Global};
use std::process::Abort;
use std::sync::Arc;
use std::test::Fail;
use test_devices::FullHeap;

/// The first room, in bytes. It grows by an eighth from run to run.
const FIRST: usize = 64;

/// The most runs.
const RUNS: usize = 120;

/// Each service, with inputs and the result.
const SERVICES: [(&str, &str, &str); 2] = [
    ("s1", r#"{"a":1}"#, RESULT),
    ("s2", r#"{"a":1,"B":5}"#, "7"),
];

/// Whether the model is read, where the heap gives no more than this. If not, memory was refused.
fn is_read_within(
    rt: &impl Abort,
    alloc: Global,
    spare: usize,
    json: &Value,
) -> Result<bool, AllocError> {
    let full = FullHeap::but(alloc, spare)?;
    let made = Plan::of(alloc, json);
    drop(full);
    match made {
        Ok(plan) => {
            assert!(rt; has_text(alloc, &plan, json)?, "{spare}");
            Ok(true)
        }
        Err(fault) => {
            assert_eq!(rt; fault, ModelFault::Memory, "{spare}");
            Ok(false)
        }
    }
}

#[test]
fn a_plan_over_growing_heaps(rt: HostRuntime) -> Result<(), Fail> {
    let json = Value::from_str(rt.alloc(), SHARED)?;
    let mut spare = FIRST;
    let mut is_read = false;
    for _ in 0..RUNS {
        is_read = is_read_within(&rt, rt.alloc(), spare, &json)?;
        if is_read {
            println!(rt; "read with {spare} bytes")?;
            break;
        }
        spare = spare.saturating_add(spare / 8);
    }
    assert!(rt; is_read);
    Ok(())
}

/// Whether the task is made and gives the result, where the heap gives no more than this for its making. If not, memory was
/// refused.
fn is_made_within(
    rt: &impl Abort,
    alloc: Global,
    spare: usize,
    plan: &Arc<Plan>,
    service: &str,
    inputs: &Value,
    due: &str,
) -> Result<bool, AllocError> {
    let share = Arc::clone(plan)?;
    let full = FullHeap::but(alloc, spare)?;
    let made = Task::new(alloc, share, service, inputs);
    drop(full);
    match made {
        Ok(task) => {
            assert!(rt; outcome_of(alloc, &task)?.as_str() == due, "{spare}");
            Ok(true)
        }
        Err(fault) => {
            assert!(rt; fault == TaskFault::Memory, "{spare}");
            Ok(false)
        }
    }
}

/// Makes the task with more and more room, and answers whether it was made at last.
fn is_made(
    rt: &impl Abort,
    alloc: Global,
    service: &str,
    inputs: &str,
    due: &str,
) -> Result<bool, Fail> {
    let plan = shared(alloc)?;
    let inputs = Value::from_str(alloc, inputs)?;
    let mut spare = FIRST;
    for _ in 0..RUNS {
        if is_made_within(rt, alloc, spare, &plan, service, &inputs, due)? {
            return Ok(true);
        }
        spare = spare.saturating_add(spare / 8);
    }
    Ok(false)
}

#[test]
fn tasks_over_growing_heaps(rt: HostRuntime) -> Result<(), Fail> {
    for (service, inputs, result) in SERVICES {
        assert!(rt;
            is_made(&rt, rt.alloc(), service, inputs, result)?,
            "{service}"
        );
    }
    Ok(())
}

/// The outcome of a task where the heap gives no more than this; None where memory was refused.
fn run_within(alloc: Global, spare: usize, task: &Task) -> Result<Option<Outcome>, AllocError> {
    let full = FullHeap::but(alloc, spare)?;
    let outcome = task.run(alloc);
    drop(full);
    Ok(outcome.ok())
}

/// Runs the task with more and more room, and gives its first result as JSON text.
fn run_at_last(alloc: Global, task: &Task) -> Result<Option<String>, AllocError> {
    let mut spare = FIRST;
    for _ in 0..RUNS {
        if let Some(outcome) = run_within(alloc, spare, task)? {
            return Ok(Some(shown(alloc, &outcome)?));
        }
        spare = spare.saturating_add(spare / 8);
    }
    Ok(None)
}

#[test]
fn runs_over_growing_heaps(rt: HostRuntime) -> Result<(), Fail> {
    for (service, inputs, result) in SERVICES {
        let task = task(rt.alloc(), SHARED, service, inputs)?;
        let found = run_at_last(rt.alloc(), &task)?;
        assert!(rt;
            found.is_some_and(|text| text.as_str() == result),
            "{service}"
        );
    }
    Ok(())
}

/// How many members or hits the values would have.
const MANY: usize = 2_000;

/// The room for a value that would take a hundred times as much, in bytes.
const LITTLE: usize = 8_000_000;

/// A text so many times, with commas between.
fn repeated(alloc: Global, piece: &str) -> Result<String, AllocError> {
    let mut text = String::from_str(alloc, piece)?;
    for _ in 1..MANY {
        text.push(',')?;
        text.push_str(piece)?;
    }
    Ok(text)
}

/// The model of one decision with this logic, which needs `b`.
fn model(alloc: Global, logic: &str) -> Result<String, AllocError> {
    format!(in alloc;
        r#"{{"inputs":["b"],"decisions":[{{"name":"d","needs":["b"],"expr":{logic}}}],"services":[{{"name":"s","outputs":["d"],"encapsulated":[],"inputDecisions":[],"inputData":["b"]}}]}}"#
    )
}

/// Inputs in which `b` is a list of contexts with a number `x` each.
fn contexts(alloc: Global) -> Result<String, AllocError> {
    let list = repeated(alloc, r#"{"x":1},{"x":2}"#)?;
    format!(in alloc; r#"{{"b":[{list}]}}"#)
}

/// The outcome of a decision with this logic in little room; None where memory was refused.
fn in_little_room(alloc: Global, logic: &str) -> Result<Option<Outcome>, Fail> {
    let model = model(alloc, logic)?;
    let inputs = contexts(alloc)?;
    let task = task(alloc, model.as_str(), "s", inputs.as_str())?;
    Ok(run_within(alloc, LITTLE, &task)?)
}

/// Whether a decision with this logic is told as `limit` in little room.
fn is_limit_in_little_room(alloc: Global, logic: &str) -> Result<bool, Fail> {
    let outcome = in_little_room(alloc, logic)?;
    Ok(matches!(outcome, Some(Outcome::Limit)))
}

#[test]
fn a_list_far_past_its_limit_takes_little_room(rt: HostRuntime) -> Result<(), Fail> {
    let members = repeated(rt.alloc(), "b.x")?;
    let logic = format!(in rt.alloc(); r#""[{members}]""#)?;
    assert!(rt; is_limit_in_little_room(rt.alloc(), logic.as_str())?);
    Ok(())
}

#[test]
fn a_boxed_list_far_past_its_limit_takes_little_room(rt: HostRuntime) -> Result<(), Fail> {
    let members = repeated(rt.alloc(), r#""b.x""#)?;
    let logic = format!(in rt.alloc(); r#"{{"list":[{members}]}}"#)?;
    assert!(rt; is_limit_in_little_room(rt.alloc(), logic.as_str())?);
    Ok(())
}

/// So many entries of a boxed context, each of which is `b.x`.
fn named_paths(alloc: Global) -> Result<String, AllocError> {
    let mut text = String::from_str(alloc, r#"{"name":"e0","expr":"b.x"}"#)?;
    for i in 1..MANY {
        text.push_str(format!(in alloc; r#",{{"name":"e{i}","expr":"b.x"}}"#)?.as_str())?;
    }
    Ok(text)
}

#[test]
fn a_boxed_context_far_past_its_limit_takes_little_room(rt: HostRuntime) -> Result<(), Fail> {
    let entries = named_paths(rt.alloc())?;
    let logic = format!(in rt.alloc(); r#"{{"context":[{entries}]}}"#)?;
    assert!(rt; is_limit_in_little_room(rt.alloc(), logic.as_str())?);
    Ok(())
}

/// A table under this hit policy whose every rule hits: many give `b.x`, and the last 1, which has the highest priority.
fn table_of_paths(alloc: Global, hit: &str) -> Result<String, AllocError> {
    let rules = repeated(alloc, r#"{"when":["-"],"then":["b.x"]}"#)?;
    format!(in alloc;
        r#"{{"table":{{"inputs":["1"],"hit":"{hit}","outputs":[{{"name":"o","values":["1"]}}],"rules":[{rules},{{"when":["-"],"then":["1"]}}]}}}}"#
    )
}

#[test]
fn hits_far_past_their_limit_take_little_room(rt: HostRuntime) -> Result<(), Fail> {
    for hit in ["C", "R", "O"] {
        let logic = table_of_paths(rt.alloc(), hit)?;
        assert!(rt;
            is_limit_in_little_room(rt.alloc(), logic.as_str())?,
            "{hit}"
        );
    }
    Ok(())
}

#[test]
fn the_best_of_many_hits_takes_little_room(rt: HostRuntime) -> Result<(), Fail> {
    let logic = table_of_paths(rt.alloc(), "P")?;
    let Some(outcome) = in_little_room(rt.alloc(), logic.as_str())? else {
        return Err("memory was refused".into());
    };
    assert!(rt; shown(rt.alloc(), &outcome)?.as_str() == "1");
    Ok(())
}

/// Two texts of models whose decision gives the same.
const ADDED: &str =
    r#"{"inputs":["b"],"decisions":[{"name":"d","needs":["b"],"expr":"b + 1"}],"services":[{"name":"s","outputs":["d"],"encapsulated":[],"inputDecisions":[],"inputData":["b"]}]}"#;

const ADDED_TO: &str =
    r#"{"inputs":["b"],"decisions":[{"name":"d","needs":["b"],"expr":"1 + b"}],"services":[{"name":"s","outputs":["d"],"encapsulated":[],"inputDecisions":[],"inputData":["b"]}]}"#;

/// What a mailbox says to the answer of one request, where it accepted another.
fn answered(alloc: Global, accepted: Task, answer: Task) -> Result<Answered, Fail> {
    let mut mailbox = Mailbox::new(alloc, 1)?;
    if mailbox.admit(Arc::new(alloc, accepted)?).is_err() {
        return Err("an empty mailbox admits".into());
    }
    match Done::of(alloc, 0, Arc::new(alloc, answer)?) {
        Ok(done) => Ok(mailbox.answer(done)),
        Err((refused, _)) => Err(refused.into()),
    }
}

#[test]
fn requests_under_two_texts_are_two(rt: HostRuntime) -> Result<(), Fail> {
    let alloc = rt.alloc();
    let inputs = r#"{"b":1}"#;
    for (text, is_same, due) in [
        (ADDED, true, Answered::Kept),
        (ADDED_TO, false, Answered::Strange),
    ] {
        let accepted = task(alloc, ADDED, "s", inputs)?;
        let other = task(alloc, text, "s", inputs)?;
        assert!(rt; outcome_of(alloc, &other)?.as_str() == "2");
        assert_eq!(rt; accepted.same(&other), is_same);
        assert_eq!(rt; answered(alloc, accepted, other)?, due);
    }
    Ok(())
}
