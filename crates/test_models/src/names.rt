use dmn_plan::{ModelFault, Plan};
use std::alloc::{AllocError, Global};
use std::test::Fail;

// Every place that a name may have, each with a name of its own; so some need is unknown.
const EVERYWHERE: &str = r#"{"inputs":["input_a","input_b"],
    "decisions":[
        {"name":"decision_a","needs":["need_a","need_b"],"expr":{"list":["1",{"context":[
            {"name":"entry_a","expr":"1"},
            {"name":"entry_b","expr":{"context":[{"name":"inner_a","expr":"1"},{"name":"inner_b","expr":"2"}]}}],
            "result":{"table":{"hit":"U","inputs":[],"outputs":[{"name":"output_a"},{"name":"output_b"}],"rules":[]}}}]}},
        {"name":"decision_b","needs":[],"expr":{"context":[{"name":"last_a","expr":"1"},{"name":"last_b","expr":"1"}]}}],
    "services":[
        {"name":"service_a","outputs":["given_a","given_b"],"encapsulated":["within_a","within_b"],
            "inputDecisions":["taken_a","taken_b"],"inputData":["data_a","data_b"]},
        {"name":"service_b","outputs":[],"encapsulated":[],"inputDecisions":[],"inputData":[]}]}"#;

/// The two names of each list.
const LISTS: &[(&str, &str)] = &[
    ("input_a", "input_b"),
    ("decision_a", "decision_b"),
    ("need_a", "need_b"),
    ("entry_a", "entry_b"),
    ("inner_a", "inner_b"),
    ("output_a", "output_b"),
    ("last_a", "last_b"),
    ("service_a", "service_b"),
    ("given_a", "given_b"),
    ("within_a", "within_b"),
    ("taken_a", "taken_b"),
    ("data_a", "data_b"),
];

const BAD_NAMES: &[&str] = &["", "1a", "a b", "if"];

/// The fault of the model with one name put in the place of another.
fn fault_with(alloc: Global, old: &str, new: &str) -> Result<Option<ModelFault>, AllocError> {
    let text = EVERYWHERE.replace(alloc, old, new)?;
    Ok(Plan::read(alloc, text.as_bytes()).err())
}

/// Whether each bad name in the place of this one is found.
fn are_bad_names_found(alloc: Global, name: &str) -> Result<bool, AllocError> {
    for bad in BAD_NAMES {
        if fault_with(alloc, name, bad)? != Some(ModelFault::Name) {
            return Ok(false);
        }
    }
    Ok(true)
}

/// Bad names in the place of each, and each first name in the place of the second.
#[test]
fn a_wrong_name_is_found_everywhere(rt: HostRuntime) -> Result<(), Fail> {
    for (first, second) in LISTS {
        assert!(rt; are_bad_names_found(rt.alloc(), first)?, "{first}");
        assert!(rt; are_bad_names_found(rt.alloc(), second)?, "{second}");
        let found = fault_with(rt.alloc(), second, first)?;
        assert_eq!(rt; found, Some(ModelFault::Twice), "{second}");
    }
    Ok(())
}

/// A name, and one in its place: an input's for a decision, and those of two lists, in which a name may stand.
const OF_TWO_LISTS: &[(&str, &str, ModelFault)] = &[
    ("decision_b", "input_a", ModelFault::Twice),
    ("need_a", "need_a", ModelFault::Unknown),
    ("need_a", "input_a", ModelFault::Unknown),
    ("inner_a", "entry_a", ModelFault::Unknown),
    ("output_a", "last_a", ModelFault::Unknown),
    ("service_a", "decision_a", ModelFault::Unknown),
    ("within_a", "given_a", ModelFault::Unknown),
];

#[test]
fn a_name_may_stand_in_two_lists(rt: HostRuntime) -> Result<(), Fail> {
    for (old, new, fault) in OF_TWO_LISTS {
        let found = fault_with(rt.alloc(), old, new)?;
        assert_eq!(rt; found, Some(*fault), "{new} in the place of {old}");
    }
    Ok(())
}
