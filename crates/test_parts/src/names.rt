//! Where names stand in a model, and whether they are lawful and distinct.
use crate::form::form_of;
use dmn_form::{WrittenModel, WrittenService};
use dmn_names::{Places, has_bad_name, has_name_twice};
use std::alloc::{AllocError, Global};
use std::process::Abort;
use std::test::Fail;

const OFFERS: &str = r#"{"inputs":["age","region"],"decisions":[
    {"name":"risk","needs":["age","region"],"expr":"1"},{"name":"offer","needs":["risk","age"],"expr":"1"}],
    "services":[
        {"name":"all","outputs":["offer"],"encapsulated":["risk"],"inputDecisions":[],"inputData":["age","region"]},
        {"name":"last","outputs":["offer"],"encapsulated":[],"inputDecisions":["risk"],"inputData":["age"]},
        {"name":"wrong","outputs":["age"],"encapsulated":[],"inputDecisions":[],"inputData":[]},
        {"name":"other","outputs":["risk"],"encapsulated":[],"inputDecisions":[],"inputData":["offer"]}]}"#;

const PLACES: &[(&str, Option<usize>)] = &[
    ("age", Some(0)),
    ("region", Some(1)),
    ("risk", Some(2)),
    ("offer", Some(3)),
    ("all", None),
];

/// The places of each decision's needs, as text.
fn needs_text(alloc: Global, places: &Places<'_>) -> Result<String, AllocError> {
    format!(in alloc; "{:?}", places.needs(alloc)?)
}

/// The first name that has another place.
fn misplaced(places: &Places<'_>) -> Option<&'static str> {
    for (name, place) in PLACES {
        if places.of(name) != *place {
            return Some(name);
        }
    }
    None
}

/// Each name has its place, and each need that of its name.
fn are_in_place(rt: &impl Abort, alloc: Global, places: &Places<'_>) -> Result<(), AllocError> {
    assert_eq!(rt; misplaced(places), None);
    assert!(rt; places.input("risk").is_none() && places.decision("age").is_none());
    let needs = needs_text(alloc, places)?;
    assert_eq!(rt; needs.as_str(), "Some([[], [], [0, 1], [2, 0]])");
    Ok(())
}

/// The names and needs of a model do.
fn all_are_in_place(
    rt: &impl Abort,
    alloc: Global,
    model: &WrittenModel,
) -> Result<(), AllocError> {
    let places = Places::new(alloc, model)?;
    are_in_place(rt, alloc, &places)
}

#[test]
fn places_of_names_and_needs(rt: HostRuntime) -> Result<(), Fail> {
    let model = form_of(rt.alloc(), OFFERS)?;
    Ok(all_are_in_place(&rt, rt.alloc(), &model)?)
}

/// The places of a service's four lists, or `none`.
fn listed(
    alloc: Global,
    places: &Places<'_>,
    service: &WrittenService,
) -> Result<String, AllocError> {
    match places.service(alloc, service)? {
        Some(s) => format!(in alloc;
            "{:?} {:?} {:?} {:?}",
            s.outputs, s.encapsulated, s.input_decisions, s.input_data
        ),
        None => String::from_str(alloc, "none"),
    }
}

const LISTED: &[&str] = &["[3] [2] [] [0, 1]", "[3] [] [2] [0]", "none", "none"];

/// The lists of each service have these places.
fn are_listed(
    rt: &impl Abort,
    alloc: Global,
    places: &Places<'_>,
    services: &[WrittenService],
) -> Result<(), AllocError> {
    assert!(rt; services.len() == LISTED.len());
    for (service, expected) in services.iter().zip(LISTED) {
        let found = listed(alloc, places, service)?;
        assert!(rt; found.as_str() == *expected, "{expected}");
    }
    Ok(())
}

/// The lists of a model's services do.
fn all_are_listed(rt: &impl Abort, alloc: Global, model: &WrittenModel) -> Result<(), AllocError> {
    let places = Places::new(alloc, model)?;
    are_listed(rt, alloc, &places, &model.services)
}

#[test]
fn places_of_services(rt: HostRuntime) -> Result<(), Fail> {
    let model = form_of(rt.alloc(), OFFERS)?;
    Ok(all_are_listed(&rt, rt.alloc(), &model)?)
}

/// Names that differ only at their ends, so many.
fn long_names(alloc: Global, count: usize) -> Result<Vec<String>, AllocError> {
    let mut names = Vec::new(alloc);
    for i in 0..count {
        names.push(format!(in alloc;
            "a_name_that_begins_like_all_the_others_and_then_ends_in_{i}"
        )?)?;
    }
    Ok(names)
}

/// A model of 20,000 such inputs.
fn with_inputs(alloc: Global) -> Result<WrittenModel, AllocError> {
    Ok(WrittenModel {
        inputs: long_names(alloc, 20_000)?,
        decisions: Vec::new(alloc),
        services: Vec::new(alloc),
    })
}

const LAST_NAME: &str = "a_name_that_begins_like_all_the_others_and_then_ends_in_19999";

/// The place of the last name.
fn last_place(alloc: Global, model: &WrittenModel) -> Result<Option<usize>, AllocError> {
    Ok(Places::new(alloc, model)?.of(LAST_NAME))
}

/// The last name has the last of 20,000 places, and stands twice or not.
fn last_name_is_found(
    rt: &impl Abort,
    alloc: Global,
    model: &WrittenModel,
    is_twice: bool,
) -> Result<(), AllocError> {
    assert!(rt; !has_bad_name(model));
    assert_eq!(rt; has_name_twice(alloc, model)?, is_twice);
    assert_eq!(rt; last_place(alloc, model)?, Some(19_999));
    Ok(())
}

#[test]
fn many_names_with_a_long_prefix(rt: HostRuntime) -> Result<(), Fail> {
    let mut model = with_inputs(rt.alloc())?;
    last_name_is_found(&rt, rt.alloc(), &model, false)?;
    model.inputs.push(String::from_str(rt.alloc(), LAST_NAME)?)?;
    last_name_is_found(&rt, rt.alloc(), &model, true)?;
    Ok(())
}
