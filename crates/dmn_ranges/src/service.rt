//! What the decisions of a service can give, and the service itself, for inputs within their domains.
ghost use Rattle.std.specs.Prelude.{◌≡◌, ◌<◌, ℕ, IfOk, OnOk, List, length, true, slice_set, unwrap_or};
ghost use Rattle.std.specs.List.{All, slice_get, zip};
ghost use Rattle.feel_text.specs.Expr.{Expr as ExprData};
ghost use Rattle.feel_value.specs.Datum.{Datum};
ghost use Rattle.dmn_form.specs.Model.{Model, Service};
ghost use Rattle.dmn_service.specs.Decision.{parameters_of, service_result};
ghost use Rattle.dmn_service.specs.Places.{name_at};
ghost use Rattle.dmn_service.specs.Plan.{HasPlacesWithin, IsPlanOf};
ghost use Rattle.dmn_service.specs.Run.{nothing_found, filled_by, given_at};
ghost use Rattle.dmn_table.specs.Table.{Table as TableData};
ghost use Rattle.dmn_ranges.specs.Ranges.{AreWithin, covers};
ghost use Rattle.dmn_ranges.specs.Decisions.{AreRangesOf};
ghost use Rattle.dmn_ranges.specs.Names.{members_if};
ghost use Rattle.dmn_ranges.specs.Services.{Tells, told_at as told_at_of, not_found as nothing_told, needs_scope, needs_limit, outputs_outcomes as outputs_outcomes_of, domain_at as domain_at_of, given_told, given_known, members_given, views, TellsFilled, TellsItem};

use crate::boxed::box_outcomes;
use crate::names::Names;
use crate::outcomes::Outcomes;
use crate::range::{ParameterRange, Range};
use crate::rule::some_context;
use dmn_service::{Item, ServicePlan};
use std::alloc::{AllocError, Global};

/// What a decision service can give, where the values of its parameters lie in these domains.
///
/// For every request with such values the result lies in the range that is answered; and where a limit is broken, the answer says
/// that it can be. The analysis of all tables takes at most so many steps; what they don't suffice for is told as without it.
pub fn range_of_service(
    alloc: Global,
    items: &[Item],
    service: &ServicePlan,
    domains: &[ParameterRange],
    steps: u64,
) -> Result<Outcomes, AllocError>
    requires places { HasPlacesWithin items.now service.now }
    requires domains { length domains.now ≡ length service.now.parameters.items }
    ensures { IfOk result (λ o. (m : Model ExprData TableData) (s : Service) (values : List Datum) → IsPlanOf m s items.now service.now → AreWithin domains.now values → covers o (service_result m s (zip (parameters_of s) values)) ≡ true) }
{
    let along = ranges_along(alloc, items, service, domains, steps)?;
    Ok(outputs_outcomes(&service.outputs, &along.told))
}

/// What the decisions of a service can give, each at its place, where the values of its parameters lie in these domains.
///
/// For every request with such values the outcome of each decision that the service needs is among what is answered at its place;
/// of other places nothing is said. The analysis of all tables takes at most so many steps.
pub fn ranges_of_decisions(
    alloc: Global,
    items: &[Item],
    service: &ServicePlan,
    domains: &[ParameterRange],
    steps: u64,
) -> Result<Vec<Outcomes>, AllocError>
    requires places { HasPlacesWithin items.now service.now }
    requires domains { length domains.now ≡ length service.now.parameters.items }
    ensures { IfOk result (λ told. AreRangesOf items.now service.now domains.now told.items) }
{
    let along = ranges_along(alloc, items, service, domains, steps)?;
    Ok(along.told)
}

/// What a service and its decisions can give.
#[derive(Drop)]
pub struct ServiceRanges {
    /// At the place of each decision that the service needs what it can give. Other places say nothing.
    pub decisions: Vec<Outcomes>,
    /// What the service can give.
    pub result: Outcomes,
}

/// What a service and its decisions can give, where the values of its parameters lie in these domains. The analysis of all tables takes
/// at most so many steps.
pub fn ranges_of_service(
    alloc: Global,
    items: &[Item],
    service: &ServicePlan,
    domains: &[ParameterRange],
    steps: u64,
) -> Result<ServiceRanges, AllocError>
    requires places { HasPlacesWithin items.now service.now }
    requires domains { length domains.now ≡ length service.now.parameters.items }
    ensures decisions { IfOk result (λ r. AreRangesOf items.now service.now domains.now r.decisions.items) }
    ensures result { IfOk result (λ r. (m : Model ExprData TableData) (s : Service) (values : List Datum) → IsPlanOf m s items.now service.now → AreWithin domains.now values → covers r.result (service_result m s (zip (parameters_of s) values)) ≡ true) }
{
    let along = ranges_along(alloc, items, service, domains, steps)?;
    let result = outputs_outcomes(&service.outputs, &along.told);
    Ok(ServiceRanges {
        decisions: along.told,
        result,
    })
}

/// What is told of places.
#[derive(Drop)]
pub(crate) struct Along<'a> {
    /// What each can give.
    pub(crate) told: Vec<Outcomes>,
    /// The parameter at each place, if there is one.
    pub(crate) known: Vec<Option<&'a ParameterRange>>,
}

/// What the parameters and the decisions of a service can give, each at its place, where the values of its parameters lie in these
/// domains.
pub(crate) fn ranges_along<'a>(
    alloc: Global,
    items: &[Item],
    service: &ServicePlan,
    domains: &'a [ParameterRange],
    steps: u64,
) -> Result<Along<'a>, AllocError>
    requires places { HasPlacesWithin items.now service.now }
    requires domains { length domains.now ≡ length service.now.parameters.items }
    ensures told { IfOk result (λ r. (values : List Datum) → AreWithin domains.now values → Tells (r.told.items, views r.known.items) (filled_by items.now service.now.order.items (given_at service.now.parameters.items values nothing_found))) }
    ensures count { IfOk result (λ r. length r.told.items ≡ length items.now) }
{
    let mut told = nothing(alloc, items.len())?;
    let mut known = none_known(alloc, items.len())?;
    give(&service.parameters, domains, &mut told);
    give_members(&service.parameters, domains, &mut known);
    let mut rest = steps;
    fill(
        alloc,
        items,
        &service.order,
        &mut told,
        &mut known,
        &mut rest,
    )?;
    Ok(Along { told, known })
}

fn not_found() -> Outcomes
    ensures { result ≡ nothing_told }
{
    Outcomes {
        range: Range::nothing(),
        limit: true,
    }
}

// Nothing told of so many places.
fn nothing(alloc: Global, places: usize) -> Result<Vec<Outcomes>, AllocError>
    ensures count { IfOk result (λ told. length told.items ≡ places) }
    ensures nothing { IfOk result (λ told. (q : ℕ) → told_at_of told.items q ≡ nothing_told) }
{
    let mut told = Vec::with_capacity(alloc, places)?;
    for _ in 0..places {
        told.push(not_found())?;
    }
    Ok(told)
}

// No parameter known at so many places.
fn none_known<'a>(
    alloc: Global,
    places: usize,
) -> Result<Vec<Option<&'a ParameterRange>>, AllocError>
    ensures { IfOk result (λ known. length known.items ≡ places) }
{
    let mut known = Vec::with_capacity(alloc, places)?;
    for _ in 0..places {
        known.push(None)?;
    }
    Ok(known)
}

// Tells this of a place.
fn keep(told: &mut Vec<Outcomes>, place: usize, outcomes: Outcomes)
    requires { place < length told.old.items }
    ensures kept { told.new.items ≡ slice_set told.old.items place outcomes }
    ensures count { length told.new.items ≡ length told.old.items }
{
    told[place] = outcomes;
}

// Knows this of the members at a place.
fn know<'a>(
    known: &mut Vec<Option<&'a ParameterRange>>,
    place: usize,
    parameter: Option<&'a ParameterRange>,
)
    requires { place < length known.old.items }
    ensures known { known.new.items ≡ slice_set known.old.items place parameter.entry }
    ensures count { length known.new.items ≡ length known.old.items }
{
    known[place] = parameter;
}

// The domain of a parameter.
fn domain_at(domains: &[ParameterRange], place: usize) -> Outcomes
    ensures { result ≡ domain_at_of domains.now place }
{
    match domains.get(place) {
        Some(domain) => Outcomes::given(domain.range),
        None => not_found(),
    }
}

// What is known of a parameter.
fn parameter_given<'a>(domains: &'a [ParameterRange], place: usize) -> Option<&'a ParameterRange>
    ensures { members_if result ≡ members_given (slice_get domains.now place) }
{
    match domains.get(place) {
        Some(domain) => Some(domain),
        None => None,
    }
}

// Tells of each parameter its domain.
fn give(parameters: &[usize], domains: &[ParameterRange], told: &mut Vec<Outcomes>)
    requires { All (λ q. q < length told.old.items) parameters.now }
    ensures given { told.new.items ≡ given_told domains.now 0 parameters.now told.old.items }
    ensures count { length told.new.items ≡ length told.old.items }
{
    for (i, place) in parameters.iter().enumerate() {
        keep(told, *place, domain_at(domains, i));
    }
}

// Knows of the members of each parameter what its domain says.
fn give_members<'a>(
    parameters: &[usize],
    domains: &'a [ParameterRange],
    known: &mut Vec<Option<&'a ParameterRange>>,
)
    requires { All (λ q. q < length known.old.items) parameters.now }
    ensures given { views known.new.items ≡ given_known domains.now 0 parameters.now (views known.old.items) }
    ensures count { length known.new.items ≡ length known.old.items }
{
    for (i, place) in parameters.iter().enumerate() {
        know(known, *place, parameter_given(domains, i));
    }
}

// Tells of the items at these places, one after another, each from what was told before it.
fn fill(
    alloc: Global,
    items: &[Item],
    order: &[usize],
    told: &mut Vec<Outcomes>,
    known: &mut Vec<Option<&ParameterRange>>,
    steps: &mut u64,
) -> Result<(), AllocError>
    requires order { All (λ q. q < length items.now) order.now }
    requires needs { All (λ x. All (λ q. q < length items.now) x.needs.items) items.now }
    requires count { length told.old.items ≡ length items.now }
    requires known { length known.old.items ≡ length items.now }
    ensures filled { OnOk result (TellsFilled items.now order.now (told.old.items, views known.old.items) (told.new.items, views known.new.items)) }
    ensures count { OnOk result (length told.new.items ≡ length told.old.items) }
{
    for place in order {
        let outcomes = item_outcomes(alloc, items, &items[*place], told, known, steps)?;
        keep(told, *place, outcomes);
        know(known, *place, None);
    }
    Ok(())
}

/// What is told of a place; of a place of which nothing is told that a limit is broken, and no value given.
pub fn told_at(told: &[Outcomes], place: usize) -> Outcomes
    ensures { result ≡ told_at_of told.now place }
{
    match told.get(place) {
        Some(outcomes) => *outcomes,
        None => not_found(),
    }
}

// The names that are needed, with what was told of their places.
pub(crate) fn needed<'a>(
    alloc: Global,
    items: &[Item],
    needs: &[usize],
    told: &[Outcomes],
    known: &[Option<&'a ParameterRange>],
) -> Result<Names<'a>, AllocError>
    requires { All (λ q. q < length items.now) needs.now }
    ensures { IfOk result (λ names. names ≡ needs_scope (name_at items.now) (told.now, views known.now) needs.now) }
{
    let mut names = Names::new(alloc);
    for place in needs {
        let outcomes = told_at(told, *place);
        let parameter = parameter_at(known, *place);
        names.bind(
            alloc,
            items[*place].name.as_str(),
            outcomes.range,
            parameter,
        )?;
    }
    Ok(names)
}

// The parameter at a place, if there is one.
fn parameter_at<'a>(
    known: &[Option<&'a ParameterRange>],
    place: usize,
) -> Option<&'a ParameterRange>
    ensures { result ≡ unwrap_or (slice_get known.now place) None }
{
    match known.get(place) {
        Some(parameter) => *parameter,
        None => None,
    }
}

// Whether a limit can be broken at one of these places.
fn can_break(needs: &[usize], told: &[Outcomes]) -> bool
    ensures { result ≡ needs_limit told.now needs.now }
{
    needs.iter().any(|place| told_at(told, *place).limit)
}

// What a decision's logic can give, from what was told of its needs; null for an input.
fn item_outcomes(
    alloc: Global,
    items: &[Item],
    item: &Item,
    told: &[Outcomes],
    known: &[Option<&ParameterRange>],
    steps: &mut u64,
) -> Result<Outcomes, AllocError>
    requires { All (λ q. q < length items.now) item.now.needs.items }
    ensures { IfOk result (TellsItem items.now (told.now, views known.now) item.now) }
{
    let Some(logic) = &item.logic else {
        return Ok(Outcomes::given(Range::null()));
    };
    let mut names = needed(alloc, items, &item.needs, told, known)?;
    let outcomes = box_outcomes(alloc, logic, &mut names, steps)?;
    Ok(outcomes.limited(can_break(&item.needs, told)))
}

// The value of the one output, or the context of all.
fn outputs_outcomes(outputs: &[usize], told: &[Outcomes]) -> Outcomes
    ensures { result ≡ outputs_outcomes_of told.now outputs.now }
{
    let Some((first, others)) = outputs.split_first() else {
        return some_context();
    };
    match others.split_first() {
        Some(_) => some_context(),
        None => told_at(told, *first),
    }
}
