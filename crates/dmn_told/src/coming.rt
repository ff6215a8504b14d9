//! What comes to the decision tables of a model.
ghost use Rattle.std.specs.Prelude.{◌≡◌, ◌<◌, ℕ, IfOk, IfSome, List, OnOk, Some, length, map, slice_set};
ghost use Rattle.std.specs.List.{All, slice_get};
ghost use Rattle.dmn_plan.specs.ReadModel.{read_text};
ghost use Rattle.dmn_plan.specs.Served.{IsServicePlan};
ghost use Rattle.dmn_service.specs.Plan.{HasPlacesWithin};
ghost use Rattle.dmn_ranges.specs.Columns.{AreWider};
ghost use Rattle.dmn_told.specs.Coming.{Adds, AreParametersOf, ComesFromService, HasTables, IsComing, Keeps};

use crate::domains::{Domain, domains_of};
use dmn_plan::Plan;
use dmn_ranges::{Outcomes, ToldTables, columns_of_service, either_tables};
use dmn_service::{Item, ServicePlan};
use std::alloc::{AllocError, Global};

/// What comes to the decision tables of a model, whatever its services are asked within the domains.
#[derive(Drop)]
pub struct Coming<'a> {
    /// The inputs of the model and then its decisions, each at its place.
    pub items: &'a [Item],
    /// At the place of a decision, for each table of its logic, in their order, and for each column of that what its input can be. None
    /// where no service needs the decision.
    pub tables: Vec<Option<Vec<Vec<Outcomes>>>>,
}

/// What comes to the decision tables of a model, where these are its services, and each value of a parameter meets the tests that are
/// declared under the parameter's name. None where one of these is no service. The domains are in the order of their names; one that
/// isn't may count as none. The analysis of tables takes at most twice so many steps for each service.
pub fn coming_to<'a>(
    alloc: Global,
    plan: &'a Plan,
    services: &[&str],
    domains: &[Domain],
    steps: u64,
) -> Result<Option<Coming<'a>>, AllocError>
    ensures { IfOk result (λ found. IfSome found (λ c. IsComing plan.now domains.now (map (λ n. n.now) services.now) c)) }
{
    let Some(planned) = plan.services(alloc, services)? else {
        return Ok(None);
    };
    let items = planned.items;
    let mut tables = nothing(alloc, items.len())?;
    for place in 0..services.len() {
        let Some(names) = plan.parameters(alloc, services[place])? else {
            return Ok(None);
        };
        add_service(
            alloc,
            items,
            planned.plans[place],
            &names,
            domains,
            steps,
            &mut tables,
        )?;
    }
    Ok(Some(Coming { items, tables }))
}

// Nothing, for so many places.
fn nothing(alloc: Global, places: usize) -> Result<Vec<Option<Vec<Vec<Outcomes>>>>, AllocError>
    ensures { IfOk result (λ told. length told.items ≡ places) }
{
    let mut told = Vec::with_capacity(alloc, places)?;
    for _ in 0..places {
        told.push(None)?;
    }
    Ok(told)
}

// What either has, if the first is there.
fn with_tables(
    alloc: Global,
    before: &Option<Vec<Vec<Outcomes>>>,
    tables: Vec<Vec<Outcomes>>,
) -> Result<Vec<Vec<Outcomes>>, AllocError>
    ensures before { IfOk result (λ wide. IfSome before.now (λ old. AreWider old.items wide.items)) }
    ensures tables { IfOk result (λ wide. AreWider tables.items wide.items) }
{
    match before {
        Some(before) => {
            let wide = either_tables(alloc, before, &tables)?;
            Ok(wide)
        }
        None => Ok(tables),
    }
}

// Keeps the tables of a place.
fn keep(told: &mut Vec<Option<Vec<Vec<Outcomes>>>>, place: usize, tables: Vec<Vec<Outcomes>>)
    requires { place < length told.old.items }
    ensures kept { told.new.items ≡ slice_set told.old.items place (Some tables) }
{
    told[place] = Some(tables);
}

// Adds what comes to the tables of a decision.
fn add_tables(
    alloc: Global,
    told: &mut Vec<Option<Vec<Vec<Outcomes>>>>,
    place: usize,
    tables: Vec<Vec<Outcomes>>,
) -> Result<(), AllocError>
    requires { place < length told.old.items }
    ensures keeps { OnOk result (Keeps told.old.items told.new.items) }
    ensures has { OnOk result (HasTables (slice_get told.new.items place) tables) }
    ensures count { OnOk result (length told.new.items ≡ length told.old.items) }
{
    let wide = with_tables(alloc, &told[place], tables)?;
    keep(told, place, wide);
    Ok(())
}

// Adds what comes to the tables of these decisions.
fn add_each(
    alloc: Global,
    columns: Vec<ToldTables>,
    told: &mut Vec<Option<Vec<Vec<Outcomes>>>>,
) -> Result<(), AllocError>
    requires { All (λ c. c.place < length told.old.items) columns.items }
    ensures { OnOk result (Adds columns.items told.old.items told.new.items) }
{
    for one in columns {
        add_tables(alloc, told, one.place, one.tables)?;
    }
    Ok(())
}

// Adds what comes to the tables of the decisions that a service needs, which has parameters of these names.
fn add_service(
    alloc: Global,
    items: &[Item],
    planned: &ServicePlan,
    names: &[&str],
    domains: &[Domain],
    steps: u64,
    told: &mut Vec<Option<Vec<Vec<Outcomes>>>>,
) -> Result<(), AllocError>
    requires places { HasPlacesWithin items.now planned.now }
    requires names { length names.now ≡ length planned.now.parameters.items }
    requires count { length told.old.items ≡ length items.now }
    ensures keeps { OnOk result (Keeps told.old.items told.new.items) }
    ensures count { OnOk result (length told.new.items ≡ length told.old.items) }
    ensures comes { OnOk result ((text n : List ℕ) → IsServicePlan (read_text text) n items.now planned.now → AreParametersOf text n (map (λ x. x.now) names.now) → ComesFromService (read_text text) domains.now n items.now planned.now told.new.items) }
{
    let ranges = domains_of(alloc, domains, names)?;
    let columns = columns_of_service(alloc, items, planned, &ranges, steps)?;
    add_each(alloc, columns, told)?;
    Ok(())
}
