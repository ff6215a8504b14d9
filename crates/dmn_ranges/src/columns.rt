//! What comes to the columns of the tables of decisions.
ghost use Rattle.std.specs.Prelude.{◌≡◌, ◌<◌, IfOk, OnOk, Some, length, take};
ghost use Rattle.std.specs.List.{All};
ghost use Rattle.dmn_logic.specs.LogicView.{entries_view, logic_view, members_view};
ghost use Rattle.dmn_service.specs.Plan.{HasPlacesWithin};
ghost use Rattle.dmn_ranges.specs.Services.{views};
ghost use Rattle.dmn_ranges.specs.Columns.{AddsEntries, AddsMembers, AddsTables, AreColumnsOf, StandAt, TellsEachPlace, TellsItemColumns};

use crate::boxed::box_outcomes;
use crate::names::Names;
use crate::outcomes::Outcomes;
use crate::range::ParameterRange;
use crate::service::{needed, ranges_along};
use crate::table::column_outcomes;
use dmn_logic::Logic;
use dmn_service::{Item, ServicePlan};
use std::alloc::{AllocError, Global};
use std::sync::ArcStr;

/// What comes to the tables of a decision.
#[derive(Drop)]
pub struct ToldTables {
    /// The place of the decision.
    pub place: usize,
    /// For each table of its logic, in their order, and for each column of that what its input can be.
    pub tables: Vec<Vec<Outcomes>>,
}

/// What comes to the tables of the decisions that a service needs, in the order of its plan, where the values of its parameters lie in
/// these domains. The analysis of tables takes at most twice so many steps.
pub fn columns_of_service(
    alloc: Global,
    items: &[Item],
    service: &ServicePlan,
    domains: &[ParameterRange],
    steps: u64,
) -> Result<Vec<ToldTables>, AllocError>
    requires places { HasPlacesWithin items.now service.now }
    requires domains { length domains.now ≡ length service.now.parameters.items }
    ensures columns { IfOk result (λ columns. AreColumnsOf items.now service.now domains.now columns.items) }
    ensures places { IfOk result (λ columns. StandAt service.now.order.items columns.items) }
{
    let along = ranges_along(alloc, items, service, domains, steps)?;
    let mut rest = steps;
    let columns = columns_along(
        alloc,
        items,
        &service.order,
        &along.told,
        &along.known,
        &mut rest,
    )?;
    Ok(columns)
}

// Adds what comes to the columns of the tables of a boxed expression. It goes as deep as that is.
#[cycle(columns)]
fn add_tables(
    alloc: Global,
    logic: &Logic,
    names: &mut Names,
    columns: &mut Vec<Vec<Outcomes>>,
    steps: &mut u64,
) -> Result<(), AllocError>
    ensures tables { OnOk result (AddsTables names.old (logic_view logic.now) columns.old.items columns.new.items) }
    ensures names { OnOk result (names.new ≡ names.old) }
{
    match logic {
        Logic::Expression(_) => Ok(()),
        Logic::Table(table) => {
            let inputs = column_outcomes(alloc, table.inputs(), names)?;
            columns.push(inputs)?;
            Ok(())
        }
        Logic::List(logics) => {
            add_members(alloc, logics, names, columns, steps)?;
            Ok(())
        }
        Logic::Context(entries) => {
            let count = names.len();
            add_entries(alloc, entries, names, columns, steps)?;
            names.cut(count);
            Ok(())
        }
        Logic::ContextWith(entries, last) => {
            let count = names.len();
            add_entries(alloc, entries, names, columns, steps)?;
            add_tables(alloc, last, names, columns, steps)?;
            names.cut(count);
            Ok(())
        }
    }
}

#[cycle(columns)]
fn add_members(
    alloc: Global,
    logics: &[Logic],
    names: &mut Names,
    columns: &mut Vec<Vec<Outcomes>>,
    steps: &mut u64,
) -> Result<(), AllocError>
    ensures tables { OnOk result (AddsMembers names.old (members_view logics.now) columns.old.items columns.new.items) }
    ensures names { OnOk result (names.new ≡ names.old) }
{
    for logic in logics {
        add_tables(alloc, logic, names, columns, steps)?;
    }
    Ok(())
}

// Binds the entries behind the names.
#[cycle(columns)]
fn add_entries(
    alloc: Global,
    entries: &[(ArcStr, Logic)],
    names: &mut Names,
    columns: &mut Vec<Vec<Outcomes>>,
    steps: &mut u64,
) -> Result<(), AllocError>
    ensures tables { OnOk result (AddsEntries names.old (entries_view entries.now) columns.old.items columns.new.items names.new) }
    ensures names { OnOk result (take (length names.old) names.new ≡ names.old) }
{
    for (name, logic) in entries {
        add_tables(alloc, logic, names, columns, steps)?;
        let told = box_outcomes(alloc, logic, names, steps)?;
        names.bind(alloc, name.as_str(), told.range, None)?;
    }
    Ok(())
}

// What comes to the tables of an item's logic, from what was told of its needs.
fn item_columns(
    alloc: Global,
    items: &[Item],
    item: &Item,
    told: &[Outcomes],
    known: &[Option<&ParameterRange>],
    steps: &mut u64,
) -> Result<Vec<Vec<Outcomes>>, AllocError>
    requires { All (λ q. q < length items.now) item.now.needs.items }
    ensures { IfOk result (λ columns. TellsItemColumns items.now (told.now, views known.now) item.now columns.items) }
{
    let mut columns = Vec::new(alloc);
    let Some(logic) = &item.logic else {
        return Ok(columns);
    };
    let mut names = needed(alloc, items, &item.needs, told, known)?;
    add_tables(alloc, logic, &mut names, &mut columns, steps)?;
    Ok(columns)
}

// The same of each of these places.
fn columns_along(
    alloc: Global,
    items: &[Item],
    order: &[usize],
    told: &[Outcomes],
    known: &[Option<&ParameterRange>],
    steps: &mut u64,
) -> Result<Vec<ToldTables>, AllocError>
    requires order { All (λ q. q < length items.now) order.now }
    requires needs { All (λ x. All (λ q. q < length items.now) x.needs.items) items.now }
    ensures told { IfOk result (λ columns. TellsEachPlace items.now (told.now, views known.now) columns.items) }
    ensures places { IfOk result (λ columns. StandAt order.now columns.items) }
{
    let mut columns = Vec::with_capacity(alloc, order.len())?;
    for place in order {
        let place = *place;
        let tables = item_columns(alloc, items, &items[place], told, known, steps)?;
        columns.push(ToldTables { place, tables })?;
    }
    Ok(columns)
}
