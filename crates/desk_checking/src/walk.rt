//! The decision tables of a model, each with its place.
ghost use Rattle.std.specs.Prelude.{◌≡◌, ◌++◌, ◌∷◌, [], IfOk, OnOk, map};
ghost use Rattle.dmn_logic.specs.LogicView.{entries_view, logic_view, members_view};
ghost use Rattle.dmn_check.specs.declared.place.Key.TheVariants.{Context as ContextKey};
ghost use Rattle.dmn_check.specs.declared.place.Step.TheVariants.{Key as KeyStep};
ghost use Rattle.desk_checking.specs.Tables.{behind, entry_tables, logic_tables, member_tables, tables_in};
ghost use Rattle.desk_checking.specs.TablesView.{placed_view, placed_views};
ghost use Rattle.desk_checking.specs.ComesView.{logic_numbers, number_views, numbers_from};

use dmn_check::{Key, Place, Step};
use dmn_logic::Logic;
use dmn_table::Table;
use std::alloc::{AllocError, Global};
use std::sync::ArcStr;

/// A table of a model, with its place.
#[derive(Drop)]
pub(crate) struct PlacedTable<'a> {
    pub(crate) place: Place,
    pub(crate) table: &'a Table,
}

/// Which table of which decision, both counted from 0.
#[derive(Clone, Copy)]
pub(crate) struct TableNumber {
    pub(crate) decision: usize,
    pub(crate) number: usize,
}

/// The tables of decisions, in their order.
#[derive(Drop)]
pub(crate) struct Tables<'a> {
    pub(crate) placed: Vec<PlacedTable<'a>>,
    /// Of each which one it is.
    pub(crate) numbers: Vec<TableNumber>,
}

/// The steps to a place, and one behind it.
fn behind(alloc: Global, place: &[Step], step: Step) -> Result<Vec<Step>, AllocError>
    ensures { IfOk result (λ steps. steps.items ≡ behind place.now step) }
{
    let mut steps = Vec::from_slice(alloc, place)?;
    steps.push(step)?;
    Ok(steps)
}

/// Adds the table under the key `table` of a place.
fn add_table<'a>(
    alloc: Global,
    place: &[Step],
    table: &'a Table,
    tables: &mut Vec<PlacedTable<'a>>,
) -> Result<(), AllocError>
    ensures { OnOk result (placed_views tables.new.items ≡ placed_views tables.old.items ++ record { place = behind place.now (KeyStep Key.Table); table = table.now } ∷ []) }
{
    let steps = behind(alloc, place, Step::Key(Key::Table))?;
    tables.push(PlacedTable {
        place: Place { steps },
        table,
    })?;
    Ok(())
}

/// Adds the tables of a boxed expression. It goes as deep as that is.
#[cycle(walk)]
fn add_tables<'a>(
    alloc: Global,
    place: &[Step],
    logic: &'a Logic,
    tables: &mut Vec<PlacedTable<'a>>,
) -> Result<(), AllocError>
    ensures { OnOk result (placed_views tables.new.items ≡ placed_views tables.old.items ++ tables_in place.now (logic_view logic.now)) }
{
    match logic {
        Logic::Expression(_) => Ok(()),
        Logic::Table(table) => {
            add_table(alloc, place, table, tables)?;
            Ok(())
        }
        Logic::List(members) => {
            let inner = behind(alloc, place, Step::Key(Key::List))?;
            add_members(alloc, &inner, members, tables)?;
            Ok(())
        }
        Logic::Context(entries) => {
            add_context(alloc, place, entries, tables)?;
            Ok(())
        }
        Logic::ContextWith(entries, last) => {
            add_context(alloc, place, entries, tables)?;
            let inner = behind(alloc, place, Step::Key(Key::Result))?;
            add_tables(alloc, &inner, last, tables)?;
            Ok(())
        }
    }
}

#[cycle(walk)]
fn add_members<'a>(
    alloc: Global,
    place: &[Step],
    members: &'a [Logic],
    tables: &mut Vec<PlacedTable<'a>>,
) -> Result<(), AllocError>
    ensures { OnOk result (placed_views tables.new.items ≡ placed_views tables.old.items ++ member_tables place.now 0 (members_view members.now)) }
{
    for (index, member) in members.iter().enumerate() {
        let inner = behind(alloc, place, Step::Index(index))?;
        add_tables(alloc, &inner, member, tables)?;
    }
    Ok(())
}

#[cycle(walk)]
fn add_context<'a>(
    alloc: Global,
    place: &[Step],
    entries: &'a [(ArcStr, Logic)],
    tables: &mut Vec<PlacedTable<'a>>,
) -> Result<(), AllocError>
    ensures { OnOk result (placed_views tables.new.items ≡ placed_views tables.old.items ++ entry_tables (behind place.now (KeyStep ContextKey)) 0 (entries_view entries.now)) }
{
    let inner = behind(alloc, place, Step::Key(Key::Context))?;
    add_entries(alloc, &inner, entries, tables)?;
    Ok(())
}

#[cycle(walk)]
fn add_entries<'a>(
    alloc: Global,
    place: &[Step],
    entries: &'a [(ArcStr, Logic)],
    tables: &mut Vec<PlacedTable<'a>>,
) -> Result<(), AllocError>
    ensures { OnOk result (placed_views tables.new.items ≡ placed_views tables.old.items ++ entry_tables place.now 0 (entries_view entries.now)) }
{
    for (index, (_, logic)) in entries.iter().enumerate() {
        let element = behind(alloc, place, Step::Index(index))?;
        let inner = behind(alloc, &element, Step::Key(Key::Expr))?;
        add_tables(alloc, &inner, logic, tables)?;
    }
    Ok(())
}

/// The place of the logic of a decision, counted from 0.
fn place_of(alloc: Global, index: usize) -> Result<Vec<Step>, AllocError>
    ensures { IfOk result (λ steps. steps.items ≡ Step.Key Key.Decisions ∷ Step.Index index ∷ Step.Key Key.Expr ∷ []) }
{
    let mut steps = Vec::new(alloc);
    steps.push(Step::Key(Key::Decisions))?;
    steps.push(Step::Index(index))?;
    steps.push(Step::Key(Key::Expr))?;
    Ok(steps)
}

/// Adds the numbers of so many tables of a decision.
fn add_numbers(
    decision: usize,
    count: usize,
    numbers: &mut Vec<TableNumber>,
) -> Result<(), AllocError>
    ensures { OnOk result (number_views numbers.new.items ≡ number_views numbers.old.items ++ numbers_from decision 0 count) }
{
    for number in 0..count {
        numbers.push(TableNumber { decision, number })?;
    }
    Ok(())
}

/// The tables of decisions that have this logic, in their order.
pub(crate) fn tables_of<'a>(alloc: Global, logics: &[&'a Logic]) -> Result<Tables<'a>, AllocError>
    ensures placed { IfOk result (λ tables. placed_views tables.placed.items ≡ logic_tables 0 (map (λ l. logic_view l.now) logics.now)) }
    ensures numbers { IfOk result (λ tables. number_views tables.numbers.items ≡ logic_numbers 0 (map (λ l. logic_view l.now) logics.now)) }
{
    let mut tables = Vec::new(alloc);
    let mut numbers = Vec::new(alloc);
    for (index, logic) in logics.iter().enumerate() {
        let place = place_of(alloc, index)?;
        let before = tables.len();
        add_tables(alloc, &place, *logic, &mut tables)?;
        let added = tables.len().saturating_sub(before);
        add_numbers(index, added, &mut numbers)?;
    }
    Ok(Tables {
        placed: tables,
        numbers,
    })
}
