//! The decision tables of a model, one after another, with what is found of each.
ghost use Rattle.std.specs.Prelude.{◌≡◌, ◌<◌, ◌++◌, [], IfOk, OnOk, false, length, map};
ghost use Rattle.std.specs.List.{flat_map};
ghost use Rattle.desk_lines.specs.Lines.{ended};
ghost use Rattle.dmn_logic.specs.LogicView.{logic_view};
ghost use Rattle.desk_checking.specs.ComesView.{IsFrom, number_view, number_views};
ghost use Rattle.desk_checking.specs.Looking.{IsTold, IsTurn, untold_lines};
ghost use Rattle.desk_checking.specs.Tables.{logic_tables};
ghost use Rattle.desk_checking.specs.TablesTold.{TellsTables};
ghost use Rattle.desk_checking.specs.TablesView.{placed_view, placed_views};

use crate::answers::Answers;
use crate::decision_inputs::{DecisionInputs, asked_of_table};
use crate::table_lines::add_table;
use crate::undecided::Undecided;
use crate::walk::{PlacedTable, TableNumber, tables_of};
use dmn_logic::Logic;
use json_writer::add_number;
use std::alloc::{AllocError, Global};

/// Once so much is told of tables, 16 MiB, the others are told by their number.
const MOST_TOLD: usize = 16_777_216;

/// What is told of tables, one after another.
#[derive(Drop)]
pub(crate) struct Telling {
    /// What was told.
    pub(crate) text: Vec<u8>,
    /// How many tables were not told.
    pub(crate) untold: usize,
    /// Whether `strict` refuses a table.
    pub(crate) is_refused: bool,
}

/// Adds the line of so many tables that were not told.
#[tactic(auto, using(crate::proofs::Lookings::untold_pieces))]
fn add_untold(untold: usize, text: &mut Vec<u8>) -> Result<(), AllocError>
    requires { 0 < untold }
    ensures { OnOk result (text.new.items ≡ text.old.items ++ flat_map ended (untold_lines untold)) }
{
    text.extend_from_slice(b"{\"table\":null,\"more\":")?;
    add_number(untold as u64, text)?;
    text.extend_from_slice(b"}\n")?;
    Ok(())
}

impl Telling {
    /// Looks at a table.
    fn look_at(
        &mut self,
        alloc: Global,
        inputs: &Option<DecisionInputs>,
        placed: &PlacedTable,
        which: TableNumber,
    ) -> Result<(), AllocError>
        requires { self.old.untold < 18446744073709551615 }
        ensures { OnOk result (IsTurn inputs.now (placed_view placed.now) (number_view which) self.old self.new) }
    {
        let comes = asked_of_table(alloc, inputs, placed.table, which.decision, which.number)?;
        let answers = Answers::of(alloc, placed.table, comes)?;
        let undecided = Undecided::of(alloc, &answers)?;
        let is_refused = answers.are_refused(placed.table);
        self.is_refused |= is_refused;
        if self.text.len() > MOST_TOLD {
            self.untold += 1;
            return Ok(());
        }
        let pointer = placed.place.pointer(alloc)?;
        let steps = answers.steps();
        add_table(
            alloc,
            pointer.as_str(),
            &answers,
            steps,
            &undecided,
            &mut self.text,
        )?;
        Ok(())
    }

    /// Tells how many tables were not told.
    fn tell_untold(&mut self) -> Result<(), AllocError>
        ensures text { OnOk result (self.new.text.items ≡ self.old.text.items ++ flat_map ended (untold_lines self.old.untold)) }
        ensures refused { OnOk result (self.new.is_refused ≡ self.old.is_refused) }
    {
        if self.untold == 0 {
            return Ok(());
        }
        add_untold(self.untold, &mut self.text)?;
        Ok(())
    }
}

/// What is told of tables, and whether `strict` refuses one of them.
#[derive(Drop)]
pub(crate) struct ToldTables {
    pub(crate) text: Vec<u8>,
    pub(crate) are_refused: bool,
}

impl ToldTables {
    /// Nothing.
    pub(crate) fn none(alloc: Global) -> ToldTables
        ensures text { result.text.items ≡ [] }
        ensures refused { result.are_refused ≡ false }
    {
        ToldTables {
            text: Vec::new(alloc),
            are_refused: false,
        }
    }
}

/// What is told of these tables, of which each is this one.
fn told_of(
    alloc: Global,
    inputs: &Option<DecisionInputs>,
    tables: &[PlacedTable],
    numbers: &[TableNumber],
) -> Result<Telling, AllocError>
    requires { length numbers.now ≡ length tables.now }
    ensures { IfOk result (IsTold inputs.now (placed_views tables.now) (number_views numbers.now)) }
{
    let mut telling = Telling {
        text: Vec::new(alloc),
        untold: 0,
        is_refused: false,
    };
    for place in 0..tables.len() {
        telling.look_at(alloc, inputs, &tables[place], numbers[place])?;
    }
    Ok(telling)
}

/// What is found of the decision tables of decisions that have this logic, in their order, where this comes to them.
pub(crate) fn told_tables(
    alloc: Global,
    inputs: &Option<DecisionInputs>,
    logics: &[&Logic],
) -> Result<ToldTables, AllocError>
    ensures { IfOk result (λ told. TellsTables (IsFrom inputs.now (map (λ l. logic_view l.now) logics.now)) (logic_tables 0 (map (λ l. logic_view l.now) logics.now)) told.text.items told.are_refused) }
{
    let tables = tables_of(alloc, logics)?;
    let mut telling = told_of(alloc, inputs, &tables.placed, &tables.numbers)?;
    telling.tell_untold()?;
    Ok(ToldTables {
        text: telling.text,
        are_refused: telling.is_refused,
    })
}
