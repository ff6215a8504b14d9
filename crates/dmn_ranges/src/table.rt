//! What a decision table can give.
ghost use Rattle.std.specs.Prelude.{◌≡◌, IfOk, length, map, nat_eq, true};
ghost use Rattle.feel_value.specs.Distinct.{are_distinct};
ghost use Rattle.dmn_table.specs.Parts.{column_view, names_of, rule_view};
ghost use Rattle.feel_text.specs.Meaning.{Bindings};
ghost use Rattle.dmn_table.specs.Result.{table_result};
ghost use Rattle.dmn_ranges.specs.Ranges.{Fits, covers, scope};
ghost use Rattle.dmn_ranges.specs.Tables.{column_outcomes as column_outcomes_of, some_limit as some_limit_of, tally_rules as tally_rules_of, default_outcomes as default_outcomes_of, with_tally as with_tally_of, shape_of as shape_of_columns};

use crate::analysed::narrowed;
use crate::expression::expr_outcomes;
use crate::names::Names;
use crate::outcomes::{Outcomes, either_of, when};
use crate::range::{NamedRange, either};
use crate::rule::{Shape, defaults};
use crate::tally::{Tally, by_policy, tally_rules};
use dmn_names::have_twice;
use dmn_table::{Output, Rule, Table};
use feel_lang::Expr;
use std::alloc::{AllocError, Global};

/// What a decision table can give, where each name stands for a value of its range.
///
/// Whatever values of their ranges the names have, its result lies in the range that is answered; and where a limit is broken, the
/// answer says that it can be. Each rule is looked at once, and then the rules together, which takes at most so many steps: where they
/// don't suffice, it is told as if none could hit, or several. It takes memory for what the input of each column can be.
pub fn range_of_table(
    alloc: Global,
    table: &Table,
    names: &[NamedRange],
    steps: u64,
) -> Result<Outcomes, AllocError>
    ensures { IfOk result (λ o. (m : Bindings) → Fits (scope names.now) m → covers o (table_result table.now m) ≡ true) }
{
    let names = Names::listed(alloc, names)?;
    let mut rest = steps;
    let told = table_outcomes(alloc, table, &names, &mut rest)?;
    Ok(told)
}

// What the input of each column can be.
pub(crate) fn column_outcomes(
    alloc: Global,
    inputs: &[Expr],
    names: &Names,
) -> Result<Vec<Outcomes>, AllocError>
    ensures { IfOk result (λ columns. columns.items ≡ column_outcomes_of names.now inputs.now) }
{
    let mut columns = Vec::with_capacity(alloc, inputs.len())?;
    for input in inputs {
        columns.push(expr_outcomes(input, names))?;
    }
    Ok(columns)
}

fn some_limit(columns: &[Outcomes]) -> bool
    ensures { result ≡ some_limit_of columns.now }
{
    columns.iter().any(|column| column.limit)
}

#[tactic(auto, using(crate::proofs::Walks::same_length))]
fn rule_count(rules: &[Rule]) -> usize
    ensures { result ≡ length (map rule_view rules.now) }
{
    rules.len()
}

#[tactic(auto, using(crate::proofs::Walks::same_length))]
fn output_count(outputs: &[Output]) -> usize
    ensures { result ≡ length (map column_view outputs.now) }
{
    outputs.len()
}

// The names of the columns.
fn column_names(alloc: Global, outputs: &[Output]) -> Result<Vec<&str>, AllocError>
    ensures { IfOk result (λ v. map (λ n. n.now) v.items ≡ names_of outputs.now) }
{
    let mut names = Vec::with_capacity(alloc, outputs.len())?;
    for output in outputs {
        names.push(output.name.as_str())?;
    }
    Ok(names)
}

fn names_are_distinct(alloc: Global, outputs: &[Output]) -> Result<bool, AllocError>
    ensures { IfOk result (λ b. b ≡ are_distinct (names_of outputs.now)) }
{
    let names = column_names(alloc, outputs)?;
    let is_twice = have_twice(alloc, &names)?;
    Ok(!is_twice)
}

fn has_one_output(outputs: &[Output]) -> bool
    ensures { result ≡ nat_eq (length (map column_view outputs.now)) 1 }
{
    output_count(outputs) == 1
}

// The output columns.
fn shape_of(alloc: Global, outputs: &[Output]) -> Result<Shape, AllocError>
    ensures { IfOk result (λ s. s ≡ shape_of_columns (map column_view outputs.now)) }
{
    let distinct = names_are_distinct(alloc, outputs)?;
    Ok(Shape {
        single: has_one_output(outputs),
        distinct,
    })
}

// What the rules can give together, from what the input of each column can be.
fn tally_of(table: &Table, shape: Shape, columns: &[Outcomes], names: &Names) -> Tally
    ensures { result ≡ tally_rules_of shape columns.now names.now table.now.rules }
{
    tally_rules(table.rules(), shape, columns, names)
}

// What the table gives where no rule hits.
fn missed(table: &Table, distinct: bool, names: &Names) -> Outcomes
    ensures { result ≡ default_outcomes_of distinct names.now table.now.outputs }
{
    defaults(distinct, table.outputs(), names)
}

fn table_shape(alloc: Global, table: &Table) -> Result<Shape, AllocError>
    ensures { IfOk result (λ s. s ≡ shape_of_columns table.now.outputs) }
{
    let shape = shape_of(alloc, table.outputs())?;
    Ok(shape)
}

// The result, where the inputs break a limit if this is said, and from what the rules can give together.
fn with_tally(table: &Table, names: &Names, limit: bool, shape: Shape, tally: Tally) -> Outcomes
    requires { shape ≡ shape_of_columns table.now.outputs }
    ensures { result ≡ with_tally_of table.now names.now limit tally }
{
    let hit = by_policy(table.policy(), tally, rule_count(table.rules()));
    let missed = missed(table, shape.distinct, names);
    either_of(
        when(tally.may_be_some, hit),
        when(tally.may_be_none, missed),
    )
    .limited(either(limit, tally.limit))
}

/// The same. Of the steps the analysis of the table takes those that it needs.
pub(crate) fn table_outcomes(
    alloc: Global,
    table: &Table,
    names: &Names,
    steps: &mut u64,
) -> Result<Outcomes, AllocError>
    ensures { IfOk result (λ o. (m : Bindings) → Fits names.now m → covers o (table_result table.now m) ≡ true) }
{
    let columns = column_outcomes(alloc, table.inputs(), names)?;
    let shape = table_shape(alloc, table)?;
    let tally = tally_of(table, shape, &columns, names);
    let tally = narrowed(alloc, table, &columns, tally, steps)?;
    Ok(with_tally(table, names, some_limit(&columns), shape, tally))
}
