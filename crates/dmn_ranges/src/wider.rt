//! What either of two may have that are told of the columns of tables.
ghost use Rattle.std.specs.Prelude.{◌≡◌, ◌≤◌, IfOk, true};
ghost use Rattle.feel_value.specs.Datum.{Datum};
ghost use Rattle.dmn_ranges.specs.Columns.{AreWider, IsWider};
ghost use Rattle.dmn_ranges.specs.Ranges.{lies_in};

use crate::outcomes::{Outcomes, either_of};
use std::alloc::{AllocError, Global};

fn smaller(one: usize, other: usize) -> usize
    ensures one { result ≤ one }
    ensures other { result ≤ other }
{
    if one < other { one } else { other }
}

#[tactic(auto, using(crate::proofs::Forms::joined_one, crate::proofs::Forms::joined_other))]
fn either_column(one: Outcomes, other: Outcomes) -> Outcomes
    ensures one { (v : Datum) → lies_in one.range v ≡ true → lies_in result.range v ≡ true }
    ensures other { (v : Datum) → lies_in other.range v ≡ true → lies_in result.range v ≡ true }
{
    either_of(one, other)
}

// Of each column of both what either has.
fn either_columns(
    alloc: Global,
    one: &[Outcomes],
    other: &[Outcomes],
) -> Result<Vec<Outcomes>, AllocError>
    ensures one { IfOk result (λ columns. IsWider one.now columns.items) }
    ensures other { IfOk result (λ columns. IsWider other.now columns.items) }
{
    let count = smaller(one.len(), other.len());
    let mut columns = Vec::with_capacity(alloc, count)?;
    for place in 0..count {
        columns.push(either_column(one[place], other[place]))?;
    }
    Ok(columns)
}

/// Of each table of both what either has in its columns.
pub fn either_tables(
    alloc: Global,
    one: &[Vec<Outcomes>],
    other: &[Vec<Outcomes>],
) -> Result<Vec<Vec<Outcomes>>, AllocError>
    ensures one { IfOk result (λ tables. AreWider one.now tables.items) }
    ensures other { IfOk result (λ tables. AreWider other.now tables.items) }
{
    let count = smaller(one.len(), other.len());
    let mut tables = Vec::with_capacity(alloc, count)?;
    for place in 0..count {
        let columns = either_columns(alloc, &one[place], &other[place])?;
        tables.push(columns)?;
    }
    Ok(tables)
}
