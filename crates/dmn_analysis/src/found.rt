//! What is told of a table.
use crate::cell::{Cell, Words};
use feel_value::Feel;

/// Values for which no rule hits.
#[derive(Drop)]
pub struct Gap {
    /// Of each column some values: for none of them does a rule hit.
    pub cells: Vec<Cell>,
    /// Some of them, one a column.
    pub values: Vec<Feel>,
}

/// The gaps of a table among the values that are asked about.
#[derive(Drop)]
pub struct Gaps {
    /// The texts of each column by which its values are told: those that it is asked about, where these are a few, and otherwise those
    /// that stand in its tests.
    pub words: Vec<Words>,
    /// Gaps, as many as are wanted.
    pub found: Vec<Gap>,
    /// How many others were found.
    pub more: usize,
    /// Whether each value for which no rule hits is in some gap that was found.
    pub is_all: bool,
    /// Rules, counted from 0, of which it isn't known where they hit, or with tests that break a limit. Where there are none, and these
    /// aren't all, the steps ran out.
    pub open: Vec<usize>,
    /// How many steps were taken.
    pub steps: u64,
}

/// Two rules, counted from 0, and values for which both hit.
#[derive(Drop)]
pub struct Overlap {
    pub first: usize,
    pub second: usize,
    /// Of each column some values for which both hit.
    pub cells: Vec<Cell>,
    /// Some of them, one a column.
    pub values: Vec<Feel>,
}

/// The pairs of rules that hit for the same values.
#[derive(Drop)]
pub struct Overlaps {
    /// The texts of each column by which its values are told: those that it is asked about, where these are a few, and otherwise those
    /// that stand in its tests.
    pub words: Vec<Words>,
    /// Pairs, as many as are wanted.
    pub found: Vec<Overlap>,
    /// How many others were found.
    pub more: usize,
    /// Whether there are no others.
    pub is_all: bool,
    /// Rules, counted from 0, of which it isn't known where they hit. Where there are none, and these aren't all, the steps ran out.
    pub open: Vec<usize>,
    /// How many steps were taken.
    pub steps: u64,
}

/// A rule, counted from 0, and those that go before it of which one hits wherever it does.
#[derive(Drop)]
pub struct Mask {
    pub rule: usize,
    /// Those of them that were found to.
    pub behind: Vec<usize>,
}

/// The rules that never decide, since others go before them.
#[derive(Drop)]
pub struct Masks {
    pub found: Vec<Mask>,
    /// Whether there are no others.
    pub is_all: bool,
    /// Rules, counted from 0, of which it isn't known which go before them: names decide what they give.
    pub unranked: Vec<usize>,
    /// How many steps were taken.
    pub steps: u64,
}
