//! Boxed expressions.
use dmn_table::Table;
use feel_lang::Expr;
use std::sync::ArcStr;

/// A boxed expression: what a decision, a member of a list or an entry of a context is worked out by.
#[derive(Drop)]
pub enum Logic {
    /// A FEEL expression.
    Expression(Expr),
    /// A decision table.
    Table(Table),
    /// A list, member by member.
    List(Vec<Logic>),
    /// A context of named entries.
    Context(Vec<(ArcStr, Logic)>),
    /// A context of named entries with a result, which is its value.
    ContextWith(Vec<(ArcStr, Logic)>, Box<Logic>),
}
