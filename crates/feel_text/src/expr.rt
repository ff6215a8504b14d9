//! FEEL expressions.

use crate::constant::Constant;
use crate::reference::Reference;

/// An operator between two operands.
#[derive(Clone, Copy, Debug, PartialEq, Eq)]
pub enum Operator {
    Or,
    And,
    Equal,
    NotEqual,
    Less,
    LessEqual,
    Greater,
    GreaterEqual,
    Add,
    Subtract,
    Multiply,
}

/// A built-in function of one argument.
#[derive(Clone, Copy, Debug, PartialEq, Eq)]
pub enum Function {
    Abs,
    Sum,
    Min,
    Max,
    Count,
}

/// A FEEL expression. Parentheses are kept, since they count in its depth.
#[derive(Debug, Drop)]
pub enum Tree {
    /// A literal.
    Constant(Constant),
    /// A number past the range of values, which no text spells.
    Number(u64),
    Name(Reference),
    Group(Box<Tree>),
    List(Vec<Tree>),
    Call(Function, Box<Tree>),
    Modulo(Box<Tree>, Box<Tree>),
    Not(Box<Tree>),
    Negate(Box<Tree>),
    Path(Box<Tree>, String),
    Binary(Operator, Box<Tree>, Box<Tree>),
    Between(Box<Tree>, Box<Tree>, Box<Tree>),
    If(Box<Tree>, Box<Tree>, Box<Tree>),
}
