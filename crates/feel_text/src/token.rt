//! The tokens of a FEEL text.

use crate::reference::Reference;

/// A keyword. None of them is a name.
#[derive(Clone, Copy, Debug, PartialEq, Eq)]
pub(crate) enum Word {
    If,
    Then,
    Else,
    And,
    Or,
    Not,
    Between,
    Null,
    True,
    False,
}

/// A sign.
#[derive(Clone, Copy, Debug, PartialEq, Eq)]
pub(crate) enum Sign {
    Plus,
    Minus,
    Star,
    Equal,
    NotEqual,
    Less,
    LessEqual,
    Greater,
    GreaterEqual,
    OpenParen,
    CloseParen,
    OpenBracket,
    CloseBracket,
    Comma,
    Dot,
    DotDot,
}

/// A token.
#[derive(Debug, Drop)]
pub(crate) enum Token {
    /// A run of digits.
    Number(u64),
    /// What a string stands for, its escapes resolved.
    Text(String),
    /// A word that is no keyword, of at most 64 bytes.
    Name(Reference),
    Keyword(Word),
    Symbol(Sign),
}
