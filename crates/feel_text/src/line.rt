//! The lines of the grammar.

ghost use Rattle.std.specs.Prelude.{◌≡◌};
ghost use Rattle.feel_text.specs.Grammar.{tighter};

/// A line of the grammar of expressions, loosest first.
#[derive(Clone, Copy, Debug, PartialEq, Eq)]
pub(crate) enum Line {
    Whole,
    Disjunction,
    Conjunction,
    Comparison,
    Sum,
    Product,
    Negation,
    Path,
    Primary,
}

impl Line {
    /// The next tighter line.
    pub(crate) fn tighter(self) -> Line
        ensures { result ≡ tighter self }
    {
        match self {
            Line::Whole => Line::Disjunction,
            Line::Disjunction => Line::Conjunction,
            Line::Conjunction => Line::Comparison,
            Line::Comparison => Line::Sum,
            Line::Sum => Line::Product,
            Line::Product => Line::Negation,
            Line::Negation => Line::Path,
            Line::Path | Line::Primary => Line::Primary,
        }
    }
}
