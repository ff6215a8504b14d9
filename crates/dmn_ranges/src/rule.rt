//! Whether a rule can hit, and what its output entries can give.
ghost use Rattle.std.specs.Prelude.{◌≡◌, map};
ghost use Rattle.std.specs.List.{zip, list_any};
ghost use Rattle.dmn_table.specs.Parts.{column_view};
ghost use Rattle.dmn_ranges.specs.Tables.{surely as surely_of, with_expr as with_expr_of, expr_parts as expr_parts_of, with_fallback as with_fallback_of, fallback_parts as fallback_parts_of, fallbacks as fallbacks_of, with_entry as with_entry_of, ask_entry as ask_entry_of, rule_hits as rule_hits_of, some_context as a_context, only as only_of, rule_gives as rule_gives_of, fallback_outcomes as fallback_of, default_outcomes as default_outcomes_of};

use crate::entries::{Answers, entry_answers};
use crate::expression::expr_outcomes;
use crate::names::Names;
use crate::outcomes::Outcomes;
use crate::parts::Parts;
use crate::range::{Range, both, either};
use crate::size::Size;
use dmn_table::{Output, has_no_default};
use feel_lang::{Expr, Tests};

/// Output columns: whether there is a single one, and whether their names are distinct.
#[derive(Clone, Copy)]
pub(crate) struct Shape {
    pub(crate) single: bool,
    pub(crate) distinct: bool,
}

/// What can become of a rule: that it hits, that it misses, that an input entry breaks a limit.
#[derive(Clone, Copy)]
pub(crate) struct Hits {
    pub(crate) hit: bool,
    pub(crate) miss: bool,
    pub(crate) limit: bool,
}

impl Hits {
    // Of a rule with no entry.
    fn surely() -> Hits
        ensures { result ≡ surely_of }
    {
        Hits {
            hit: true,
            miss: false,
            limit: false,
        }
    }

    // With one entry more, of which this can be answered.
    fn with_entry(self, entry: Answers) -> Hits
        ensures { result ≡ with_entry_of self entry }
    {
        Hits {
            hit: both(self.hit, entry.truth.yes),
            miss: either(self.miss, either(entry.truth.no, entry.truth.unknown)),
            limit: either(self.limit, entry.limit),
        }
    }
}

// With one entry more, asked of what the input of its column can be.
fn ask_entry(hits: Hits, entry: &Tests, column: &Outcomes, names: &Names) -> Hits
    ensures { result ≡ ask_entry_of names.now hits (entry.now, column.now) }
{
    hits.with_entry(entry_answers(entry, column.range, names))
}

/// What can become of a rule with these input entries, from what the input of each column can be.
pub(crate) fn rule_hits(entries: &[Tests], columns: &[Outcomes], names: &Names) -> Hits
    ensures { result ≡ rule_hits_of names.now (zip entries.now columns.now) }
{
    let mut hits = Hits::surely();
    for (entry, column) in entries.iter().zip(columns) {
        hits = ask_entry(hits, entry, column, names);
    }
    hits
}

/// A context, of whose size nothing is known.
pub(crate) fn some_context() -> Outcomes
    ensures { result ≡ a_context }
{
    Outcomes {
        range: Range::contexts_of(Size::any()),
        limit: true,
    }
}

// What the only expression gives.
fn only(exprs: &[Expr], names: &Names) -> Outcomes
    ensures { result ≡ only_of names.now exprs.now }
{
    let Some((first, others)) = exprs.split_first() else {
        return some_context();
    };
    match others.split_first() {
        Some(_) => some_context(),
        None => expr_outcomes(first, names),
    }
}

// The parts, and the value of one expression more.
fn with_expr(parts: Parts, expr: &Expr, names: &Names) -> Parts
    ensures { result ≡ with_expr_of names.now parts expr.now }
{
    parts.with(expr_outcomes(expr, names))
}

// The values of the expressions as parts.
fn expr_parts(exprs: &[Expr], names: &Names) -> Parts
    ensures { result ≡ expr_parts_of names.now exprs.now }
{
    let mut parts = Parts::none();
    for expr in exprs {
        parts = with_expr(parts, expr, names);
    }
    parts
}

/// What the output entries of a rule give under such output columns.
pub(crate) fn rule_gives(shape: Shape, gives: &[Expr], names: &Names) -> Outcomes
    ensures { result ≡ rule_gives_of shape names.now gives.now }
{
    if shape.single {
        only(gives, names)
    } else {
        expr_parts(gives, names).context(shape.distinct)
    }
}

// What the default of a column gives, which is null where it has none.
fn fallback(column: &Output, names: &Names) -> Outcomes
    ensures { result ≡ fallback_of names.now (column_view column.now).fallback }
{
    match &column.fallback {
        Some(expr) => expr_outcomes(expr, names),
        None => Outcomes::given(Range::null()),
    }
}

// The parts, and the default of one column more.
fn with_fallback(parts: Parts, column: &Output, names: &Names) -> Parts
    ensures { result ≡ with_fallback_of names.now parts (column_view column.now) }
{
    parts.with(fallback(column, names))
}

// The defaults of the columns as parts.
fn fallback_parts(columns: &[Output], names: &Names) -> Parts
    ensures { result ≡ fallback_parts_of names.now (map column_view columns.now) }
{
    let mut parts = Parts::none();
    for column in columns {
        parts = with_fallback(parts, column, names);
    }
    parts
}

// What the defaults of the columns give as one value, under names that are distinct where this is said.
fn fallbacks(distinct: bool, columns: &[Output], names: &Names) -> Outcomes
    ensures { result ≡ fallbacks_of distinct names.now (map column_view columns.now) }
{
    let Some((first, others)) = columns.split_first() else {
        return some_context();
    };
    match others.split_first() {
        Some(_) => fallback_parts(columns, names).context(distinct),
        None => fallback(first, names),
    }
}

/// What the defaults of these columns give, under names that are distinct where this is said.
pub(crate) fn defaults(distinct: bool, columns: &[Output], names: &Names) -> Outcomes
    ensures { result ≡ default_outcomes_of distinct names.now (map column_view columns.now) }
{
    if has_no_default(columns) {
        Outcomes::given(Range::null())
    } else {
        fallbacks(distinct, columns, names)
    }
}
