//! What the rules of a table can give together.
ghost use Rattle.std.specs.Prelude.{◌≡◌, map, option_map};
ghost use Rattle.dmn_table.specs.Parts.{rule_view};
ghost use Rattle.dmn_ranges.specs.Asking.{without as without_of};
ghost use Rattle.dmn_ranges.specs.Tables.{or_zero as or_zero_of, zero_alone as zero_of, share as share_of, unless_past as unless_past_of, plus as plus_of, joined_if as joined_if_of, blank as blank_of, tally_with as tally_with_of, tally_rule as tally_rule_of, tally_rules as tally_rules_of, null_if as null_if_of, any_sum as any_sum_of, within_bounds as within_bounds_of, summed as summed_of, by_policy as by_policy_of};

use crate::bounded::{Bounded, between_bounds, counted_to, sum};
use crate::interval::{Interval, higher, lower};
use crate::names::Names;
use crate::outcomes::{Outcomes, numbers_given};
use crate::parts::listed;
use crate::range::{Range, both, either, joined};
use crate::rule::{Hits, Shape, rule_gives, rule_hits};
use dmn_table::{HitPolicy, Rule};

/// What the rules that were looked at can give: the outputs of those that hit, the output of the first, the sum of all, unless that
/// can be past the range of numbers; whether none, some or several can hit; and whether a limit can be broken.
#[derive(Clone, Copy)]
pub(crate) struct Tally {
    pub(crate) outputs: Range,
    pub(crate) first: Range,
    pub(crate) total: Option<Interval>,
    pub(crate) may_be_none: bool,
    pub(crate) may_be_some: bool,
    pub(crate) may_be_several: bool,
    pub(crate) limit: bool,
}

fn zero_alone() -> Interval
    ensures { result ≡ zero_of }
{
    Interval { low: 0, high: 0 }
}

// A number of the interval, or 0.
fn or_zero(x: Interval) -> Interval
    ensures { result ≡ or_zero_of x }
{
    Interval {
        low: lower(x.low, 0),
        high: higher(x.high, 0),
    }
}

// What a rule can add to a sum.
fn share(hits: Hits, numbers: Option<Interval>) -> Interval
    ensures { result ≡ share_of hits numbers }
{
    let Some(numbers) = numbers else {
        return zero_alone();
    };
    if !hits.hit {
        return zero_alone();
    }
    if hits.miss { or_zero(numbers) } else { numbers }
}

// The numbers, unless one can be past the range.
fn unless_past(bounded: Bounded) -> Option<Interval>
    ensures { result ≡ unless_past_of bounded }
{
    if bounded.limit {
        None
    } else {
        Some(bounded.numbers)
    }
}

fn plus(total: Option<Interval>, share: Interval) -> Option<Interval>
    ensures { result ≡ plus_of total share }
{
    match total {
        Some(total) => unless_past(sum(total, share)),
        None => None,
    }
}

// The values of both where this is said, and otherwise of the first.
fn joined_if(is_joined: bool, a: Range, b: Range) -> Range
    ensures { result ≡ joined_if_of is_joined a b }
{
    if is_joined { joined(a, b) } else { a }
}

impl Tally {
    // Of no rule.
    fn blank() -> Tally
        ensures { result ≡ blank_of }
    {
        Tally {
            outputs: Range::nothing(),
            first: Range::nothing(),
            total: Some(zero_alone()),
            may_be_none: true,
            may_be_some: false,
            may_be_several: false,
            limit: false,
        }
    }

    /// The same, but that no rule hits, and that several do, only where this is said.
    pub(crate) fn without(self, none: bool, several: bool) -> Tally
        ensures { result ≡ without_of self none several }
    {
        Tally {
            may_be_none: both(self.may_be_none, none),
            may_be_several: both(self.may_be_several, several),
            ..self
        }
    }

    // With one rule more, of which this can become, and which gives this where it hits.
    fn with_rule(self, hits: Hits, output: Outcomes) -> Tally
        ensures { result ≡ tally_with_of self hits output }
    {
        Tally {
            outputs: joined_if(hits.hit, self.outputs, output.range),
            first: joined_if(both(hits.hit, self.may_be_none), self.first, output.range),
            total: plus(self.total, share(hits, output.range.numbers)),
            may_be_none: both(self.may_be_none, hits.miss),
            may_be_some: either(self.may_be_some, hits.hit),
            may_be_several: either(self.may_be_several, both(self.may_be_some, hits.hit)),
            limit: either(self.limit, either(hits.limit, both(hits.hit, output.limit))),
        }
    }
}

// With one rule more.
fn tally_rule(tally: Tally, rule: &Rule, shape: Shape, columns: &[Outcomes], names: &Names) -> Tally
    ensures { result ≡ tally_rule_of shape columns.now names.now tally (rule_view rule.now) }
{
    let hits = rule_hits(&rule.tests, columns, names);
    let output = rule_gives(shape, &rule.gives, names);
    tally.with_rule(hits, output)
}

/// What these rules can give, under such output columns, from what the input of each column can be.
pub(crate) fn tally_rules(
    rules: &[Rule],
    shape: Shape,
    columns: &[Outcomes],
    names: &Names,
) -> Tally
    ensures { result ≡ tally_rules_of shape columns.now names.now (map rule_view rules.now) }
{
    let mut tally = Tally::blank();
    for rule in rules {
        tally = tally_rule(tally, rule, shape, columns, names);
    }
    tally
}

// With null, where this is said.
fn null_if(is_null: bool, range: Range) -> Range
    ensures { result ≡ null_if_of is_null range }
{
    if is_null {
        joined(range, Range::null())
    } else {
        range
    }
}

// A sum of which nothing is known.
fn any_sum() -> Bounded
    ensures { result ≡ any_sum_of }
{
    Bounded {
        numbers: Interval {
            low: -i64::MAX,
            high: i64::MAX,
        },
        limit: true,
    }
}

fn within_bounds(numbers: Interval) -> Bounded
    ensures { result ≡ within_bounds_of numbers }
{
    between_bounds(numbers)
}

fn summed(numbers: Option<Interval>, total: Option<Interval>) -> Option<Bounded>
    ensures { result ≡ summed_of numbers total }
{
    match (numbers, total) {
        (None, _) => None,
        (Some(_), None) => Some(any_sum()),
        (Some(_), Some(total)) => Some(within_bounds(total)),
    }
}

// The numbers among the outputs.
fn extremes(numbers: Option<Interval>) -> Option<Bounded>
    ensures { result ≡ option_map within_bounds_of numbers }
{
    match numbers {
        Some(numbers) => Some(within_bounds(numbers)),
        None => None,
    }
}

/// What a hit policy makes of the rules that hit, of which there is one at least and at most so many.
pub(crate) fn by_policy(policy: HitPolicy, tally: Tally, rules: usize) -> Outcomes
    ensures { result ≡ by_policy_of policy tally rules }
{
    match policy {
        HitPolicy::Unique | HitPolicy::Any => {
            Outcomes::given(null_if(tally.may_be_several, tally.outputs))
        }
        HitPolicy::Priority => Outcomes::given(tally.outputs),
        HitPolicy::First => Outcomes::given(tally.first),
        HitPolicy::OutputOrder | HitPolicy::RuleOrder | HitPolicy::Collect => {
            listed(tally.outputs.size_of().times(rules))
        }
        HitPolicy::Sum => numbers_given(
            tally.outputs.is_other(),
            summed(tally.outputs.numbers, tally.total),
        ),
        HitPolicy::Least | HitPolicy::Greatest => {
            numbers_given(tally.outputs.is_other(), extremes(tally.outputs.numbers))
        }
        HitPolicy::Count => numbers_given(false, Some(counted_to(rules))),
    }
}
