//! Reading unary tests from their tokens, once from left to right. A test is read as an expression first, and as an interval where it
//! is none; a list of tests behind `not` is read as such first. So no token is read more than four times.

ghost use Rattle.std.specs.Prelude.{◌≡◌, length, option_map};
ghost use Rattle.feel_text.specs.Gives.{Gives};
ghost use Rattle.feel_text.specs.Parts.{high_part_at};
ghost use Rattle.feel_text.specs.Reading.{after_comma};
ghost use Rattle.feel_text.specs.TestReading.{after_dots, after_not, bound_of, compares_at, high_end_at, high_end_of, interval_at, is_dash, list_at, listed_at, low_end_of, none_of_at, one_of_at, plain_at, test_at, tests_at};
ghost use Rattle.feel_text.specs.TestsView.{bound_view, test_view, test_views, tests_view};
ghost use Rattle.feel_text.specs.Token as token_specs;
ghost use Rattle.feel_text.specs.Token.{views};
ghost use Rattle.feel_text.specs.View.{view};

use crate::expr::Tree;
use crate::fault::ReadFault;
use crate::line::Line;
use crate::reader::{MOST_DEPTH, after_close, read};
use crate::token::{Sign, Token, Word};
use crate::unary::{Bound, Test, TestsTree};
use std::alloc::Global;

// The comparison that a sign begins.
fn bound_of(token: &Token) -> Option<Bound>
    ensures { option_map bound_view result ≡ bound_of (token_specs.view token.now) }
{
    match token {
        Token::Symbol(Sign::Less) => Some(Bound::Below),
        Token::Symbol(Sign::LessEqual) => Some(Bound::AtMost),
        Token::Symbol(Sign::Greater) => Some(Bound::Above),
        Token::Symbol(Sign::GreaterEqual) => Some(Bound::AtLeast),
        _ => None,
    }
}

// Whether the low end is closed, where the sign begins an interval.
fn low_end_of(token: &Token) -> Option<bool>
    ensures { result ≡ low_end_of (token_specs.view token.now) }
{
    match token {
        Token::Symbol(Sign::OpenBracket) => Some(true),
        Token::Symbol(Sign::OpenParen | Sign::CloseBracket) => Some(false),
        _ => None,
    }
}

// Whether the high end is closed, where the sign ends an interval.
fn high_end_of(token: &Token) -> Option<bool>
    ensures { result ≡ high_end_of (token_specs.view token.now) }
{
    match token {
        Token::Symbol(Sign::CloseBracket) => Some(true),
        Token::Symbol(Sign::CloseParen | Sign::OpenBracket) => Some(false),
        _ => None,
    }
}

// The tokens after `..`.
fn after_dots(tokens: &[Token]) -> Result<&[Token], ReadFault>
    ensures { Gives (λ rest. views rest.now) result (after_dots (views tokens.now)) }
{
    match tokens {
        [Token::Symbol(Sign::DotDot), rest @ ..] => Ok(rest),
        _ => Err(ReadFault::Syntax),
    }
}

// The tokens after a comma, where one comes first.
fn after_comma(tokens: &[Token]) -> Option<&[Token]>
    ensures { option_map (λ rest. views rest.now) result ≡ after_comma (views tokens.now) }
{
    match tokens {
        [Token::Symbol(Sign::Comma), rest @ ..] => Some(rest),
        _ => None,
    }
}

// The sign that ends an interval, as whether that end is closed, and the tokens after it.
#[tactic(auto, unfolding(crate::specs::TestReading::high_end_at))]
fn high_end(tokens: &[Token]) -> Result<(bool, &[Token]), ReadFault>
    ensures { Gives (λ x. (x.0, views x.1.now)) result (high_end_at (views tokens.now)) }
{
    let Some((token, rest)) = tokens.split_first() else {
        return Err(ReadFault::Syntax);
    };
    let Some(closed) = high_end_of(token) else {
        return Err(ReadFault::Syntax);
    };
    Ok((closed, rest))
}

// The high end of an interval, with the dots before it: its value, whether it is closed, and the tokens after it.
#[tactic(auto, unfolding(crate::specs::Parts::high_part_at))]
fn high_part<'a>(
    alloc: Global,
    tokens: &'a [Token],
) -> Result<(Box<Tree>, bool, &'a [Token]), ReadFault>
    ensures { Gives (λ x. (view x.0.value, x.1, views x.2.now)) result (high_part_at (views tokens.now)) }
{
    let rest = after_dots(tokens)?;
    let (high, _, rest) = read(alloc, Line::Sum, MOST_DEPTH, rest)?;
    let (closed, rest) = high_end(rest)?;
    Ok((high, closed, rest))
}

// An interval after its first token.
#[tactic(auto, unfolding(crate::specs::TestReading::interval_at))]
fn interval<'a>(
    alloc: Global,
    first: &Token,
    tokens: &'a [Token],
) -> Result<(Test, &'a [Token]), ReadFault>
    ensures { Gives (λ x. (test_view x.0, views x.1.now)) result
        (interval_at (token_specs.view first.now) (views tokens.now)) }
{
    let Some(closed_low) = low_end_of(first) else {
        return Err(ReadFault::Syntax);
    };
    let (low, _, rest) = read(alloc, Line::Sum, MOST_DEPTH, tokens)?;
    let (high, closed_high, rest) = high_part(alloc, rest)?;
    let (low, high) = (Box::into_inner(low), Box::into_inner(high));
    Ok((Test::Interval(closed_low, low, high, closed_high), rest))
}

// The value that a comparison compares with, after its sign.
#[tactic(auto, unfolding(crate::specs::TestReading::compares_at))]
fn compares<'a>(
    alloc: Global,
    bound: Bound,
    tokens: &'a [Token],
) -> Result<(Test, &'a [Token]), ReadFault>
    ensures { Gives (λ x. (test_view x.0, views x.1.now)) result
        (compares_at (bound_view bound) (views tokens.now)) }
{
    let (tree, _, rest) = read(alloc, Line::Sum, MOST_DEPTH, tokens)?;
    Ok((Test::Compares(bound, Box::into_inner(tree)), rest))
}

// One test, and the tokens after it.
#[tactic(auto, unfolding(crate::specs::TestReading::test_at, crate::specs::TestReading::plain_at))]
fn test<'a>(alloc: Global, tokens: &'a [Token]) -> Result<(Test, &'a [Token]), ReadFault>
    ensures { Gives (λ x. (test_view x.0, views x.1.now)) result (test_at (views tokens.now)) }
{
    let Some((first, rest)) = tokens.split_first() else {
        return Err(ReadFault::Syntax);
    };
    if let Some(bound) = bound_of(first) {
        return compares(alloc, bound, rest);
    }
    match read(alloc, Line::Whole, MOST_DEPTH, tokens) {
        Ok((tree, _, rest)) => Ok((Test::Equals(Box::into_inner(tree)), rest)),
        Err(ReadFault::Syntax) => interval(alloc, first, rest),
        Err(ReadFault::Memory) => Err(ReadFault::Memory),
    }
}

// Tests with commas between them, and the tokens after the last. They are at most as many as the
// tokens.
fn list<'a>(alloc: Global, tokens: &'a [Token]) -> Result<(Vec<Test>, &'a [Token]), ReadFault>
    ensures { Gives (λ x. (test_views x.0.items, views x.1.now)) result
        (list_at (length (views tokens.now)) (views tokens.now)) }
{
    let mut tests = Vec::with_capacity(alloc, 1)?;
    let mut rest = tokens;
    for _ in 0..tokens.len() {
        let (test, after) = test(alloc, rest)?;
        tests.push(test)?;
        let Some(next) = after_comma(after) else {
            return Ok((tests, after));
        };
        rest = next;
    }
    Err(ReadFault::Syntax)
}

// A list of tests to the end of the tokens.
#[tactic(auto, unfolding(crate::specs::TestReading::one_of_at))]
fn one_of(alloc: Global, tokens: &[Token]) -> Result<TestsTree, ReadFault>
    ensures { Gives tests_view result (one_of_at (views tokens.now)) }
{
    let (tests, rest) = list(alloc, tokens)?;
    if rest.is_empty() {
        Ok(TestsTree::OneOf(tests))
    } else {
        Err(ReadFault::Syntax)
    }
}

// The list of a `not` to the end of the tokens, after its parenthesis.
#[tactic(auto, unfolding(crate::specs::TestReading::none_of_at))]
fn none_of(alloc: Global, tokens: &[Token]) -> Result<TestsTree, ReadFault>
    ensures { Gives tests_view result (none_of_at (views tokens.now)) }
{
    let (tests, rest) = list(alloc, tokens)?;
    let rest = after_close(rest)?;
    if rest.is_empty() {
        Ok(TestsTree::NoneOf(tests))
    } else {
        Err(ReadFault::Syntax)
    }
}

// The tokens after `not` and its parenthesis.
fn after_not(tokens: &[Token]) -> Option<&[Token]>
    ensures { option_map (λ rest. views rest.now) result ≡ after_not (views tokens.now) }
{
    match tokens {
        [
            Token::Keyword(Word::Not),
            Token::Symbol(Sign::OpenParen),
            rest @ ..,
        ] => Some(rest),
        _ => None,
    }
}

// Whether the tokens are a single `-`.
fn is_dash(tokens: &[Token]) -> bool
    ensures { result ≡ is_dash (views tokens.now) }
{
    matches!(tokens, [Token::Symbol(Sign::Minus)])
}

// Tests that are no `-`: those of a `not` as a whole, and otherwise a list.
#[tactic(auto, unfolding(crate::specs::TestReading::listed_at))]
fn listed(alloc: Global, tokens: &[Token]) -> Result<TestsTree, ReadFault>
    ensures { Gives tests_view result (listed_at (views tokens.now)) }
{
    let Some(inside) = after_not(tokens) else {
        return one_of(alloc, tokens);
    };
    match none_of(alloc, inside) {
        Ok(tests) => Ok(tests),
        Err(ReadFault::Syntax) => one_of(alloc, tokens),
        Err(ReadFault::Memory) => Err(ReadFault::Memory),
    }
}

/// The unary tests that all of the tokens spell.
#[tactic(auto, unfolding(crate::specs::TestReading::tests_at))]
pub(crate) fn tests(alloc: Global, tokens: &[Token]) -> Result<TestsTree, ReadFault>
    ensures { Gives tests_view result (tests_at (views tokens.now)) }
{
    if is_dash(tokens) {
        return Ok(TestsTree::Any);
    }
    listed(alloc, tokens)
}
