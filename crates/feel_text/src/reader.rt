//! Reading an expression from its tokens, once from left to right.

ghost use Rattle.std.specs.Prelude.{◌≡◌, ◌≤◌, ◌<◌, ◌+◌, List, string_bytes, IfOk, length, map, option_map};
ghost use Rattle.feel_text.specs.Gives.{Gives};
ghost use Rattle.feel_text.specs.Readings.{expression_at};
ghost use Rattle.feel_text.specs.Token.{views};
ghost use Rattle.feel_text.specs.Token as token_specs;
ghost use Rattle.feel_text.specs.View.{view, exprs_of};
ghost use Rattle.feel_text.specs.Expr.{none, more};
ghost use Rattle.feel_text.specs.Grammar.{rank, tighter};
ghost use Rattle.feel_text.specs.Parts.{bounds_at, branches_at, else_at, first_operator, high_at, leaf_at, step_at, then_at};
ghost use Rattle.feel_text.specs.Reading.{after_and, after_bracket, after_close, after_comma, after_else, after_open, after_then, between_at, chain_at, closed_at, compared_at, comparison_at, conditional_at, disjunction_at, function_of, group_at, joined, line_at, list_at, listed_at, members_at, modulo_at, named_at, negated_at, negation_at, operator_at, path_at, paths_at, primary_at, read_at, steps_at, sum_at, whole_at};

use crate::expr::{Function, Operator, Tree};
use crate::fault::ReadFault;
use crate::line::Line;
use crate::reference::Reference;
use crate::token::{Sign, Token, Word};
use crate::trees;
use std::alloc::Global;

/// How deep an expression may be.
pub(crate) const MOST_DEPTH: usize = 64;

/// What was read: an expression, its depth, and the tokens after it.
pub(crate) type Found<'a> = (Box<Tree>, usize, &'a [Token]);

/// Two expressions, the depth of the deeper one, and the tokens after them.
type Pair<'a> = (Box<Tree>, Box<Tree>, usize, &'a [Token]);

// The tokens after a closing parenthesis.
pub(crate) fn after_close(tokens: &[Token]) -> Result<&[Token], ReadFault>
    ensures { Gives (λ rest. views rest.now) result (after_close (views tokens.now)) }
{
    match tokens {
        [Token::Symbol(Sign::CloseParen), rest @ ..] => Ok(rest),
        _ => Err(ReadFault::Syntax),
    }
}

// The tokens after an opening parenthesis.
fn after_open(tokens: &[Token]) -> Result<&[Token], ReadFault>
    ensures { Gives (λ rest. views rest.now) result (after_open (views tokens.now)) }
{
    match tokens {
        [Token::Symbol(Sign::OpenParen), rest @ ..] => Ok(rest),
        _ => Err(ReadFault::Syntax),
    }
}

// The tokens after the bracket that closes a list, where it comes first.
fn after_bracket(tokens: &[Token]) -> Option<&[Token]>
    ensures { option_map (λ rest. views rest.now) result ≡ after_bracket (views tokens.now) }
{
    match tokens {
        [Token::Symbol(Sign::CloseBracket), rest @ ..] => Some(rest),
        _ => None,
    }
}

// The tokens after a comma.
fn after_comma(tokens: &[Token]) -> Result<&[Token], ReadFault>
    ensures { Gives (λ rest. views rest.now) result (after_comma (views tokens.now)) }
{
    match tokens {
        [Token::Symbol(Sign::Comma), rest @ ..] => Ok(rest),
        _ => Err(ReadFault::Syntax),
    }
}

// The tokens after the keyword `then`.
fn after_then(tokens: &[Token]) -> Result<&[Token], ReadFault>
    ensures { Gives (λ rest. views rest.now) result (after_then (views tokens.now)) }
{
    match tokens {
        [Token::Keyword(Word::Then), rest @ ..] => Ok(rest),
        _ => Err(ReadFault::Syntax),
    }
}

// The tokens after the keyword `else`.
fn after_else(tokens: &[Token]) -> Result<&[Token], ReadFault>
    ensures { Gives (λ rest. views rest.now) result (after_else (views tokens.now)) }
{
    match tokens {
        [Token::Keyword(Word::Else), rest @ ..] => Ok(rest),
        _ => Err(ReadFault::Syntax),
    }
}

// The tokens after the keyword `and`.
fn after_and(tokens: &[Token]) -> Result<&[Token], ReadFault>
    ensures { Gives (λ rest. views rest.now) result (after_and (views tokens.now)) }
{
    match tokens {
        [Token::Keyword(Word::And), rest @ ..] => Ok(rest),
        _ => Err(ReadFault::Syntax),
    }
}

// The operator that a token is, on a line of the grammar.
fn operator_at(line: Line, token: &Token) -> Option<Operator>
    ensures { result ≡ operator_at line (token_specs.view token.now) }
{
    match (line, token) {
        (Line::Disjunction, Token::Keyword(Word::Or)) => Some(Operator::Or),
        (Line::Conjunction, Token::Keyword(Word::And)) => Some(Operator::And),
        (Line::Comparison, Token::Symbol(Sign::Equal)) => Some(Operator::Equal),
        (Line::Comparison, Token::Symbol(Sign::NotEqual)) => Some(Operator::NotEqual),
        (Line::Comparison, Token::Symbol(Sign::Less)) => Some(Operator::Less),
        (Line::Comparison, Token::Symbol(Sign::LessEqual)) => Some(Operator::LessEqual),
        (Line::Comparison, Token::Symbol(Sign::Greater)) => Some(Operator::Greater),
        (Line::Comparison, Token::Symbol(Sign::GreaterEqual)) => Some(Operator::GreaterEqual),
        (Line::Sum, Token::Symbol(Sign::Plus)) => Some(Operator::Add),
        (Line::Sum, Token::Symbol(Sign::Minus)) => Some(Operator::Subtract),
        (Line::Product, Token::Symbol(Sign::Star)) => Some(Operator::Multiply),
        _ => None,
    }
}

// The operator of a line that comes first, and the tokens after it.
#[tactic(auto, unfolding(crate::specs::Parts::first_operator))]
fn first_operator(line: Line, tokens: &[Token]) -> Option<(Operator, &[Token])>
    ensures { option_map (λ x. (x.0, views x.1.now)) result ≡ first_operator line (views tokens.now) }
{
    let (token, rest) = tokens.split_first()?;
    Some((operator_at(line, token)?, rest))
}

// The function of one argument that a name is.
fn function_of(name: &str) -> Option<Function>
    ensures { result ≡ function_of name.now }
{
    match name {
        "abs" => Some(Function::Abs),
        "sum" => Some(Function::Sum),
        "min" => Some(Function::Min),
        "max" => Some(Function::Max),
        "count" => Some(Function::Count),
        _ => None,
    }
}

// An expression of depth 1, and the tokens after it.
fn leaf<'a>(alloc: Global, tree: Tree, rest: &'a [Token]) -> Result<Found<'a>, ReadFault>
    ensures found { Gives (λ x. (view x.0.value, x.1, views x.2.now)) result (leaf_at (view tree) (views rest.now)) }
    ensures depth { IfOk result (λ x. x.1 ≡ 1) }
{
    Ok((Box::new(alloc, tree)?, 1, rest))
}

// The names of entries after a first part, fewer than left. Each is one deeper.
#[tactic(auto, unfolding(crate::specs::Reading::paths_at))]
fn paths<'a>(
    alloc: Global,
    left: usize,
    inner: usize,
    first: Box<Tree>,
    depth: usize,
    tokens: &'a [Token],
) -> Result<Found<'a>, ReadFault>
    requires limit { inner < 64 }
    requires depth { depth ≤ inner + 1 }
    ensures found { Gives (λ x. (view x.0.value, x.1, views x.2.now)) result
        (paths_at left inner (view first.value) depth (views tokens.now)) }
    ensures depth { IfOk result (λ x. x.1 ≤ inner + 1) }
{
    if left == 0 {
        return Err(ReadFault::Syntax);
    }
    let [Token::Symbol(Sign::Dot), after @ ..] = tokens else {
        return Ok((first, depth, tokens));
    };
    let [Token::Name(name), after @ ..] = after else {
        return Err(ReadFault::Syntax);
    };
    if depth > inner {
        return Err(ReadFault::Syntax);
    }
    let path = trees::path(alloc, first, name.name.as_str())?;
    paths(alloc, left - 1, inner, path, depth + 1, after)
}

// An expression on a line of the grammar, of a depth of at most the limit.
#[cycle(reader)]
#[tactic(auto, unfolding(crate::specs::Reading::read_at))]
pub(crate) fn read<'a>(
    alloc: Global,
    line: Line,
    limit: usize,
    tokens: &'a [Token],
) -> Result<Found<'a>, ReadFault>
    requires { limit ≤ 64 }
    ensures found { Gives (λ x. (view x.0.value, x.1, views x.2.now)) result
        (read_at limit line (views tokens.now)) }
    ensures depth { IfOk result (λ x. x.1 ≤ limit) }
{
    if limit == 0 {
        return Err(ReadFault::Syntax);
    }
    read_line(alloc, line, limit - 1, tokens)
}

// The same where each part has a depth of at most inner.
#[cycle(reader)]
#[tactic(auto, unfolding(crate::specs::Reading::line_at))]
fn read_line<'a>(
    alloc: Global,
    line: Line,
    inner: usize,
    tokens: &'a [Token],
) -> Result<Found<'a>, ReadFault>
    requires { inner < 64 }
    ensures found { Gives (λ x. (view x.0.value, x.1, views x.2.now)) result
        (line_at (read_at inner) inner line (views tokens.now)) }
    ensures depth { IfOk result (λ x. x.1 ≤ inner + 1) }
{
    match line {
        Line::Whole => whole(alloc, inner, tokens),
        Line::Disjunction | Line::Conjunction | Line::Sum | Line::Product => {
            chain(alloc, line, inner, tokens)
        }
        Line::Comparison => comparison(alloc, inner, tokens),
        Line::Negation => negation(alloc, inner, tokens),
        Line::Path => path(alloc, inner, tokens),
        Line::Primary => primary(alloc, inner, tokens),
    }
}

// A conditional, or what a tighter line reads.
#[cycle(reader)]
#[tactic(auto, unfolding(crate::specs::Reading::whole_at, crate::specs::Reading::line_at))]
fn whole<'a>(alloc: Global, inner: usize, tokens: &'a [Token]) -> Result<Found<'a>, ReadFault>
    requires { inner < 64 }
    ensures found { Gives (λ x. (view x.0.value, x.1, views x.2.now)) result
        (whole_at (disjunction_at (read_at inner) inner) (read_at inner) (views tokens.now)) }
    ensures depth { IfOk result (λ x. x.1 ≤ inner + 1) }
{
    let [Token::Keyword(Word::If), rest @ ..] = tokens else {
        return read_line(alloc, Line::Disjunction, inner, tokens);
    };
    conditional(alloc, inner, rest)
}

/// The test and the branches of a conditional, after its keyword `if`.
#[cycle(reader)]
#[tactic(auto, unfolding(crate::specs::Reading::conditional_at))]
fn conditional<'a>(alloc: Global, inner: usize, tokens: &'a [Token]) -> Result<Found<'a>, ReadFault>
    requires { inner < 64 }
    ensures found { Gives (λ x. (view x.0.value, x.1, views x.2.now)) result
        (conditional_at (read_at inner) (views tokens.now)) }
    ensures depth { IfOk result (λ x. x.1 ≤ inner + 1) }
{
    let (test, depth, rest) = read(alloc, Line::Whole, inner, tokens)?;
    let (yes, no, deepest, rest) = branches(alloc, inner, rest)?;
    let tree = trees::conditional(alloc, test, yes, no)?;
    Ok((tree, 1 + depth.max(deepest), rest))
}

/// The branches of a conditional, with the depth of the deeper one.
#[cycle(reader)]
#[tactic(auto, unfolding(crate::specs::Parts::branches_at))]
fn branches<'a>(alloc: Global, inner: usize, tokens: &'a [Token]) -> Result<Pair<'a>, ReadFault>
    requires { inner < 64 }
    ensures found { Gives (λ x. (view x.0.value, view x.1.value, x.2, views x.3.now)) result
        (branches_at (read_at inner) (views tokens.now)) }
    ensures depth { IfOk result (λ x. x.2 ≤ inner) }
{
    let (yes, depth, rest) = then_branch(alloc, inner, tokens)?;
    let (no, other_depth, rest) = else_branch(alloc, inner, rest)?;
    Ok((yes, no, depth.max(other_depth), rest))
}

/// The first branch of a conditional, with its keyword `then`.
#[cycle(reader)]
fn then_branch<'a>(alloc: Global, inner: usize, tokens: &'a [Token]) -> Result<Found<'a>, ReadFault>
    requires { inner < 64 }
    ensures found { Gives (λ x. (view x.0.value, x.1, views x.2.now)) result
        (then_at (read_at inner) (views tokens.now)) }
    ensures depth { IfOk result (λ x. x.1 ≤ inner) }
{
    let rest = after_then(tokens)?;
    read(alloc, Line::Whole, inner, rest)
}

/// The second branch of a conditional, with its keyword `else`.
#[cycle(reader)]
fn else_branch<'a>(alloc: Global, inner: usize, tokens: &'a [Token]) -> Result<Found<'a>, ReadFault>
    requires { inner < 64 }
    ensures found { Gives (λ x. (view x.0.value, x.1, views x.2.now)) result
        (else_at (read_at inner) (views tokens.now)) }
    ensures depth { IfOk result (λ x. x.1 ≤ inner) }
{
    let rest = after_else(tokens)?;
    read(alloc, Line::Whole, inner, rest)
}

// A chain of operators of one line, grouped to the left. Each step is one deeper, so there are at
// most as many as inner.
#[cycle(reader)]
#[tactic(auto, unfolding(crate::specs::Reading::chain_at))]
fn chain<'a>(
    alloc: Global,
    line: Line,
    inner: usize,
    tokens: &'a [Token],
) -> Result<Found<'a>, ReadFault>
    requires limit { inner < 64 }
    requires tighter { rank line < rank (tighter line) }
    ensures found { Gives (λ x. (view x.0.value, x.1, views x.2.now)) result
        (chain_at (line_at (read_at inner) inner (tighter line)) (read_at inner) inner line (views tokens.now)) }
    ensures depth { IfOk result (λ x. x.1 ≤ inner + 1) }
{
    let (expr, depth, rest) = read_line(alloc, line.tighter(), inner, tokens)?;
    steps(alloc, line, inner, expr, depth, rest)
}

// The steps of a chain after its first operand. Each is one deeper, so there are at most as many as
// inner.
#[cycle(reader)]
fn steps<'a>(
    alloc: Global,
    line: Line,
    inner: usize,
    first: Box<Tree>,
    first_depth: usize,
    tokens: &'a [Token],
) -> Result<Found<'a>, ReadFault>
    requires limit { inner < 64 }
    requires depth { first_depth ≤ inner + 1 }
    ensures found { Gives (λ x. (view x.0.value, x.1, views x.2.now)) result
        (steps_at (inner + 1) (read_at inner) inner line (view first.value) first_depth (views tokens.now)) }
    ensures depth { IfOk result (λ x. x.1 ≤ inner + 1) }
{
    let mut expr = first;
    let mut depth = first_depth;
    let mut rest = tokens;
    for _ in 0..inner + 1 {
        let Some((operator, after)) = first_operator(line, rest) else {
            return Ok((expr, depth, rest));
        };
        let (tree, tree_depth, after) = step(
            alloc,
            operator,
            line.tighter(),
            inner,
            expr,
            depth,
            after,
        )?;
        expr = tree;
        depth = tree_depth;
        rest = after;
    }
    Err(ReadFault::Syntax)
}

// An operator between a left operand and the right one, which begins the tokens.
#[cycle(reader)]
#[tactic(auto, unfolding(crate::specs::Parts::step_at))]
fn step<'a>(
    alloc: Global,
    operator: Operator,
    line: Line,
    inner: usize,
    left: Box<Tree>,
    depth: usize,
    tokens: &'a [Token],
) -> Result<Found<'a>, ReadFault>
    requires { inner < 64 }
    ensures found { Gives (λ x. (view x.0.value, x.1, views x.2.now)) result
        (step_at operator (read_at inner line) inner (view left.value) depth (views tokens.now)) }
    ensures depth { IfOk result (λ x. x.1 ≤ inner + 1) }
{
    if depth > inner {
        return Err(ReadFault::Syntax);
    }
    let (right, right_depth, rest) = read(alloc, line, inner, tokens)?;
    let tree = trees::binary(alloc, operator, left, right)?;
    Ok((tree, 1 + depth.max(right_depth), rest))
}

// A sum, and at most one comparison of it.
#[cycle(reader)]
#[tactic(auto, unfolding(crate::specs::Reading::comparison_at, crate::specs::Reading::line_at))]
fn comparison<'a>(alloc: Global, inner: usize, tokens: &'a [Token]) -> Result<Found<'a>, ReadFault>
    requires { inner < 64 }
    ensures found { Gives (λ x. (view x.0.value, x.1, views x.2.now)) result
        (comparison_at (sum_at (read_at inner) inner) (read_at inner) inner (views tokens.now)) }
    ensures depth { IfOk result (λ x. x.1 ≤ inner + 1) }
{
    let (left, depth, rest) = read_line(alloc, Line::Sum, inner, tokens)?;
    compared(alloc, inner, left, depth, rest)
}

// What may follow the first operand of a comparison.
#[cycle(reader)]
#[tactic(auto, unfolding(crate::specs::Reading::compared_at, crate::specs::Reading::compared_by, crate::specs::Parts::step_at))]
fn compared<'a>(
    alloc: Global,
    inner: usize,
    left: Box<Tree>,
    depth: usize,
    tokens: &'a [Token],
) -> Result<Found<'a>, ReadFault>
    requires limit { inner < 64 }
    requires depth { depth ≤ inner + 1 }
    ensures found { Gives (λ x. (view x.0.value, x.1, views x.2.now)) result
        (compared_at (read_at inner) inner (view left.value) depth (views tokens.now)) }
    ensures depth { IfOk result (λ x. x.1 ≤ inner + 1) }
{
    let Some((token, rest)) = tokens.split_first() else {
        return Ok((left, depth, tokens));
    };
    if let Token::Keyword(Word::Between) = token {
        return between(alloc, inner, left, depth, rest);
    }
    let Some(operator) = operator_at(Line::Comparison, token) else {
        return Ok((left, depth, tokens));
    };
    step(alloc, operator, Line::Sum, inner, left, depth, rest)
}

// A `between`, after its keyword.
#[cycle(reader)]
#[tactic(auto, unfolding(crate::specs::Reading::between_at))]
fn between<'a>(
    alloc: Global,
    inner: usize,
    left: Box<Tree>,
    depth: usize,
    tokens: &'a [Token],
) -> Result<Found<'a>, ReadFault>
    requires { inner < 64 }
    ensures found { Gives (λ x. (view x.0.value, x.1, views x.2.now)) result
        (between_at (read_at inner) inner (view left.value) depth (views tokens.now)) }
    ensures depth { IfOk result (λ x. x.1 ≤ inner + 1) }
{
    if depth > inner {
        return Err(ReadFault::Syntax);
    }
    let (low, high, deepest, rest) = bounds(alloc, inner, tokens)?;
    let tree = trees::between(alloc, left, low, high)?;
    Ok((tree, 1 + depth.max(deepest), rest))
}

/// The bounds of a `between`, with the depth of the deeper one.
#[cycle(reader)]
#[tactic(auto, unfolding(crate::specs::Parts::bounds_at))]
fn bounds<'a>(alloc: Global, inner: usize, tokens: &'a [Token]) -> Result<Pair<'a>, ReadFault>
    requires { inner < 64 }
    ensures found { Gives (λ x. (view x.0.value, view x.1.value, x.2, views x.3.now)) result
        (bounds_at (read_at inner) (views tokens.now)) }
    ensures depth { IfOk result (λ x. x.2 ≤ inner) }
{
    let (low, depth, rest) = read(alloc, Line::Sum, inner, tokens)?;
    let (high, other_depth, rest) = high_bound(alloc, inner, rest)?;
    Ok((low, high, depth.max(other_depth), rest))
}

/// The high bound of a `between`, with its keyword `and`.
#[cycle(reader)]
fn high_bound<'a>(alloc: Global, inner: usize, tokens: &'a [Token]) -> Result<Found<'a>, ReadFault>
    requires { inner < 64 }
    ensures found { Gives (λ x. (view x.0.value, x.1, views x.2.now)) result
        (high_at (read_at inner) (views tokens.now)) }
    ensures depth { IfOk result (λ x. x.1 ≤ inner) }
{
    let rest = after_and(tokens)?;
    read(alloc, Line::Sum, inner, rest)
}

// A negation, or a path.
#[cycle(reader)]
#[tactic(auto, unfolding(crate::specs::Reading::negation_at))]
fn negation<'a>(alloc: Global, inner: usize, tokens: &'a [Token]) -> Result<Found<'a>, ReadFault>
    requires { inner < 64 }
    ensures found { Gives (λ x. (view x.0.value, x.1, views x.2.now)) result
        (negation_at (read_at inner) inner (views tokens.now)) }
    ensures depth { IfOk result (λ x. x.1 ≤ inner + 1) }
{
    let [Token::Symbol(Sign::Minus), rest @ ..] = tokens else {
        return path(alloc, inner, tokens);
    };
    let (expr, depth, rest) = read(alloc, Line::Negation, inner, rest)?;
    Ok((Box::new(alloc, Tree::Negate(expr))?, 1 + depth, rest))
}

// A primary, and the names of entries after it.
#[cycle(reader)]
#[tactic(auto, unfolding(crate::specs::Reading::path_at))]
fn path<'a>(alloc: Global, inner: usize, tokens: &'a [Token]) -> Result<Found<'a>, ReadFault>
    requires { inner < 64 }
    ensures found { Gives (λ x. (view x.0.value, x.1, views x.2.now)) result
        (path_at (read_at inner) inner (views tokens.now)) }
    ensures depth { IfOk result (λ x. x.1 ≤ inner + 1) }
{
    let (expr, depth, rest) = primary(alloc, inner, tokens)?;
    paths(alloc, inner + 1, inner, expr, depth, rest)
}

// A number, a string, a constant, a name, a call, or what stands in brackets.
#[cycle(reader)]
#[tactic(auto, unfolding(crate::specs::Reading::primary_at))]
fn primary<'a>(alloc: Global, inner: usize, tokens: &'a [Token]) -> Result<Found<'a>, ReadFault>
    requires { inner < 64 }
    ensures found { Gives (λ x. (view x.0.value, x.1, views x.2.now)) result
        (primary_at (read_at inner) (views tokens.now)) }
    ensures depth { IfOk result (λ x. x.1 ≤ inner + 1) }
{
    let Some((token, rest)) = tokens.split_first() else {
        return Err(ReadFault::Syntax);
    };
    match token {
        Token::Number(n) => leaf(alloc, trees::number(*n), rest),
        Token::Text(text) => leaf(alloc, trees::text(alloc, text.as_str())?, rest),
        Token::Name(reference) => named(alloc, inner, reference, rest),
        Token::Keyword(Word::Null) => leaf(alloc, trees::null(), rest),
        Token::Keyword(Word::True) => leaf(alloc, trees::boolean(true), rest),
        Token::Keyword(Word::False) => leaf(alloc, trees::boolean(false), rest),
        Token::Keyword(Word::Not) => negated(alloc, inner, rest),
        Token::Symbol(Sign::OpenParen) => group(alloc, inner, rest),
        Token::Symbol(Sign::OpenBracket) => list(alloc, inner, rest),
        _ => Err(ReadFault::Syntax),
    }
}

// What a name begins: a call where a parenthesis follows, and otherwise the name.
#[cycle(reader)]
#[tactic(auto, unfolding(crate::specs::Reading::named_at, crate::specs::Reading::call_at))]
fn named<'a>(
    alloc: Global,
    inner: usize,
    reference: &Reference,
    tokens: &'a [Token],
) -> Result<Found<'a>, ReadFault>
    requires { inner < 64 }
    ensures found { Gives (λ x. (view x.0.value, x.1, views x.2.now)) result
        (named_at reference.now.name (read_at inner) (views tokens.now)) }
    ensures depth { IfOk result (λ x. x.1 ≤ inner + 1) }
{
    let [Token::Symbol(Sign::OpenParen), rest @ ..] = tokens else {
        return leaf(alloc, Tree::Name(reference.try_clone()?), tokens);
    };
    let name = reference.name.as_str();
    if name == "modulo" {
        return modulo(alloc, inner, rest);
    }
    let Some(function) = function_of(name) else {
        return Err(ReadFault::Syntax);
    };
    let (expr, depth, rest) = closed(alloc, inner, rest)?;
    let tree = Box::new(alloc, Tree::Call(function, expr))?;
    Ok((tree, 1 + depth, rest))
}

// The two arguments of `modulo`, after their parenthesis.
#[cycle(reader)]
#[tactic(auto, unfolding(crate::specs::Reading::modulo_at))]
fn modulo<'a>(alloc: Global, inner: usize, tokens: &'a [Token]) -> Result<Found<'a>, ReadFault>
    requires { inner < 64 }
    ensures found { Gives (λ x. (view x.0.value, x.1, views x.2.now)) result
        (modulo_at (read_at inner) (views tokens.now)) }
    ensures depth { IfOk result (λ x. x.1 ≤ inner + 1) }
{
    let (left, left_depth, rest) = read(alloc, Line::Whole, inner, tokens)?;
    let rest = after_comma(rest)?;
    let (right, right_depth, rest) = closed(alloc, inner, rest)?;
    let tree = trees::modulo(alloc, left, right)?;
    Ok((tree, 1 + left_depth.max(right_depth), rest))
}

// The argument of `not`, after that keyword.
#[cycle(reader)]
#[tactic(auto, unfolding(crate::specs::Reading::negated_at))]
fn negated<'a>(alloc: Global, inner: usize, tokens: &'a [Token]) -> Result<Found<'a>, ReadFault>
    requires { inner < 64 }
    ensures found { Gives (λ x. (view x.0.value, x.1, views x.2.now)) result
        (negated_at (read_at inner) (views tokens.now)) }
    ensures depth { IfOk result (λ x. x.1 ≤ inner + 1) }
{
    let rest = after_open(tokens)?;
    let (expr, depth, rest) = closed(alloc, inner, rest)?;
    Ok((Box::new(alloc, Tree::Not(expr))?, 1 + depth, rest))
}

// An expression in parentheses, after the first.
#[cycle(reader)]
#[tactic(auto, unfolding(crate::specs::Reading::group_at))]
fn group<'a>(alloc: Global, inner: usize, tokens: &'a [Token]) -> Result<Found<'a>, ReadFault>
    requires { inner < 64 }
    ensures found { Gives (λ x. (view x.0.value, x.1, views x.2.now)) result
        (group_at (read_at inner) (views tokens.now)) }
    ensures depth { IfOk result (λ x. x.1 ≤ inner + 1) }
{
    let (expr, depth, rest) = closed(alloc, inner, tokens)?;
    Ok((Box::new(alloc, Tree::Group(expr))?, 1 + depth, rest))
}

// An expression, and the parenthesis after it.
#[cycle(reader)]
#[tactic(auto, unfolding(crate::specs::Reading::closed_at))]
fn closed<'a>(alloc: Global, inner: usize, tokens: &'a [Token]) -> Result<Found<'a>, ReadFault>
    requires { inner < 64 }
    ensures found { Gives (λ x. (view x.0.value, x.1, views x.2.now)) result
        (closed_at (read_at inner) (views tokens.now)) }
    ensures depth { IfOk result (λ x. x.1 ≤ inner) }
{
    let (expr, depth, rest) = read(alloc, Line::Whole, inner, tokens)?;
    let rest = after_close(rest)?;
    Ok((expr, depth, rest))
}

// A list, after its bracket.
#[cycle(reader)]
#[tactic(auto, unfolding(crate::specs::Reading::list_at))]
fn list<'a>(alloc: Global, inner: usize, tokens: &'a [Token]) -> Result<Found<'a>, ReadFault>
    requires { inner < 64 }
    ensures found { Gives (λ x. (view x.0.value, x.1, views x.2.now)) result
        (list_at (read_at inner) (views tokens.now)) }
    ensures depth { IfOk result (λ x. x.1 ≤ inner + 1) }
{
    let [Token::Symbol(Sign::CloseBracket), rest @ ..] = tokens else {
        return listed(alloc, inner, tokens);
    };
    leaf(alloc, Tree::List(Vec::new(alloc)), rest)
}

// A list that isn't empty, after its bracket.
#[cycle(reader)]
#[tactic(auto, unfolding(crate::specs::Reading::listed_at))]
fn listed<'a>(alloc: Global, inner: usize, tokens: &'a [Token]) -> Result<Found<'a>, ReadFault>
    requires { inner < 64 }
    ensures found { Gives (λ x. (view x.0.value, x.1, views x.2.now)) result
        (listed_at (read_at inner) (views tokens.now)) }
    ensures depth { IfOk result (λ x. x.1 ≤ inner + 1) }
{
    let (first, depth, rest) = read(alloc, Line::Whole, inner, tokens)?;
    let (members, deepest, rest) = members(alloc, inner, first, depth, rest)?;
    let tree = Box::new(alloc, Tree::List(members))?;
    Ok((tree, 1 + deepest, rest))
}

// The members after the first one, and the bracket after them. They are fewer than the tokens.
#[cycle(reader)]
fn members<'a>(
    alloc: Global,
    inner: usize,
    first: Box<Tree>,
    first_depth: usize,
    tokens: &'a [Token],
) -> Result<(Vec<Tree>, usize, &'a [Token]), ReadFault>
    requires limit { inner < 64 }
    requires depth { first_depth ≤ inner }
    ensures found { Gives (λ x. (exprs_of (map view x.0.items), x.1, views x.2.now)) result
        (joined (more (view first.value) none) first_depth (members_at (length (views tokens.now)) (read_at inner) (views tokens.now))) }
    ensures depth { IfOk result (λ x. x.1 ≤ inner) }
{
    let mut members = Vec::new(alloc);
    members.push(Box::into_inner(first))?;
    let mut deepest = first_depth;
    let mut rest = tokens;
    for _ in 0..tokens.len() {
        if let Some(rest) = after_bracket(rest) {
            return Ok((members, deepest, rest));
        }
        let after = after_comma(rest)?;
        let (member, depth, after) = read(alloc, Line::Whole, inner, after)?;
        members.push(Box::into_inner(member))?;
        deepest = deepest.max(depth);
        rest = after;
    }
    Err(ReadFault::Syntax)
}

/// The expression that all of the tokens spell, within the limit of depth.
#[tactic(auto, unfolding(crate::specs::Readings::expression_at))]
pub(crate) fn expression(alloc: Global, tokens: &[Token]) -> Result<Tree, ReadFault>
    ensures { Gives view result (expression_at (views tokens.now)) }
{
    let (tree, _, rest) = read(alloc, Line::Whole, MOST_DEPTH, tokens)?;
    if rest.is_empty() {
        Ok(Box::into_inner(tree))
    } else {
        Err(ReadFault::Syntax)
    }
}
