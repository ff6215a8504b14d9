//! Reading literals: the values in the lists of output columns.

ghost use Rattle.std.specs.Prelude.{◌≡◌};
ghost use Rattle.feel_value.specs.View.{datum_of};
ghost use Rattle.feel_text.specs.Gives.{Gives};
ghost use Rattle.feel_text.specs.TestReading.{constant_at, literal_at, number_at, negative_at, signed_at};
ghost use Rattle.feel_text.specs.Token as token_specs;
ghost use Rattle.feel_text.specs.Token.{views};

use crate::fault::ReadFault;
use crate::token::{Sign, Token, Word};
use feel_value::{Feel, Value};
use std::alloc::Global;
use std::sync::ArcStr;

// The number of a token, within the range of numbers.
fn number(n: u64) -> Result<i64, ReadFault>
    ensures { Gives (λ z. z) result (number_at n) }
{
    i64::try_from(n).map_err(|_| ReadFault::Syntax)
}

// What a literal of one token stands for.
fn constant(alloc: Global, token: &Token) -> Result<Value, ReadFault>
    ensures { Gives datum_of result (constant_at (token_specs.view token.now)) }
{
    match token {
        Token::Number(n) => Ok(Value::Number(number(*n)?)),
        Token::Text(text) => Ok(Value::Text(ArcStr::from_str(alloc, text.as_str())?)),
        Token::Keyword(Word::Null) => Ok(Value::Null),
        Token::Keyword(Word::True) => Ok(Value::Bool(true)),
        Token::Keyword(Word::False) => Ok(Value::Bool(false)),
        _ => Err(ReadFault::Syntax),
    }
}

// The negative of a number.
fn negative(token: &Token) -> Result<Value, ReadFault>
    ensures { Gives datum_of result (negative_at (token_specs.view token.now)) }
{
    match token {
        Token::Number(n) => Ok(Value::Number(-number(*n)?)),
        _ => Err(ReadFault::Syntax),
    }
}

// A constant, or a number behind a minus.
fn signed(alloc: Global, tokens: &[Token]) -> Result<Value, ReadFault>
    ensures { Gives datum_of result (signed_at (views tokens.now)) }
{
    match tokens {
        [token] => constant(alloc, token),
        [Token::Symbol(Sign::Minus), token] => negative(token),
        _ => Err(ReadFault::Syntax),
    }
}

/// The literal that all of the tokens spell.
#[tactic(auto, unfolding(crate::specs::TestReading::literal_at))]
pub(crate) fn literal(alloc: Global, tokens: &[Token]) -> Result<Feel, ReadFault>
    ensures { Gives (λ d. d) result (literal_at (views tokens.now)) }
{
    let value = signed(alloc, tokens)?;
    Feel::of(value).ok_or(ReadFault::Syntax)
}
