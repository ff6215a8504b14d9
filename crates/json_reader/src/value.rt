//! A value from the tokens of a text.
ghost use Rattle.std.specs.Prelude.{◌≡◌, ◌≢◌, ◌<◌, ◌≤◌, ◌∷◌, length, None, Some, IfOk, IfSome, MatchOption};
ghost use Rattle.json.specs.Print.{IsPrintable};
ghost use Rattle.json.specs.Reads.{token_of};
ghost use Rattle.serde_json.specs.View.{view};
ghost use Rattle.json_reader.specs.Reading.{list_read, object_read, value_read};

use crate::number::number_in;
use json::{Reader, Token};
use serde_json::{Map, Value};
use std::alloc::{AllocError, Global};

/// The next value, if one follows that is nested no deeper than this.
#[cycle(values)]
pub(crate) fn value_in(
    alloc: Global,
    reader: &mut Reader<'_>,
    depth: usize,
) -> Result<Option<Value>, AllocError>
    ensures found { IfOk result (λ o. MatchOption o (value_read depth reader.old ≡ None) (λ v. value_read depth reader.old ≡ Some (view v, reader.new))) }
    ensures shorter { IfOk result (λ o. IfSome o (λ _. length reader.new < length reader.old)) }
{
    let Some(token) = reader.next() else {
        return Ok(None);
    };
    value_from(alloc, token, reader, depth)
}

/// The value that begins with this token, if there is one that is nested no deeper than this.
#[cycle(values)]
pub(crate) fn value_from(
    alloc: Global,
    token: Token<'_>,
    reader: &mut Reader<'_>,
    depth: usize,
) -> Result<Option<Value>, AllocError>
    requires printable { token ≢ Token.Bad → IsPrintable (token_of token) }
    ensures found { IfOk result (λ o. MatchOption o (value_read depth (token_of token.entry ∷ reader.old) ≡ None) (λ v. value_read depth (token_of token.entry ∷ reader.old) ≡ Some (view v, reader.new))) }
    ensures no_longer { IfOk result (λ o. IfSome o (λ _. length reader.new ≤ length reader.old)) }
{
    match token {
        Token::String(text) => Ok(Some(Value::String(String::from_str(alloc, text)?))),
        Token::Number(text) => Ok(number_in(text)),
        Token::Bool(b) => Ok(Some(Value::Bool(b))),
        Token::Null => Ok(Some(Value::Null)),
        Token::BeginArray if depth == 0 => Ok(None),
        Token::BeginArray => list_in(alloc, reader, depth - 1),
        Token::BeginObject if depth == 0 => Ok(None),
        Token::BeginObject => object_in(alloc, reader, depth - 1),
        Token::EndObject | Token::EndArray | Token::Key(_) | Token::Bad => Ok(None),
    }
}

/// The rest of a list behind its bracket.
#[cycle(values)]
fn list_in(
    alloc: Global,
    reader: &mut Reader<'_>,
    depth: usize,
) -> Result<Option<Value>, AllocError>
    ensures found { IfOk result (λ o. MatchOption o (list_read depth reader.old ≡ None) (λ v. list_read depth reader.old ≡ Some (view v, reader.new))) }
    ensures shorter { IfOk result (λ o. IfSome o (λ _. length reader.new < length reader.old)) }
{
    let mut list = Vec::new(alloc);
    'items: while !reader.take_end_array() {
        let Some(item) = value_in(alloc, reader, depth)? else {
            return Ok(None);
        };
        list.push(item)?;
    }
    Ok(Some(Value::Array(list)))
}

/// The rest of an object behind its brace. Of several members with one key the last stays.
#[cycle(values)]
fn object_in(
    alloc: Global,
    reader: &mut Reader<'_>,
    depth: usize,
) -> Result<Option<Value>, AllocError>
    ensures found { IfOk result (λ o. MatchOption o (object_read depth reader.old ≡ None) (λ v. object_read depth reader.old ≡ Some (view v, reader.new))) }
    ensures shorter { IfOk result (λ o. IfSome o (λ _. length reader.new < length reader.old)) }
{
    let mut object = Map::new(alloc);
    'members: loop {
        let Ok(key) = reader.next_key() else {
            return Ok(None);
        };
        let Some(name) = key else {
            break;
        };
        let key = String::from_str(alloc, name)?;
        let Some(member) = value_in(alloc, reader, depth)? else {
            return Ok(None);
        };
        drop(object.insert(key, member)?);
    }
    Ok(Some(Value::Object(object)))
}
