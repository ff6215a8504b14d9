//! The members of an object in a list, if they are few.
ghost use Rattle.std.specs.Prelude.{◌≡◌, ◌≢◌, ◌∷◌, IfOk, OnOk};
ghost use Rattle.json.specs.Print.{IsPrintable};
ghost use Rattle.json.specs.Reads.{token_of};
ghost use Rattle.json.specs.Token.{begin_object};
ghost use Rattle.json_reader.specs.Listing.{Lists, ListsRead, ListsText};
ghost use Rattle.json_reader.specs.Reading.{object_read, value_read};
ghost use Rattle.serde_json.specs.Data.{Members, put};
ghost use Rattle.serde_json.specs.Read.{read};
ghost use Rattle.serde_json.specs.View.{view};

use crate::members::put_member;
use crate::reader::MOST_DEPTH;
use crate::value::{value_from, value_in};
use json::{Reader, Scratch, Token};
use serde_json::Value;
use std::alloc::{AllocError, Global};

/// The most members that are listed.
const MOST_LISTED: usize = 4;

/// What a text is, where the members of an object are listed if they are few.
#[derive(Drop)]
pub enum Listed<'a> {
    /// An object of these members, in the order of their keys.
    Object(Vec<(&'a str, Value)>),
    /// A JSON value that is no object of few members.
    Other,
    /// No JSON text.
    Syntax,
}

/// Lists one more member of an object, as long as they are few.
fn list_member<'a>(
    members: &mut Vec<(&'a str, Value)>,
    key: &'a str,
    value: Value,
) -> Result<(), AllocError>
    ensures { OnOk result ((all : Members) → Lists all members.old.items → Lists (put key.now (view value) all) members.new.items) }
{
    if members.len() > MOST_LISTED {
        return Ok(());
    }
    put_member(members, key, value)?;
    Ok(())
}

/// The rest of an object behind its brace. Of several members with one key the last stays.
fn members_in<'a>(
    alloc: Global,
    reader: &mut Reader<'a>,
    depth: usize,
) -> Result<Listed<'a>, AllocError>
    ensures { IfOk result (λ listed. ListsRead (object_read depth reader.old) listed reader.new) }
{
    let mut members = Vec::with_capacity(alloc, MOST_LISTED)?;
    'members: loop {
        let Ok(key) = reader.next_key() else {
            return Ok(Listed::Syntax);
        };
        let Some(name) = key else {
            break;
        };
        let Some(value) = value_in(alloc, reader, depth)? else {
            return Ok(Listed::Syntax);
        };
        list_member(&mut members, name, value)?;
    }
    if members.len() > MOST_LISTED {
        return Ok(Listed::Other);
    }
    Ok(Listed::Object(members))
}

/// The value that begins with this token, which begins no object.
#[cold]
#[inline(never)]
fn other_in<'a>(
    alloc: Global,
    token: Token<'_>,
    reader: &mut Reader<'a>,
) -> Result<Listed<'a>, AllocError>
    requires printable { token ≢ Token.Bad → IsPrintable (token_of token) }
    requires other { token_of token ≢ begin_object }
    ensures { IfOk result (λ listed. ListsRead (value_read 127 (token_of token.entry ∷ reader.old)) listed reader.new) }
{
    let Some(_value) = value_from(alloc, token, reader, MOST_DEPTH)? else {
        return Ok(Listed::Syntax);
    };
    Ok(Listed::Other)
}

/// The first value.
fn first_in<'a>(alloc: Global, reader: &mut Reader<'a>) -> Result<Listed<'a>, AllocError>
    ensures { IfOk result (λ listed. ListsRead (value_read 127 reader.old) listed reader.new) }
{
    let Some(token) = reader.next() else {
        return Ok(Listed::Syntax);
    };
    match token {
        Token::BeginObject => members_in(alloc, reader, MOST_DEPTH - 1),
        token => other_in(alloc, token, reader),
    }
}

/// What a text of UTF-8 is.
pub(crate) fn text_in<'a>(
    alloc: Global,
    text: &'a str,
    scratch: &'a mut Scratch,
) -> Result<Listed<'a>, AllocError>
    ensures { IfOk result (λ listed. ListsText (read text.now) listed) }
{
    let mut reader = Reader::new(text, scratch)?;
    let listed = first_in(alloc, &mut reader)?;
    if reader.next().is_some() {
        return Ok(Listed::Syntax);
    }
    Ok(listed)
}
