//! Cutting a text into tokens, once from left to right.

ghost use Rattle.std.specs.Prelude.{◌≡◌, ◌≤◌, ◌<◌, ◌+◌, ℕ, false, List, [], ◌∷◌, length, take, drop, string_bytes, IfOk, IfSome, IsErrOf};
ghost use Rattle.std.specs.Str.{IsCharBoundary};
ghost use Rattle.feel_text.specs.Gives.{Gives};
ghost use Rattle.feel_text.specs.Lexical.{IsCut, escaped, is_blank, is_digit, is_word_byte, keyword_of};
ghost use Rattle.feel_text.specs.Scanning.{is_plain, number_of, pair_of, plain_length, run_at, run_length, run_token, sign_at, sign_of, single_at, string_at, text_at, token_at};
ghost use Rattle.feel_text.specs.Token as token_specs;
ghost use Rattle.feel_text.specs.Token.{views};
ghost use Rattle.feel_text.specs.declared.fault.ReadFault.TheVariants.{Syntax};

use crate::fault::ReadFault;
use crate::needs::Needs;
use crate::reference::Reference;
use crate::token::{Sign, Token, Word};
use std::alloc::Global;

// The greatest number that a text may write.
const GREATEST_NUMBER: u64 = 9223372036854775807;

// Space, tab, carriage return or newline.
fn is_blank(byte: u8) -> bool
    ensures { result ≡ is_blank byte }
{
    byte == b' ' || byte == b'\t' || byte == b'\r' || byte == b'\n'
}

pub(crate) fn is_digit(byte: u8) -> bool
    ensures { result ≡ is_digit byte }
{
    b'0' <= byte && byte <= b'9'
}

// A byte of a number, a name or a keyword.
pub(crate) fn is_word_byte(byte: u8) -> bool
    ensures { result ≡ is_word_byte byte }
{
    is_digit(byte) || b'A' <= byte && byte <= b'Z' || b'a' <= byte && byte <= b'z' || byte == b'_'
}

// The keyword that a word is.
pub(crate) fn keyword_of(word: &str) -> Option<Word>
    ensures { result ≡ keyword_of word.now }
{
    match word {
        "if" => Some(Word::If),
        "then" => Some(Word::Then),
        "else" => Some(Word::Else),
        "and" => Some(Word::And),
        "or" => Some(Word::Or),
        "not" => Some(Word::Not),
        "between" => Some(Word::Between),
        "null" => Some(Word::Null),
        "true" => Some(Word::True),
        "false" => Some(Word::False),
        _ => None,
    }
}

// The number that digits write, where it is within the limit.
fn number_of(word: &str) -> Option<u64>
    ensures { result ≡ number_of word.now }
{
    let mut value: u64 = 0;
    for byte in word.as_bytes() {
        if !is_digit(*byte) {
            return None;
        }
        let digit = u64::from(*byte - b'0');
        if value > (GREATEST_NUMBER - digit) / 10 {
            return None;
        }
        value = 10 * value + digit;
    }
    Some(value)
}

// How many bytes the run of word bytes at the start has.
fn run_length(text: &str) -> usize
    ensures length { result ≡ run_length text.now }
    ensures boundary { IsCharBoundary text.now result }
{
    for (i, byte) in text.as_bytes().iter().enumerate() {
        if !is_word_byte(*byte) {
            return i;
        }
    }
    text.len()
}

// The token that a run of word bytes is.
#[tactic(auto, unfolding(crate::specs::Scanning::run_token, crate::specs::Scanning::number_token, crate::specs::Scanning::word_token))]
fn run_token(alloc: Global, digit: bool, word: &str, needs: &Needs) -> Result<Token, ReadFault>
    ensures { Gives token_specs.view result (run_token digit word.now) }
{
    if digit {
        let Some(number) = number_of(word) else {
            return Err(ReadFault::Syntax);
        };
        return Ok(Token::Number(number));
    }
    if let Some(keyword) = keyword_of(word) {
        return Ok(Token::Keyword(keyword));
    }
    if word.len() > 64 {
        return Err(ReadFault::Syntax);
    }
    Ok(Token::Name(Reference::under(alloc, word, needs)?))
}

// The token of word bytes at the start.
#[tactic(auto, unfolding(crate::specs::Scanning::run_at))]
fn run<'a>(
    alloc: Global,
    digit: bool,
    text: &'a str,
    needs: &Needs,
) -> Result<(Token, &'a str), ReadFault>
    ensures { Gives (λ x. (token_specs.view x.0, x.1.now)) result (run_at digit text.now) }
{
    let (word, rest) = text.split_at(run_length(text));
    let token = run_token(alloc, digit, word, needs)?;
    Ok((token, rest))
}

// The sign of two bytes.
#[tactic(auto, unfolding(crate::specs::Scanning::pair_of))]
fn pair_of(first: u8, second: u8) -> Option<Sign>
    ensures sign { result ≡ pair_of first second }
    ensures ascii { IfSome result (λ _. second < 128) }
{
    match (first, second) {
        (b'!', b'=') => Some(Sign::NotEqual),
        (b'<', b'=') => Some(Sign::LessEqual),
        (b'>', b'=') => Some(Sign::GreaterEqual),
        (b'.', b'.') => Some(Sign::DotDot),
        _ => None,
    }
}

// The sign of one byte.
#[tactic(auto, unfolding(crate::specs::Scanning::sign_of))]
fn sign_of(byte: u8) -> Option<Sign>
    ensures { result ≡ sign_of byte }
{
    match byte {
        b'+' => Some(Sign::Plus),
        b'-' => Some(Sign::Minus),
        b'*' => Some(Sign::Star),
        b'=' => Some(Sign::Equal),
        b'<' => Some(Sign::Less),
        b'>' => Some(Sign::Greater),
        b'(' => Some(Sign::OpenParen),
        b')' => Some(Sign::CloseParen),
        b'[' => Some(Sign::OpenBracket),
        b']' => Some(Sign::CloseBracket),
        b',' => Some(Sign::Comma),
        b'.' => Some(Sign::Dot),
        _ => None,
    }
}

#[tactic(auto, unfolding(crate::specs::Scanning::single_at))]
fn single<'a>(first: u8, rest: &'a str) -> Result<(Token, &'a str), ReadFault>
    ensures { Gives (λ x. (token_specs.view x.0, x.1.now)) result (single_at first rest.now) }
{
    let Some(sign) = sign_of(first) else {
        return Err(ReadFault::Syntax);
    };
    Ok((Token::Symbol(sign), rest))
}

// The longest sign, after its first byte.
#[tactic(auto, unfolding(crate::specs::Scanning::sign_at), using(crate::proofs::Runs::after_first))]
fn sign<'a>(first: u8, rest: &'a str) -> Result<(Token, &'a str), ReadFault>
    ensures { Gives (λ x. (token_specs.view x.0, x.1.now)) result (sign_at first rest.now) }
{
    let Some((second, _)) = rest.as_bytes().split_first() else {
        return single(first, rest);
    };
    let Some(sign) = pair_of(first, *second) else {
        return single(first, rest);
    };
    Ok((Token::Symbol(sign), &rest[1..]))
}

// The character that stands behind a \.
fn escaped(byte: u8) -> Option<char>
    ensures { result ≡ escaped byte }
{
    match byte {
        b'"' => Some('"'),
        b'\\' => Some('\\'),
        b'n' => Some('\n'),
        b'r' => Some('\r'),
        b't' => Some('\t'),
        _ => None,
    }
}

// A byte of a string that stands for itself.
fn is_plain(byte: u8) -> bool
    ensures { result ≡ is_plain byte }
{
    byte != b'"' && byte != b'\\'
}

// How many bytes come before the first quote or \.
fn plain_length(text: &str) -> usize
    ensures length { result ≡ plain_length text.now }
    ensures boundary { IsCharBoundary text.now result }
{
    for (i, byte) in text.as_bytes().iter().enumerate() {
        if !is_plain(*byte) {
            return i;
        }
    }
    text.len()
}

// What a string stands for, after its first quote.
fn string<'a>(alloc: Global, text: &'a str) -> Result<(String, &'a str), ReadFault>
    ensures { Gives (λ x. (string_bytes x.0, x.1.now)) result (text_at false text.now) }
{
    let mut content = String::new(alloc);
    let mut rest = text;
    while !rest.is_empty() {
        let (plain, after) = rest.split_at(plain_length(rest));
        content.push_str(plain)?;
        let Some((mark, behind)) = after.as_bytes().split_first() else {
            return Err(ReadFault::Syntax);
        };
        if *mark == b'"' {
            return Ok((content, &after[1..]));
        }
        let Some((byte, _)) = behind.split_first() else {
            return Err(ReadFault::Syntax);
        };
        let Some(character) = escaped(*byte) else {
            return Err(ReadFault::Syntax);
        };
        content.push(character)?;
        rest = &after[2..];
    }
    Err(ReadFault::Syntax)
}

// The first token of a text that begins with no blank, and what comes after it.
#[tactic(auto, unfolding(crate::specs::Scanning::token_at, crate::specs::Scanning::string_at), using(crate::proofs::Runs::after_first))]
fn token<'a>(alloc: Global, text: &'a str, needs: &Needs) -> Result<(Token, &'a str), ReadFault>
    ensures { Gives (λ x. (token_specs.view x.0, x.1.now)) result (token_at text.now) }
{
    let Some((first, _)) = text.as_bytes().split_first() else {
        return Err(ReadFault::Syntax);
    };
    if is_word_byte(*first) {
        return run(alloc, is_digit(*first), text, needs);
    }
    if *first == b'"' {
        let (content, rest) = string(alloc, &text[1..])?;
        return Ok((Token::Text(content), rest));
    }
    if *first >= 128 {
        return Err(ReadFault::Syntax);
    }
    sign(*first, &text[1..])
}

/// The tokens of a whole text, with the positions that its names have among the needed ones.
pub(crate) fn tokens(alloc: Global, text: &str, needs: &Needs) -> Result<Vec<Token>, ReadFault>
    ensures found { IfOk result (λ v. IsCut text.now (views v.items)) }
    ensures only { IfOk result
        (λ v. (ts : List token_specs.Token) → IsCut text.now ts → ts ≡ views v.items) }
    ensures none { IsErrOf result Syntax → (ts : List token_specs.Token) → IsCut text.now ts → ⊥ }
{
    let mut tokens = Vec::new(alloc);
    let mut rest = text;
    while let Some((first, _)) = rest.as_bytes().split_first() {
        if is_blank(*first) {
            rest = &rest[1..];
            continue;
        }
        let (token, after) = token(alloc, rest, needs)?;
        tokens.push(token)?;
        rest = after;
    }
    Ok(tokens)
}
