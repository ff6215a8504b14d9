//! The texts of expressions, unary tests and literals. Those of a decision are read under the names that it needs.
ghost use Rattle.std.specs.Prelude.{◌≡◌, IfOk, option_map, map, string_bytes};
ghost use Rattle.feel_text.specs.Readings.{expr_of, tests_of as tests_in, literal_of as literal_in};
ghost use Rattle.feel_value.specs.Found.{each};
ghost use Rattle.dmn_logic.specs.ReadLogic.{read_if};

use feel_lang::{Expr, Needs, ReadFault, Tests, read_expr_under, read_literal, read_tests_under};
use feel_value::Feel;
use std::alloc::{AllocError, Global};

/// The expression of a text, if it has one.
pub(crate) fn expression_of(
    alloc: Global,
    needs: &Needs,
    text: &str,
) -> Result<Option<Expr>, AllocError>
    ensures { IfOk result (λ o. o ≡ expr_of text.now) }
{
    match read_expr_under(alloc, text, needs) {
        Ok(expression) => Ok(Some(expression)),
        Err(ReadFault::Syntax) => Ok(None),
        Err(ReadFault::Memory) => Err(AllocError),
    }
}

/// The unary tests of a text, if it has them.
fn tests_of(alloc: Global, needs: &Needs, text: &str) -> Result<Option<Tests>, AllocError>
    ensures { IfOk result (λ o. o ≡ tests_in text.now) }
{
    match read_tests_under(alloc, text, needs) {
        Ok(tests) => Ok(Some(tests)),
        Err(ReadFault::Syntax) => Ok(None),
        Err(ReadFault::Memory) => Err(AllocError),
    }
}

/// The literal of a text, if it has one.
fn literal_of(alloc: Global, text: &str) -> Result<Option<Feel>, AllocError>
    ensures { IfOk result (λ o. o ≡ literal_in text.now) }
{
    match read_literal(alloc, text) {
        Ok(value) => Ok(Some(value)),
        Err(ReadFault::Syntax) => Ok(None),
        Err(ReadFault::Memory) => Err(AllocError),
    }
}

/// The expression of a text that may be left out.
pub(crate) fn expression_if(
    alloc: Global,
    needs: &Needs,
    text: &Option<String>,
) -> Result<Option<Option<Expr>>, AllocError>
    ensures { IfOk result (λ o. o ≡ read_if (option_map string_bytes text.now)) }
{
    let Some(text) = text else {
        return Ok(Some(None));
    };
    match expression_of(alloc, needs, text.as_str())? {
        Some(expression) => Ok(Some(Some(expression))),
        None => Ok(None),
    }
}

/// The expressions of texts, if each has one.
pub(crate) fn expressions_of(
    alloc: Global,
    needs: &Needs,
    texts: &[String],
) -> Result<Option<Vec<Expr>>, AllocError>
    ensures { IfOk result (λ o. option_map (λ v. v.items) o ≡ each expr_of (map string_bytes texts.now)) }
{
    let mut expressions = Vec::with_capacity(alloc, texts.len())?;
    for text in texts {
        let Some(expression) = expression_of(alloc, needs, text.as_str())? else {
            return Ok(None);
        };
        expressions.push(expression)?;
    }
    Ok(Some(expressions))
}

/// The unary tests of texts, if each has them.
pub(crate) fn all_tests_of(
    alloc: Global,
    needs: &Needs,
    texts: &[String],
) -> Result<Option<Vec<Tests>>, AllocError>
    ensures { IfOk result (λ o. option_map (λ v. v.items) o ≡ each tests_in (map string_bytes texts.now)) }
{
    let mut entries = Vec::with_capacity(alloc, texts.len())?;
    for text in texts {
        let Some(tests) = tests_of(alloc, needs, text.as_str())? else {
            return Ok(None);
        };
        entries.push(tests)?;
    }
    Ok(Some(entries))
}

/// The literals of texts, if each has one.
pub(crate) fn literals_of(alloc: Global, texts: &[String]) -> Result<Option<Vec<Feel>>, AllocError>
    ensures { IfOk result (λ o. option_map (λ v. v.items) o ≡ each literal_in (map string_bytes texts.now)) }
{
    let mut values = Vec::with_capacity(alloc, texts.len())?;
    for text in texts {
        let Some(value) = literal_of(alloc, text.as_str())? else {
            return Ok(None);
        };
        values.push(value)?;
    }
    Ok(Some(values))
}
