//! Decision tables as they are written.
ghost use Rattle.std.specs.Prelude.{◌≡◌, IfOk, option_map, map};
ghost use Rattle.serde_json.specs.View.{view};
ghost use Rattle.dmn_form.specs.Draft.{column_of as column_in, rule_of as rule_in, table_of as table_in};
ghost use Rattle.dmn_form.specs.FormView.{column_view, columns_view, rule_view, rules_view, table_view, columns_at_view, rules_at_view};

use crate::fields::{has_only, text_at, text_at_if, texts_at, texts_at_if};
use crate::written::{WrittenColumn, WrittenRule, WrittenTable};
use serde_json::Value;
use std::alloc::{AllocError, Global};

/// An output column.
fn column_of(alloc: Global, json: &Value) -> Result<Option<WrittenColumn>, AllocError>
    ensures { IfOk result (λ o. option_map column_view o ≡ column_in (view json.now)) }
{
    if !has_only(json, &["name", "values", "default"]) {
        return Ok(None);
    }
    let Some(name) = text_at(alloc, json, "name")? else {
        return Ok(None);
    };
    let Some(values) = texts_at_if(alloc, json, "values")? else {
        return Ok(None);
    };
    let Some(fallback) = text_at_if(alloc, json, "default")? else {
        return Ok(None);
    };
    Ok(Some(WrittenColumn {
        name,
        values,
        fallback,
    }))
}

/// The output columns under the key `outputs`.
fn columns_at(alloc: Global, json: &Value) -> Result<Option<Vec<WrittenColumn>>, AllocError>
    ensures { IfOk result (λ o. option_map columns_view o ≡ columns_at_view (view json.now)) }
{
    let Some(Value::Array(items)) = json.get("outputs") else {
        return Ok(None);
    };
    let mut columns = Vec::with_capacity(alloc, items.len())?;
    for item in items {
        let Some(column) = column_of(alloc, item)? else {
            return Ok(None);
        };
        columns.push(column)?;
    }
    Ok(Some(columns))
}

/// A rule.
fn rule_of(alloc: Global, json: &Value) -> Result<Option<WrittenRule>, AllocError>
    ensures { IfOk result (λ o. option_map rule_view o ≡ rule_in (view json.now)) }
{
    if !has_only(json, &["when", "then"]) {
        return Ok(None);
    }
    let Some(tests) = texts_at(alloc, json, "when")? else {
        return Ok(None);
    };
    let Some(gives) = texts_at(alloc, json, "then")? else {
        return Ok(None);
    };
    Ok(Some(WrittenRule { tests, gives }))
}

/// The rules under the key `rules`.
fn rules_at(alloc: Global, json: &Value) -> Result<Option<Vec<WrittenRule>>, AllocError>
    ensures { IfOk result (λ o. option_map rules_view o ≡ rules_at_view (view json.now)) }
{
    let Some(Value::Array(items)) = json.get("rules") else {
        return Ok(None);
    };
    let mut rules = Vec::with_capacity(alloc, items.len())?;
    for item in items {
        let Some(rule) = rule_of(alloc, item)? else {
            return Ok(None);
        };
        rules.push(rule)?;
    }
    Ok(Some(rules))
}

/// A decision table.
pub(crate) fn table_of(alloc: Global, json: &Value) -> Result<Option<WrittenTable>, AllocError>
    ensures { IfOk result (λ o. option_map table_view o ≡ table_in (view json.now)) }
{
    if !has_only(json, &["hit", "inputs", "outputs", "rules"]) {
        return Ok(None);
    }
    let Some(hit) = text_at(alloc, json, "hit")? else {
        return Ok(None);
    };
    let Some(inputs) = texts_at(alloc, json, "inputs")? else {
        return Ok(None);
    };
    let Some(outputs) = columns_at(alloc, json)? else {
        return Ok(None);
    };
    let Some(rules) = rules_at(alloc, json)? else {
        return Ok(None);
    };
    Ok(Some(WrittenTable {
        hit,
        inputs,
        outputs,
        rules,
    }))
}
