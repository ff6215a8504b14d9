//! Texts, lists of texts, and objects with certain keys.
ghost use Rattle.std.specs.Prelude.{◌≡◌, IfOk, option_map, map, string_bytes, bytes_eq};
ghost use Rattle.std.specs.List.{list_any};
ghost use Rattle.serde_json.specs.View.{view};
ghost use Rattle.dmn_form.specs.Draft.{text_of as text_in, texts_of as texts_in};
ghost use Rattle.dmn_form.specs.FormView.{texts_view, texts_at_view, text_at_view, text_at_if_view, texts_at_if_view, is_object_with};

use serde_json::Value;
use std::alloc::{AllocError, Global};

/// A text.
pub(crate) fn text_of(json: &Value) -> Option<&str>
    ensures { option_map (λ s. s.now) result ≡ text_in (view json.now) }
{
    json.as_str()
}

/// A list of texts.
pub(crate) fn texts_of(alloc: Global, json: &Value) -> Result<Option<Vec<String>>, AllocError>
    ensures { IfOk result (λ o. option_map texts_view o ≡ texts_in (view json.now)) }
{
    let Value::Array(items) = json else {
        return Ok(None);
    };
    let mut texts = Vec::with_capacity(alloc, items.len())?;
    for item in items {
        let Some(text) = text_of(item) else {
            return Ok(None);
        };
        texts.push(String::from_str(alloc, text)?)?;
    }
    Ok(Some(texts))
}

/// A copy of the text under a key that must be there.
pub(crate) fn text_at(alloc: Global, json: &Value, key: &str) -> Result<Option<String>, AllocError>
    ensures { IfOk result (λ o. option_map string_bytes o ≡ text_at_view key.now (view json.now)) }
{
    let Some(found) = json.get(key) else {
        return Ok(None);
    };
    let Some(text) = text_of(found) else {
        return Ok(None);
    };
    Ok(Some(String::from_str(alloc, text)?))
}

/// The list of texts under a key that must be there.
pub(crate) fn texts_at(
    alloc: Global,
    json: &Value,
    key: &str,
) -> Result<Option<Vec<String>>, AllocError>
    ensures { IfOk result (λ o. option_map texts_view o ≡ texts_at_view key.now (view json.now)) }
{
    let Some(found) = json.get(key) else {
        return Ok(None);
    };
    let texts = texts_of(alloc, found)?;
    Ok(texts)
}

/// The list of texts under a key, which is empty where the key is left out.
pub(crate) fn texts_at_if(
    alloc: Global,
    json: &Value,
    key: &str,
) -> Result<Option<Vec<String>>, AllocError>
    ensures { IfOk result (λ o. option_map texts_view o ≡ texts_at_if_view key.now (view json.now)) }
{
    let Some(found) = json.get(key) else {
        return Ok(Some(Vec::new(alloc)));
    };
    let texts = texts_of(alloc, found)?;
    Ok(texts)
}

/// A copy of the text under a key, and none where the key is left out.
pub(crate) fn text_at_if(
    alloc: Global,
    json: &Value,
    key: &str,
) -> Result<Option<Option<String>>, AllocError>
    ensures { IfOk result (λ o. option_map (option_map string_bytes) o ≡ text_at_if_view key.now (view json.now)) }
{
    let Some(found) = json.get(key) else {
        return Ok(Some(None));
    };
    let Some(text) = text_of(found) else {
        return Ok(None);
    };
    Ok(Some(Some(String::from_str(alloc, text)?)))
}

/// Whether it is an object with no other keys than these.
pub(crate) fn has_only(json: &Value, keys: &[&str]) -> bool
    ensures { result ≡ is_object_with (map (λ k. k.now) keys.now) (view json.now) }
{
    let Value::Object(members) = json else {
        return false;
    };
    for (key, _member) in members.iter() {
        if !is_among(key.as_str(), keys) {
            return false;
        }
    }
    true
}

fn is_among(key: &str, keys: &[&str]) -> bool
    ensures { result ≡ list_any (bytes_eq key.now) (map (λ k. k.now) keys.now) }
{
    for known in keys {
        if key == *known {
            return true;
        }
    }
    false
}
