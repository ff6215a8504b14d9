//! What is declared beside a model: the domains of its inputs.
ghost use Rattle.std.specs.Prelude.{◌≡◌, ◌&&◌, ◌++◌, [], ◌∷◌, None, Some, IfOk, OnOk, map, nat_eq, option_map};
ghost use Rattle.serde_json.specs.View.{members_view, view};
ghost use Rattle.dmn_form.specs.ModelView.{model_view};
ghost use Rattle.dmn_names.specs.PlacedModel.{placed_model};
ghost use Rattle.desk_checking.specs.Domains.{constant_tests as constant_tests_of, declared_as, declared_of, domain_view, domains_among, first_name as first_name_of, has_empty_part as has_empty_part_of, refused_among, with_domain, with_refused};
ghost use Rattle.desk_checking.specs.DomainsView.{IsBeside, domain_views, name_views};

use crate::constant::have_constants;
use dmn_form::WrittenModel;
use dmn_names::Places;
use dmn_told::Domain;
use feel_text::{ReadFault, Tests, read_tests};
use serde_json::{Map, Value};
use std::alloc::{AllocError, Global};

/// What is declared beside a model.
#[derive(Drop)]
pub(crate) struct Beside<'a> {
    /// The domains that can be read, in the order of their names.
    pub(crate) domains: Vec<Domain>,
    /// The names of the others. No name is the whole value, which is no object.
    pub(crate) refused: Vec<Option<&'a str>>,
}

/// The unary tests of constants that a text spells, if it does.
fn constant_tests(alloc: Global, text: &str) -> Result<Option<Tests>, AllocError>
    ensures { IfOk result (λ tests. tests ≡ constant_tests_of text.now) }
{
    match read_tests(alloc, text) {
        Ok(tests) => {
            if !have_constants(&tests) {
                return Ok(None);
            }
            Ok(Some(tests))
        }
        Err(ReadFault::Syntax) => Ok(None),
        Err(ReadFault::Memory) => Err(AllocError),
    }
}

/// What is declared under a name.
fn domain_as(alloc: Global, name: &str, json: &Value) -> Result<Option<Domain>, AllocError>
    ensures { IfOk result (λ domain. option_map domain_view domain ≡ declared_as name.now (view json.now)) }
{
    let Some(text) = json.as_str() else {
        return Ok(None);
    };
    let Some(tests) = constant_tests(alloc, text)? else {
        return Ok(None);
    };
    let name = String::from_str(alloc, name)?;
    Ok(Some(Domain { name, tests }))
}

/// The name that a path begins with.
fn first_name(path: &str) -> &str
    ensures { result.now ≡ first_name_of path.now }
{
    let Some(parts) = path.split_once('.') else {
        return path;
    };
    parts.0
}

/// Whether a byte ends a part of a path that is empty so far.
fn ends_empty(byte: u8, is_empty: bool) -> bool
    ensures { result ≡ nat_eq byte 46 && is_empty }
{
    byte == b'.' && is_empty
}

/// Whether a part of a path is empty.
fn has_empty_part(path: &str) -> bool
    ensures { result ≡ has_empty_part_of path.now }
{
    let bytes = path.as_bytes();
    let mut is_empty = true;
    for byte in bytes {
        if ends_empty(*byte, is_empty) {
            return true;
        }
        is_empty = *byte == b'.';
    }
    is_empty
}

/// What is declared under a name or a path, if it begins with the name of an input and no part of it is empty.
fn domain_of(
    alloc: Global,
    places: &Places,
    name: &str,
    json: &Value,
) -> Result<Option<Domain>, AllocError>
    ensures { IfOk result (λ domain. option_map domain_view domain ≡ declared_of (placed_model places.now) name.now (view json.now)) }
{
    if has_empty_part(name) {
        return Ok(None);
    }
    let first = first_name(name);
    if places.input(first).is_none() {
        return Ok(None);
    }
    let domain = domain_as(alloc, name, json)?;
    Ok(domain)
}

impl<'a> Beside<'a> {
    /// Nothing is declared.
    fn nothing(alloc: Global) -> Beside<'a>
        ensures domains { result.domains.items ≡ [] }
        ensures refused { result.refused.items ≡ [] }
    {
        Beside {
            domains: Vec::new(alloc),
            refused: Vec::new(alloc),
        }
    }

    /// Adds what is declared under a name, or that it can't be read.
    fn add(&mut self, name: &'a str, domain: Option<Domain>) -> Result<(), AllocError>
        ensures domains { OnOk result (domain_views self.new.domains.items ≡ domain_views self.old.domains.items ++ with_domain (option_map domain_view domain) []) }
        ensures refused { OnOk result (name_views self.new.refused.items ≡ name_views self.old.refused.items ++ map Some (with_refused name.now (option_map domain_view domain) [])) }
    {
        match domain {
            Some(domain) => {
                self.domains.push(domain)?;
                Ok(())
            }
            None => {
                self.refused.push(Some(name))?;
                Ok(())
            }
        }
    }
}

/// What these members declare.
fn beside_by<'a>(
    alloc: Global,
    places: &Places,
    members: &'a Map<String, Value>,
) -> Result<Beside<'a>, AllocError>
    ensures domains { IfOk result (λ beside. domain_views beside.domains.items ≡ domains_among (placed_model places.now) (members_view members.now.entries)) }
    ensures refused { IfOk result (λ beside. name_views beside.refused.items ≡ map Some (refused_among (placed_model places.now) (members_view members.now.entries))) }
{
    let mut beside = Beside::nothing(alloc);
    for (key, json) in members.iter() {
        let name = key.as_str();
        let domain = domain_of(alloc, places, name, json)?;
        beside.add(name, domain)?;
    }
    Ok(beside)
}

/// What is declared by a value that is no object.
fn no_object<'a>(alloc: Global) -> Result<Beside<'a>, AllocError>
    ensures domains { IfOk result (λ beside. beside.domains.items ≡ []) }
    ensures refused { IfOk result (λ beside. name_views beside.refused.items ≡ None ∷ []) }
{
    let mut beside = Beside::nothing(alloc);
    beside.refused.push(None)?;
    Ok(beside)
}

/// What is declared beside a model under `domains`. Each name is looked up in steps in proportion to the logarithm of how many inputs
/// there are.
pub(crate) fn declared_beside<'a>(
    alloc: Global,
    model: &WrittenModel,
    json: Option<&'a Value>,
) -> Result<Beside<'a>, AllocError>
    ensures { IfOk result (IsBeside (model_view model.now) (option_map (λ v. view v.now) json.entry)) }
{
    let Some(json) = json else {
        return Ok(Beside::nothing(alloc));
    };
    let Value::Object(members) = json else {
        return no_object(alloc);
    };
    let places = Places::new(alloc, model)?;
    let beside = beside_by(alloc, &places, members)?;
    Ok(beside)
}
