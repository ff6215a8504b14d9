//! The names that evaluating a decision may bind.
use dmn_form::{WrittenDecision, WrittenLogic};
use feel_lang::Needs;
use std::alloc::{AllocError, Global};
use std::collections::BTreeSet;

/// For each decision the names that it needs, and then those of the entries of its boxed contexts, each once. It is empty where it
/// has no such entries.
pub(crate) fn scopes_of(
    alloc: Global,
    decisions: &[WrittenDecision],
) -> Result<Vec<Needs>, AllocError> {
    let mut scopes = Vec::with_capacity(alloc, decisions.len())?;
    for decision in decisions {
        scopes.push(scope_of(alloc, decision)?)?;
    }
    Ok(scopes)
}

/// Under which names the logic of each decision is read: those of its scope, or where that is empty those that it needs.
pub(crate) fn known_names<'a>(
    alloc: Global,
    named: &'a [Needs],
    scopes: &'a [Needs],
) -> Result<Vec<&'a Needs>, AllocError> {
    let mut names = Vec::with_capacity(alloc, named.len())?;
    let mut scopes = scopes.iter();
    for needs in named {
        let known = match scopes.next() {
            Some(scope) if scope.len() > 0 => scope,
            _ => needs,
        };
        names.push(known)?;
    }
    Ok(names)
}

fn scope_of(alloc: Global, decision: &WrittenDecision) -> Result<Needs, AllocError> {
    let mut entries = Vec::new(alloc);
    add_names(&decision.logic, &mut entries)?;
    let mut scope = Needs::new(alloc);
    if entries.is_empty() {
        return Ok(scope);
    }
    let mut known = BTreeSet::new(alloc);
    for name in &decision.needs {
        add_once(name.as_str(), &mut known, &mut scope)?;
    }
    for name in entries {
        add_once(name, &mut known, &mut scope)?;
    }
    scope.put_in_order()?;
    Ok(scope)
}

/// Adds a name, unless it is known.
fn add_once<'a>(
    name: &'a str,
    known: &mut BTreeSet<&'a str>,
    scope: &mut Needs,
) -> Result<(), AllocError> {
    if known.insert(name)? {
        scope.push(name, 0)?;
    }
    Ok(())
}

/// Adds the names of the entries of all boxed contexts in the order in which they are bound.
#[cycle(names)]
fn add_names<'a>(logic: &'a WrittenLogic, names: &mut Vec<&'a str>) -> Result<(), AllocError> {
    match logic {
        WrittenLogic::Expression(_) | WrittenLogic::Table(_) => Ok(()),
        WrittenLogic::List(members) => {
            for member in members {
                add_names(member, names)?;
            }
            Ok(())
        }
        WrittenLogic::Context(entries) => add_names_of_entries(entries, names),
        WrittenLogic::ContextWith(entries, last) => {
            add_names_of_entries(entries, names)?;
            add_names(last, names)
        }
    }
}

#[cycle(names)]
fn add_names_of_entries<'a>(
    entries: &'a [(String, WrittenLogic)],
    names: &mut Vec<&'a str>,
) -> Result<(), AllocError> {
    for (name, logic) in entries {
        add_names(logic, names)?;
        names.push(name.as_str())?;
    }
    Ok(())
}
