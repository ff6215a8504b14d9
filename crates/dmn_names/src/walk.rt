//! A walk over the lists of names within a model.
ghost use Rattle.std.specs.Prelude.{◌≡◌, ◌∷◌, IfOk, Bool, List, map};
ghost use Rattle.std.specs.List.{list_any, flat_map};
ghost use Rattle.dmn_form.specs.Model.{Name};
ghost use Rattle.dmn_form.specs.LogicView.{logic_view};
ghost use Rattle.dmn_form.specs.ModelView.{decision_view, service_view, model_view};
ghost use Rattle.dmn_names.specs.Parts.{lists_in, decision_lists, service_lists, service_names, part_lists};
ghost use Rattle.dmn_names.specs.Views.{member_lists_view, entry_lists_view, context_lists_view};

use crate::named::Named;
use dmn_form::{WrittenDecision, WrittenLogic, WrittenModel, WrittenService};

/// What is asked of a list of names.
pub(crate) trait Question {
    /// Why there may be no answer.
    type Error;

    ghost is_so: { List Name → Bool };

    /// Whether it is so of the names of these.
    fn is_so_of<T: Named>(&self, items: &[T]) -> Result<bool, Self::Error>
        ensures { IfOk result (λ b. b ≡ is_so (map T.name_of items.now)) };
}

/// Whether it is so of a list of names within the boxed expression.
#[cycle(walk)]
fn is_in_logic<Q: Question>(question: &Q, logic: &WrittenLogic) -> Result<bool, Q::Error>
    ensures { IfOk result (λ b. b ≡ list_any Q.is_so (lists_in (logic_view logic.now))) }
{
    match logic {
        WrittenLogic::Expression(_) => Ok(false),
        WrittenLogic::Table(table) => {
            let is_so = question.is_so_of(&table.outputs)?;
            Ok(is_so)
        }
        WrittenLogic::List(members) => {
            let is_so = is_in_members(question, members)?;
            Ok(is_so)
        }
        WrittenLogic::Context(entries) => {
            let is_so = is_in_context(question, entries)?;
            Ok(is_so)
        }
        WrittenLogic::ContextWith(entries, result) => {
            if is_in_context(question, entries)? {
                return Ok(true);
            }
            let is_so = is_in_logic(question, result)?;
            Ok(is_so)
        }
    }
}

#[cycle(walk)]
fn is_in_members<Q: Question>(question: &Q, members: &[WrittenLogic]) -> Result<bool, Q::Error>
    ensures { IfOk result (λ b. b ≡ list_any Q.is_so (member_lists_view members.now)) }
{
    for member in members {
        if is_in_logic(question, member)? {
            return Ok(true);
        }
    }
    Ok(false)
}

/// Whether it is so of the names of the entries, or of a list within one of them.
#[cycle(walk)]
fn is_in_context<Q: Question>(
    question: &Q,
    entries: &[(String, WrittenLogic)],
) -> Result<bool, Q::Error>
    ensures { IfOk result (λ b. b ≡ list_any Q.is_so (context_lists_view entries.now)) }
{
    if question.is_so_of(entries)? {
        return Ok(true);
    }
    let is_so = is_in_entries(question, entries)?;
    Ok(is_so)
}

#[cycle(walk)]
fn is_in_entries<Q: Question>(
    question: &Q,
    entries: &[(String, WrittenLogic)],
) -> Result<bool, Q::Error>
    ensures { IfOk result (λ b. b ≡ list_any Q.is_so (entry_lists_view entries.now)) }
{
    for (_, logic) in entries {
        if is_in_logic(question, logic)? {
            return Ok(true);
        }
    }
    Ok(false)
}

fn is_in_decision<Q: Question>(question: &Q, decision: &WrittenDecision) -> Result<bool, Q::Error>
    ensures { IfOk result (λ b. b ≡ list_any Q.is_so (decision_lists (decision_view decision.now))) }
{
    if question.is_so_of(&decision.needs)? {
        return Ok(true);
    }
    let is_so = is_in_logic(question, &decision.logic)?;
    Ok(is_so)
}

fn is_in_decisions<Q: Question>(
    question: &Q,
    decisions: &[WrittenDecision],
) -> Result<bool, Q::Error>
    ensures { IfOk result (λ b. b ≡ list_any Q.is_so (flat_map decision_lists (map decision_view decisions.now))) }
{
    for decision in decisions {
        if is_in_decision(question, decision)? {
            return Ok(true);
        }
    }
    Ok(false)
}

fn is_in_service<Q: Question>(question: &Q, service: &WrittenService) -> Result<bool, Q::Error>
    ensures { IfOk result (λ b. b ≡ list_any Q.is_so (service_lists (service_view service.now))) }
{
    if question.is_so_of(&service.outputs)? {
        return Ok(true);
    }
    if question.is_so_of(&service.encapsulated)? {
        return Ok(true);
    }
    if question.is_so_of(&service.input_decisions)? {
        return Ok(true);
    }
    let is_so = question.is_so_of(&service.input_data)?;
    Ok(is_so)
}

fn is_in_services<Q: Question>(question: &Q, services: &[WrittenService]) -> Result<bool, Q::Error>
    ensures { IfOk result (λ b. b ≡ list_any Q.is_so (flat_map service_lists (map service_view services.now))) }
{
    for service in services {
        if is_in_service(question, service)? {
            return Ok(true);
        }
    }
    Ok(false)
}

#[tactic(auto, using(crate::proofs::Walks::any_of_both))]
fn is_in_parts<Q: Question>(question: &Q, model: &WrittenModel) -> Result<bool, Q::Error>
    ensures { IfOk result (λ b. b ≡ list_any Q.is_so (part_lists (model_view model.now))) }
{
    if is_in_decisions(question, &model.decisions)? {
        return Ok(true);
    }
    let is_so = is_in_services(question, &model.services)?;
    Ok(is_so)
}

/// Whether it is so of the names of the services, or of a list of names within a decision or a service. These are all lists of
/// names but for that of the inputs and decisions.
#[tactic(auto, using(crate::proofs::Walks::service_names_view))]
pub(crate) fn is_in_model<Q: Question>(question: &Q, model: &WrittenModel) -> Result<bool, Q::Error>
    ensures { IfOk result (λ b. b ≡ list_any Q.is_so (service_names (model_view model.now) ∷ part_lists (model_view model.now))) }
{
    if question.is_so_of(&model.services)? {
        return Ok(true);
    }
    let is_so = is_in_parts(question, model)?;
    Ok(is_so)
}
