//! Names that are not lawful, and names that stand twice.
ghost use Rattle.std.specs.Prelude.{◌≡◌, ◌≤◌, OnOk, IfOk, map, string_bytes, length, nat_lt};
ghost use Rattle.dmn_form.specs.FormView.{table_view};
ghost use Rattle.dmn_form.specs.ModelView.{decision_view, service_view, model_view};
ghost use Rattle.dmn_names.specs.Names.{has_bad_name, has_name_twice};
ghost use Rattle.dmn_names.specs.Parts.{output_names, value_names, service_names};
ghost use Rattle.dmn_check.specs.declared.place.Step.TheVariants as step;
ghost use Rattle.dmn_check.specs.declared.place.Key.TheVariants as key;
ghost use Rattle.dmn_check.specs.Findings.{behind, each_of};
ghost use Rattle.dmn_check.specs.NameFaults.{marks, in_named, under, of_values, of_heads, of_parts, within_decision, within_service, name_faults, unlawful_names as unlawful_names_in, repeated_names as repeated_names_in};
ghost use Rattle.dmn_check.specs.Notes.{with_all};
ghost use Rattle.dmn_check.specs.NotesView.{notes_view};
ghost use Rattle.dmn_check.specs.Told.{first_of};
ghost use Rattle.dmn_check.specs.ToldView.{told_view};

use crate::look::Look;
use crate::marks::{NameFault, marks_of, note_named, note_texts};
use crate::notes::Notes;
use crate::place::{Key, Step};
use crate::told::Told;
use crate::walk::walk_logic;
use dmn_form::{WrittenDecision, WrittenLogic, WrittenModel, WrittenService, WrittenTable};
use dmn_names::{Named, names_of_values};
use std::alloc::{AllocError, Global};

/// Notes the names with the fault in the array of texts under a key.
fn note_under(
    alloc: Global,
    notes: &mut Notes,
    fault: NameFault,
    key: Key,
    texts: &[String],
) -> Result<(), AllocError>
    ensures { OnOk result (with_all (notes_view notes.old) (under fault key (map string_bytes texts.now)) ≡ notes_view notes.new) }
{
    let marks = marks_of(alloc, fault, texts)?;
    notes.enter(Step::Key(key))?;
    note_texts(notes, fault, &marks)?;
    notes.leave();
    Ok(())
}

/// Notes the names with the fault in the array of named objects that is here.
fn note_objects<T: Named>(
    alloc: Global,
    notes: &mut Notes,
    fault: NameFault,
    items: &[T],
) -> Result<(), AllocError>
    ensures { OnOk result (with_all (notes_view notes.old) (in_named fault (marks fault (map T.name_of items.now))) ≡ notes_view notes.new) }
{
    let marks = marks_of(alloc, fault, items)?;
    note_named(notes, fault, &marks)?;
    Ok(())
}

/// Notes the output columns of a table whose names have the fault.
fn note_outputs(
    alloc: Global,
    notes: &mut Notes,
    fault: NameFault,
    table: &WrittenTable,
) -> Result<(), AllocError>
    ensures { OnOk result (with_all (notes_view notes.old) (behind (step.Key key.Outputs) (in_named fault (marks fault (output_names (table_view table.now))))) ≡ notes_view notes.new) }
{
    notes.enter(Step::Key(Key::Outputs))?;
    note_objects(alloc, notes, fault, &table.outputs)?;
    notes.leave();
    Ok(())
}

/// A fault of names looks for the names that have it.
impl Look for NameFault {
    ghost use Rattle.dmn_check.specs.NameFaults.{names_look};

    ghost look = { names_look };

    fn text(&self, _alloc: Global, _notes: &mut Notes, _text: &str) -> Result<(), AllocError> {
        Ok(())
    }

    fn table(
        &self,
        alloc: Global,
        notes: &mut Notes,
        table: &WrittenTable,
    ) -> Result<(), AllocError> {
        note_outputs(alloc, notes, *self, table)?;
        Ok(())
    }

    fn entries(
        &self,
        alloc: Global,
        notes: &mut Notes,
        entries: &[(String, WrittenLogic)],
    ) -> Result<(), AllocError> {
        note_objects(alloc, notes, *self, entries)?;
        Ok(())
    }
}

/// Notes the names with the fault among the needs of a decision and within its logic.
fn note_decision(
    alloc: Global,
    notes: &mut Notes,
    fault: NameFault,
    decision: &WrittenDecision,
) -> Result<(), AllocError>
    ensures { OnOk result (with_all (notes_view notes.old) (within_decision fault (decision_view decision.now)) ≡ notes_view notes.new) }
{
    note_under(alloc, notes, fault, Key::Needs, &decision.needs)?;
    notes.enter(Step::Key(Key::Expr))?;
    walk_logic(alloc, notes, &fault, &decision.logic)?;
    notes.leave();
    Ok(())
}

fn note_decisions(
    alloc: Global,
    notes: &mut Notes,
    fault: NameFault,
    decisions: &[WrittenDecision],
) -> Result<(), AllocError>
    ensures { OnOk result (with_all (notes_view notes.old) (each_of (within_decision fault) (map decision_view decisions.now)) ≡ notes_view notes.new) }
{
    for (index, decision) in decisions.iter().enumerate() {
        notes.enter(Step::Index(index))?;
        note_decision(alloc, notes, fault, decision)?;
        notes.leave();
    }
    Ok(())
}

/// Notes the names with the fault in the lists of a service.
fn note_service(
    alloc: Global,
    notes: &mut Notes,
    fault: NameFault,
    service: &WrittenService,
) -> Result<(), AllocError>
    ensures { OnOk result (with_all (notes_view notes.old) (within_service fault (service_view service.now)) ≡ notes_view notes.new) }
{
    note_under(alloc, notes, fault, Key::Outputs, &service.outputs)?;
    note_under(
        alloc,
        notes,
        fault,
        Key::Encapsulated,
        &service.encapsulated,
    )?;
    note_under(
        alloc,
        notes,
        fault,
        Key::InputDecisions,
        &service.input_decisions,
    )?;
    note_under(alloc, notes, fault, Key::InputData, &service.input_data)?;
    Ok(())
}

fn note_services(
    alloc: Global,
    notes: &mut Notes,
    fault: NameFault,
    services: &[WrittenService],
) -> Result<(), AllocError>
    ensures { OnOk result (with_all (notes_view notes.old) (each_of (within_service fault) (map service_view services.now)) ≡ notes_view notes.new) }
{
    for (index, service) in services.iter().enumerate() {
        notes.enter(Step::Index(index))?;
        note_service(alloc, notes, fault, service)?;
        notes.leave();
    }
    Ok(())
}

/// Notes the marked inputs and decisions. The first marks are those of the inputs.
fn note_values(
    notes: &mut Notes,
    fault: NameFault,
    inputs: usize,
    marks: &[bool],
) -> Result<(), AllocError>
    requires { inputs ≤ length marks.now }
    ensures { OnOk result (with_all (notes_view notes.old) (of_values fault inputs marks.now) ≡ notes_view notes.new) }
{
    let (of_inputs, of_decisions) = marks.split_at(inputs);
    notes.enter(Step::Key(Key::Inputs))?;
    note_texts(notes, fault, of_inputs)?;
    notes.leave();
    notes.enter(Step::Key(Key::Decisions))?;
    note_named(notes, fault, of_decisions)?;
    notes.leave();
    Ok(())
}

/// Notes the inputs, the decisions and the services whose names have the fault.
fn note_heads(
    alloc: Global,
    notes: &mut Notes,
    fault: NameFault,
    model: &WrittenModel,
) -> Result<(), AllocError>
    ensures { OnOk result (with_all (notes_view notes.old) (of_heads fault (model_view model.now)) ≡ notes_view notes.new) }
{
    let names = names_of_values(alloc, model)?;
    let marks = marks_of(alloc, fault, &names)?;
    note_values(notes, fault, model.inputs.len(), &marks)?;
    notes.enter(Step::Key(Key::Services))?;
    note_objects(alloc, notes, fault, &model.services)?;
    notes.leave();
    Ok(())
}

/// Notes the names with the fault within the decisions and within the services.
fn note_parts(
    alloc: Global,
    notes: &mut Notes,
    fault: NameFault,
    model: &WrittenModel,
) -> Result<(), AllocError>
    ensures { OnOk result (with_all (notes_view notes.old) (of_parts fault (model_view model.now)) ≡ notes_view notes.new) }
{
    notes.enter(Step::Key(Key::Decisions))?;
    note_decisions(alloc, notes, fault, &model.decisions)?;
    notes.leave();
    notes.enter(Step::Key(Key::Services))?;
    note_services(alloc, notes, fault, &model.services)?;
    notes.leave();
    Ok(())
}

fn told_names(alloc: Global, fault: NameFault, model: &WrittenModel) -> Result<Told, AllocError>
    ensures { IfOk result (λ t. told_view t ≡ first_of (name_faults fault (model_view model.now))) }
{
    let mut notes = Notes::new(alloc);
    note_heads(alloc, &mut notes, fault, model)?;
    note_parts(alloc, &mut notes, fault, model)?;
    Ok(Told::of(notes))
}

/// The texts in the place of a name that are no names, list by list: the inputs and decisions, the services, and then the lists
/// within each decision and each service.
pub fn unlawful_names(alloc: Global, model: &WrittenModel) -> Result<Told, AllocError>
    ensures places { IfOk result (λ t. told_view t ≡ first_of (unlawful_names_in (model_view model.now))) }
    ensures fault { IfOk result (λ t. nat_lt 0 t.count ≡ has_bad_name (model_view model.now)) }
{
    let told = told_names(alloc, NameFault::Unlawful, model)?;
    Ok(told)
}

/// The names that stand twice where they may stand once: each but the first of its name, list by list, in the order of
/// `unlawful_names`.
pub fn repeated_names(alloc: Global, model: &WrittenModel) -> Result<Told, AllocError>
    ensures places { IfOk result (λ t. told_view t ≡ first_of (repeated_names_in (model_view model.now))) }
    ensures fault { IfOk result (λ t. nat_lt 0 t.count ≡ has_name_twice (model_view model.now)) }
{
    let told = told_names(alloc, NameFault::Repeated, model)?;
    Ok(told)
}
