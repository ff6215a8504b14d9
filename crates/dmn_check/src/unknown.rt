//! Needed names that are neither inputs nor decisions.
ghost use Rattle.std.specs.Prelude.{◌≡◌, not, OnOk, IfOk, map, string_bytes, nat_lt};
ghost use Rattle.feel_value.specs.Distinct.{is_among};
ghost use Rattle.dmn_form.specs.ModelView.{decision_view, model_view};
ghost use Rattle.dmn_names.specs.Names.{has_unknown_name};
ghost use Rattle.dmn_names.specs.Parts.{value_names};
ghost use Rattle.dmn_names.specs.PlacedModel.{placed_model};
ghost use Rattle.dmn_check.specs.Findings.{each_of};
ghost use Rattle.dmn_check.specs.Notes.{with_all};
ghost use Rattle.dmn_check.specs.NotesView.{notes_view};
ghost use Rattle.dmn_check.specs.Told.{first_of};
ghost use Rattle.dmn_check.specs.ToldView.{told_view};
ghost use Rattle.dmn_check.specs.Unknown.{unknown_name, unknown_needs, unknown_names as unknown_names_in};

use crate::finding::Mistake;
use crate::notes::Notes;
use crate::place::{Key, Step};
use crate::told::Told;
use dmn_form::{WrittenDecision, WrittenModel};
use dmn_names::Places;
use std::alloc::{AllocError, Global};

/// Whether the name is neither an input's nor a decision's.
#[tactic(auto, using(crate::proofs::UnknownLaws::no_place))]
fn is_unknown(places: &Places, name: &str) -> bool
    ensures { result ≡ not (is_among (value_names (placed_model places.now)) name.now) }
{
    places.of(name).is_none()
}

/// Notes the needed name that is here, if it is unknown.
fn note_name(notes: &mut Notes, places: &Places, name: &str) -> Result<(), AllocError>
    ensures { OnOk result (with_all (notes_view notes.old) (unknown_name (placed_model places.now) name.now) ≡ notes_view notes.new) }
{
    if !is_unknown(places, name) {
        return Ok(());
    }
    notes.note(Mistake::Unknown)?;
    Ok(())
}

fn note_names(notes: &mut Notes, places: &Places, names: &[String]) -> Result<(), AllocError>
    ensures { OnOk result (with_all (notes_view notes.old) (each_of (unknown_name (placed_model places.now)) (map string_bytes names.now)) ≡ notes_view notes.new) }
{
    for (index, name) in names.iter().enumerate() {
        notes.enter(Step::Index(index))?;
        note_name(notes, places, name.as_str())?;
        notes.leave();
    }
    Ok(())
}

/// Notes what a decision needs that is unknown.
fn note_needs(
    notes: &mut Notes,
    places: &Places,
    decision: &WrittenDecision,
) -> Result<(), AllocError>
    ensures { OnOk result (with_all (notes_view notes.old) (unknown_needs (placed_model places.now) (decision_view decision.now)) ≡ notes_view notes.new) }
{
    notes.enter(Step::Key(Key::Needs))?;
    note_names(notes, places, &decision.needs)?;
    notes.leave();
    Ok(())
}

fn note_decisions(
    notes: &mut Notes,
    places: &Places,
    decisions: &[WrittenDecision],
) -> Result<(), AllocError>
    ensures { OnOk result (with_all (notes_view notes.old) (each_of (unknown_needs (placed_model places.now)) (map decision_view decisions.now)) ≡ notes_view notes.new) }
{
    for (index, decision) in decisions.iter().enumerate() {
        notes.enter(Step::Index(index))?;
        note_needs(notes, places, decision)?;
        notes.leave();
    }
    Ok(())
}

/// The needed names that are neither inputs nor decisions.
pub fn unknown_names(alloc: Global, model: &WrittenModel) -> Result<Told, AllocError>
    ensures places { IfOk result (λ t. told_view t ≡ first_of (unknown_names_in (model_view model.now))) }
    ensures fault { IfOk result (λ t. nat_lt 0 t.count ≡ has_unknown_name (model_view model.now)) }
{
    let places = Places::new(alloc, model)?;
    let mut notes = Notes::new(alloc);
    notes.enter(Step::Key(Key::Decisions))?;
    note_decisions(&mut notes, &places, &model.decisions)?;
    notes.leave();
    Ok(Told::of(notes))
}
