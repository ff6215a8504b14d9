//! Decisions that need themselves.
ghost use Rattle.std.specs.Prelude.{◌≡◌, false, Some, OnOk, IfOk, IfSome, is_none, map, length, ◌<◌, nat_lt, slice_index_or};
ghost use Rattle.dmn_form.specs.declared.written.WrittenDecision.{WrittenDecision};
ghost use Rattle.dmn_form.specs.ModelView.{decision_view, model_view};
ghost use Rattle.dmn_graph.specs.Needs.{needs_view};
ghost use Rattle.dmn_names.specs.Names.{has_name_twice};
ghost use Rattle.dmn_names.specs.Places.{needs_by_place};
ghost use Rattle.dmn_plan.specs.Faults.{needs_itself as needs_itself_in, has_cycle};
ghost use Rattle.dmn_check.specs.Cycles.{cycle, cycles as cycles_in};
ghost use Rattle.dmn_check.specs.Findings.{each_of};
ghost use Rattle.dmn_check.specs.Graphs.{has_no_graph};
ghost use Rattle.dmn_check.specs.Notes.{with_all};
ghost use Rattle.dmn_check.specs.NotesView.{notes_view};
ghost use Rattle.dmn_check.specs.Told.{first_of};
ghost use Rattle.dmn_check.specs.ToldView.{told_view};

use crate::chase::needs_itself;
use crate::finding::Mistake;
use crate::graph::needs_of;
use crate::notes::Notes;
use crate::place::{Key, Step};
use crate::told::Told;
use dmn_form::WrittenModel;
use dmn_names::Places;
use std::alloc::{AllocError, Global};

/// Whether the decision at an index needs itself.
fn decision_needs_itself(
    alloc: Global,
    model: &WrittenModel,
    needs: &[Vec<usize>],
    index: usize,
) -> Result<bool, AllocError>
    requires index { index < length model.now.decisions.items }
    requires distinct { has_name_twice (model_view model.now) ≡ false }
    requires known { needs_by_place (model_view model.now) ≡ Some (needs_view needs.now) }
    ensures { IfOk result (λ b. (d : WrittenDecision) → d ≡ slice_index_or model.now.decisions.items index d → b ≡ needs_itself_in (model_view model.now) (decision_view d)) }
{
    let is_in_cycle = needs_itself(alloc, needs, model.inputs.len() + index)?;
    Ok(is_in_cycle)
}

/// Notes the decision that is here, if it needs itself.
fn note_decision(
    alloc: Global,
    notes: &mut Notes,
    model: &WrittenModel,
    needs: &[Vec<usize>],
    index: usize,
) -> Result<(), AllocError>
    requires index { index < length model.now.decisions.items }
    requires distinct { has_name_twice (model_view model.now) ≡ false }
    requires known { needs_by_place (model_view model.now) ≡ Some (needs_view needs.now) }
    ensures { OnOk result ((d : WrittenDecision) → d ≡ slice_index_or model.now.decisions.items index d → with_all (notes_view notes.old) (cycle (model_view model.now) (decision_view d)) ≡ notes_view notes.new) }
{
    if !decision_needs_itself(alloc, model, needs, index)? {
        return Ok(());
    }
    notes.note(Mistake::Cycle)?;
    Ok(())
}

fn note_decisions(
    alloc: Global,
    notes: &mut Notes,
    model: &WrittenModel,
    needs: &[Vec<usize>],
) -> Result<(), AllocError>
    requires distinct { has_name_twice (model_view model.now) ≡ false }
    requires known { needs_by_place (model_view model.now) ≡ Some (needs_view needs.now) }
    ensures { OnOk result (with_all (notes_view notes.old) (each_of (cycle (model_view model.now)) (map decision_view model.now.decisions.items)) ≡ notes_view notes.new) }
{
    for index in 0..model.decisions.len() {
        notes.enter(Step::Index(index))?;
        note_decision(alloc, notes, model, needs, index)?;
        notes.leave();
    }
    Ok(())
}

fn told_cycles(
    alloc: Global,
    model: &WrittenModel,
    needs: &[Vec<usize>],
) -> Result<Told, AllocError>
    requires distinct { has_name_twice (model_view model.now) ≡ false }
    requires known { needs_by_place (model_view model.now) ≡ Some (needs_view needs.now) }
    ensures { IfOk result (λ t. told_view t ≡ first_of (cycles_in (model_view model.now))) }
{
    let mut notes = Notes::new(alloc);
    notes.enter(Step::Key(Key::Decisions))?;
    note_decisions(alloc, &mut notes, model, needs)?;
    notes.leave();
    Ok(Told::of(notes))
}

/// The decisions that need themselves, directly or through others, or None where a name stands twice, a needed name is unknown or
/// the model is too large: then this is not looked for.
pub fn cycles(alloc: Global, model: &WrittenModel) -> Result<Option<Told>, AllocError>
    ensures none { IfOk result (λ o. is_none o ≡ has_no_graph (model_view model.now)) }
    ensures places { IfOk result (λ o. IfSome o (λ t. told_view t ≡ first_of (cycles_in (model_view model.now)))) }
    ensures fault { IfOk result (λ o. IfSome o (λ t. nat_lt 0 t.count ≡ has_cycle (model_view model.now))) }
{
    let places = Places::new(alloc, model)?;
    let Some(needs) = needs_of(alloc, model, &places)? else {
        return Ok(None);
    };
    let told = told_cycles(alloc, model, &needs)?;
    Ok(Some(told))
}
