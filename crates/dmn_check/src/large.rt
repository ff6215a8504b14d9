//! Models that are too large.
ghost use Rattle.std.specs.Prelude.{◌≡◌, IfOk, nat_lt};
ghost use Rattle.dmn_form.specs.ModelView.{model_view};
ghost use Rattle.dmn_names.specs.Size.{is_large as is_large_model};
ghost use Rattle.dmn_check.specs.Large.{too_large as too_large_in};
ghost use Rattle.dmn_check.specs.Told.{first_of};
ghost use Rattle.dmn_check.specs.ToldView.{told_view};

use crate::finding::Mistake;
use crate::notes::Notes;
use crate::told::Told;
use dmn_form::WrittenModel;
use dmn_names::is_large;
use std::alloc::{AllocError, Global};

/// The model itself, if it has more decisions than a model may have.
pub fn too_large(alloc: Global, model: &WrittenModel) -> Result<Told, AllocError>
    ensures places { IfOk result (λ t. told_view t ≡ first_of (too_large_in (model_view model.now))) }
    ensures fault { IfOk result (λ t. nat_lt 0 t.count ≡ is_large_model (model_view model.now)) }
{
    let mut notes = Notes::new(alloc);
    if is_large(model) {
        notes.note(Mistake::Large)?;
    }
    Ok(Told::of(notes))
}
