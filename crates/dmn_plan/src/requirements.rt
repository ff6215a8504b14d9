//! What decisions require of one another.
ghost use Rattle.std.specs.Prelude.{◌≡◌, false, Some, IfOk, IfSome, is_none};
ghost use Rattle.dmn_form.specs.ModelView.{model_view};
ghost use Rattle.dmn_graph.specs.Needs.{needs_view, IsOrderOf};
ghost use Rattle.dmn_names.specs.Names.{has_name_twice};
ghost use Rattle.dmn_names.specs.Places.{needs_by_place};
ghost use Rattle.dmn_plan.specs.Faults.{has_cycle};

use dmn_form::WrittenModel;
use dmn_graph::order_of;
use std::alloc::{AllocError, Global};

/// An order of the places in which each stands behind all that it needs, or None where a decision needs itself.
pub(crate) fn requirement_order(
    alloc: Global,
    model: &WrittenModel,
    needs: &[Vec<usize>],
) -> Result<Option<Vec<usize>>, AllocError>
    requires distinct { has_name_twice (model_view model.now) ≡ false }
    requires known { needs_by_place (model_view model.now) ≡ Some (needs_view needs.now) }
    ensures cycle { IfOk result (λ o. is_none o ≡ has_cycle (model_view model.now)) }
    ensures order { IfOk result (λ o. IfSome o (λ order. IsOrderOf (needs_view needs.now) order.items)) }
{
    let order = order_of(alloc, needs)?;
    Ok(order)
}
