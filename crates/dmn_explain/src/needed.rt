//! Which parameters of a service the decisions of its plan need.
ghost use Rattle.std.specs.Prelude.{◌≡◌, ◌<◌, ◌||◌, ℕ, IfOk, length, nat_eq, false, slice_index_or};
ghost use Rattle.std.specs.List.{All, filter, flat_map};
ghost use Rattle.dmn_graph.specs.Reach.{has_same};
ghost use Rattle.dmn_service.specs.Places.{needs_at};
ghost use Rattle.dmn_service.specs.Plan.{HasPlacesWithin};
ghost use Rattle.dmn_explain.specs.Explanation.{needed_parameters};

use dmn_service::{Item, ServicePlan};
use std::alloc::{AllocError, Global};

/// Marks these places.
fn mark(places: &[usize], marks: &mut [bool])
    requires { All (λ q. q < length marks.old) places.now }
    ensures marks { (q : ℕ) → slice_index_or marks.new q false ≡ (has_same nat_eq places.now q || slice_index_or marks.old q false) }
    ensures length { length marks.new ≡ length marks.old }
{
    for place in places {
        marks[*place] = true;
    }
}

/// Marks what the items at these places need.
fn mark_needs(items: &[Item], places: &[usize], marks: &mut [bool])
    requires needs { All (λ x. All (λ q. q < length items.now) x.needs.items) items.now }
    requires places { All (λ q. q < length items.now) places.now }
    requires length { length marks.old ≡ length items.now }
    ensures marks { (q : ℕ) → slice_index_or marks.new q false ≡ (has_same nat_eq (flat_map (needs_at items.now) places.now) q || slice_index_or marks.old q false) }
    ensures length { length marks.new ≡ length marks.old }
{
    for place in places {
        mark(&items[*place].needs, marks);
    }
}

/// Those of these places that are marked, in their order.
fn marked(alloc: Global, places: &[usize], marks: &[bool]) -> Result<Vec<usize>, AllocError>
    requires { All (λ q. q < length marks.now) places.now }
    ensures { IfOk result (λ found. found.items ≡ filter (λ q. slice_index_or marks.now q false) places.now) }
{
    let mut found = Vec::new(alloc);
    for place in places {
        if marks[*place] {
            found.push(*place)?;
        }
    }
    Ok(found)
}

/// The places of the parameters that some decision of the plan's order needs, in their order. It takes a mark for each item, and
/// looks at each need once.
pub(crate) fn needed_places(
    alloc: Global,
    items: &[Item],
    service: &ServicePlan,
) -> Result<Vec<usize>, AllocError>
    requires { HasPlacesWithin items.now service.now }
    ensures { IfOk result (λ found. found.items ≡ needed_parameters items.now service.now) }
{
    let mut marks = vec![in alloc; false; items.len()]?;
    mark_needs(items, &service.order, &mut marks);
    let found = marked(alloc, &service.parameters, &marks)?;
    Ok(found)
}
