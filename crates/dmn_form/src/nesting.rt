//! How deep a JSON value nests.
ghost use Rattle.std.specs.Prelude.{◌≡◌, nat_le};
ghost use Rattle.serde_json.specs.Data.{depth, items_depth, members_depth};
ghost use Rattle.serde_json.specs.View.{view, items_view, members_view};

use serde_json::{Map, Value};

/// Whether lists and objects stand in each other at most so many deep. It goes no deeper itself.
#[cycle(nesting)]
pub(crate) fn nests_within(json: &Value, levels: usize) -> bool
    ensures { result ≡ nat_le (depth (view json.now)) levels }
{
    match json {
        Value::Array(items) => levels > 0 && items_nest_within(items, levels - 1),
        Value::Object(members) => levels > 0 && members_nest_within(members, levels - 1),
        _ => true,
    }
}

#[cycle(nesting)]
#[tactic(auto, using(crate::proofs::Depths::max_within))]
fn items_nest_within(items: &[Value], levels: usize) -> bool
    ensures { result ≡ nat_le (items_depth (items_view items.now)) levels }
{
    for item in items {
        if !nests_within(item, levels) {
            return false;
        }
    }
    true
}

#[cycle(nesting)]
#[tactic(auto, using(crate::proofs::Depths::max_within))]
fn members_nest_within(members: &Map<String, Value>, levels: usize) -> bool
    ensures { result ≡ nat_le (members_depth (members_view members.now.entries)) levels }
{
    for (_, member) in members.iter() {
        if !nests_within(member, levels) {
            return false;
        }
    }
    true
}
