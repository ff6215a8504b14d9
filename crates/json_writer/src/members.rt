//! A context's entries in the order of an object's members: that of the bytes of their names.
ghost use Rattle.std.specs.Prelude.{◌≡◌, true, IfOk};
ghost use Rattle.feel_value.specs.Limits.{names_differ};
ghost use Rattle.feel_value.specs.View.{entries_view};
ghost use Rattle.json_writer.specs.InOrder.{AreMembers};

use feel_value::Value;
use std::alloc::{AllocError, Global};
use std::sync::ArcStr;

/// The entries in that order.
#[inline(never)]
pub(crate) fn members<'a>(
    alloc: Global,
    entries: &'a [(ArcStr, Value)],
) -> Result<Vec<&'a (ArcStr, Value)>, AllocError>
    requires { names_differ (entries_view entries.now) ≡ true }
    ensures { IfOk result (λ members. AreMembers entries.now members.items) }
{
    let mut members: Vec<&'a (ArcStr, Value)> = entries.iter().collect(alloc)?;
    members.sort_unstable_by(|x, y| x.0.as_str().cmp(y.0.as_str()));
    Ok(members)
}
