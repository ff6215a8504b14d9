//! The entries of a context in the order of their names.
ghost use Rattle.std.specs.Prelude.{◌≡◌, false, IfOk, MatchOption};
ghost use Rattle.feel_value.specs.Limits.{names_differ};
ghost use Rattle.feel_value.specs.Names.{IsByName, names_rise, lent};
ghost use Rattle.feel_value.specs.View.{entries_view};

use crate::value::Value;
use std::alloc::AllocError;
use std::sync::ArcStr;

// Up to so many entries are searched name by name, which takes no memory.
pub(crate) const FEW: usize = 16;

// The entries in the order of their names, where no two of them have one name. The list is on the heap that the entries are on.
#[inline(never)]
pub(crate) fn by_name<'a>(
    entries: &'a Vec<(ArcStr, Value)>,
) -> Result<Option<Vec<&'a (ArcStr, Value)>>, AllocError>
    ensures { IfOk result (λ found. MatchOption found (names_differ (entries_view entries.now.items) ≡ false) (λ sorted. IsByName entries.now.items sorted.items)) }
{
    let mut sorted: Vec<&'a (ArcStr, Value)> = entries.iter().collect(*entries.allocator())?;
    sorted.sort_unstable_by(|x, y| x.0.as_str().cmp(y.0.as_str()));
    if rise(&sorted) {
        Ok(Some(sorted))
    } else {
        Ok(None)
    }
}

// Whether each name is after the one before it.
fn rise(entries: &[&(ArcStr, Value)]) -> bool
    ensures { result ≡ names_rise (entries_view (lent entries.now)) }
{
    let Some(((first, _), others)) = entries.split_first() else {
        return true;
    };
    let mut last = first;
    for (name, _) in others {
        if last.as_str() >= name.as_str() {
            return false;
        }
        last = name;
    }
    true
}
