//! The outcomes found so far, each at its place.
ghost use Rattle.std.specs.Prelude.{◌≡◌, ◌<◌, IfOk, length, option_map};
ghost use Rattle.dmn_service.specs.Run.{values_in, nothing_found, kept_at};

use feel_value::{Feel, Outcome};
use std::alloc::{AllocError, Global};

/// Nothing found at so many places: each has no value yet, as where a limit is broken.
pub(crate) fn nothing(alloc: Global, places: usize) -> Result<Vec<Outcome>, AllocError>
    ensures count { IfOk result (λ found. length found.items ≡ places) }
    ensures nothing { IfOk result (λ found. values_in found.items ≡ nothing_found) }
{
    let mut found = Vec::with_capacity(alloc, places)?;
    for _ in 0..places {
        found.push(Outcome::Limit)?;
    }
    Ok(found)
}

/// Keeps the outcome at a place, in the place of what was there before.
#[inline(always)]
pub(crate) fn keep(found: &mut Vec<Outcome>, place: usize, outcome: Outcome)
    requires { place < length found.old.items }
    ensures kept { values_in found.new.items ≡ kept_at (values_in found.old.items) place outcome }
    ensures count { length found.new.items ≡ length found.old.items }
{
    found[place] = outcome;
}

/// The value found at a place; None where it breaks a limit, or nothing was found.
pub(crate) fn value_at(found: &[Outcome], place: usize) -> Option<&Feel>
    ensures { option_map (λ v. v.now) result ≡ values_in found.now place }
{
    found.get(place)?.value()
}
