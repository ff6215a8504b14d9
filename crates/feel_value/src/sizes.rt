//! How large a list or a context is, by the sizes of its parts.
ghost use Rattle.std.specs.Prelude.{◌≡◌};
ghost use Rattle.feel_value.specs.Datum.{list, context, null};
ghost use Rattle.feel_value.specs.Sizes.{size as size_of_datum, size_of, grown_by as grown_by_of, with_entries};
ghost use Rattle.feel_value.specs.View.{datum_of, items_view, entries_view};

use crate::names::names_differ;
use crate::size::Size;
use crate::value::Value;
use std::sync::ArcStr;

// The size of a list or a context that takes one part more, where both are values of FEEL.
pub(crate) fn grown_by(size: Option<Size>, part: &Value) -> Option<Size>
    ensures { result ≡ grown_by_of size (size_of (datum_of part.now)) }
{
    size?.grown(part.size()?)
}

// The size of the list of these values, where it is a value of FEEL.
pub(crate) fn size_of_list(values: &[Value]) -> Option<Size>
    ensures { result ≡ size_of (list (items_view values.now)) }
{
    let mut size = Size::of_one_node();
    for value in values {
        size = size.grown(value.size()?)?;
    }
    Some(size)
}

// The size of the context of these entries, where it is a value of FEEL.
pub(crate) fn size_of_context(entries: &Vec<(ArcStr, Value)>) -> Option<Size>
    ensures { result ≡ size_of (context (entries_view entries.now.items)) }
{
    let size = size_of_entries(entries)?;
    if names_differ(entries) {
        Some(size)
    } else {
        None
    }
}

// The size that the context has where its names differ.
pub(crate) fn size_of_entries(entries: &[(ArcStr, Value)]) -> Option<Size>
    ensures { result ≡ with_entries (size_of_datum null) (entries_view entries.now) }
{
    let mut size = Size::of_one_node();
    for (_, value) in entries {
        size = size.grown(value.size()?)?;
    }
    Some(size)
}
