//! The names of a context: looking one up, and whether they are distinct.
ghost use Rattle.std.specs.Prelude.{◌≡◌, option_map};
ghost use Rattle.feel_value.specs.Datum.{value_at};
ghost use Rattle.feel_value.specs.Limits.{names_differ as differ};
ghost use Rattle.feel_value.specs.Names.{names_rise as rise};
ghost use Rattle.feel_value.specs.View.{datum_of, entries_view};

use crate::by_name::{FEW, by_name};
use crate::value::Value;
use std::sync::ArcStr;

// The value of the first entry that has the name.
pub(crate) fn find<'a>(entries: &'a [(ArcStr, Value)], name: &str) -> Option<&'a Value>
    ensures { option_map (λ v. datum_of v.now) result ≡ value_at name.now (entries_view entries.now) }
{
    for (key, value) in entries {
        if name == key.as_str() {
            return Some(value);
        }
    }
    None
}

// Whether no two entries have one name. Names that rise differ. Many others are put in order, where the heap has room for it.
pub(crate) fn names_differ(entries: &Vec<(ArcStr, Value)>) -> bool
    ensures { result ≡ differ (entries_view entries.now.items) }
{
    if names_rise(entries) {
        return true;
    }
    if entries.len() > FEW {
        if let Ok(sorted) = by_name(entries) {
            return sorted.is_some();
        }
    }
    no_name_repeats(entries)
}

// Whether each name is after the one before it.
fn names_rise(entries: &[(ArcStr, Value)]) -> bool
    ensures { result ≡ rise (entries_view entries.now) }
{
    let Some(((first, _), others)) = entries.split_first() else {
        return true;
    };
    let mut last = first;
    for (name, _) in others {
        if last.as_str() >= name.as_str() {
            return false;
        }
        last = name;
    }
    true
}

// Whether no name comes again later.
fn no_name_repeats(entries: &[(ArcStr, Value)]) -> bool
    ensures { result ≡ differ (entries_view entries.now) }
{
    for (i, (name, _)) in entries.iter().enumerate() {
        if find(&entries[i + 1..], name.as_str()).is_some() {
            return false;
        }
    }
    true
}
