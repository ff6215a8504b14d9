//! What is known of the members of what names stand for.
ghost use Rattle.std.specs.Prelude.{◌≡◌, List, ℕ, map, string_bytes};
ghost use Rattle.feel_text.specs.View.{view};
ghost use Rattle.dmn_ranges.specs.Names.{members_if};
ghost use Rattle.dmn_ranges.specs.Ranges.{members_of};
ghost use Rattle.dmn_ranges.specs.Steps.{is_path as is_path_of, known_or as known_or_of, member_at as member_at_of, members_behind};

use crate::names::Names;
use crate::outcomes::Outcomes;
use crate::range::{MemberRange, ParameterRange, Range};
use feel_text::Tree;

// Whether an expression is this path into what a name stands for. The last name of the path comes first.
fn is_path(expr: &Tree, path: &[String]) -> bool
    ensures { result ≡ is_path_of (view expr.now) (map string_bytes path.now) }
{
    match expr {
        Tree::Name(_) => path.is_empty(),
        Tree::Group(inner) => is_path(inner, path),
        Tree::Path(inner, name) => {
            let Some((last, others)) = path.split_first() else {
                return false;
            };
            if last.as_str() != name.as_str() {
                return false;
            }
            is_path(inner, others)
        }
        _ => false,
    }
}

// The parameter that a path leads into, if it does.
fn parameter_behind<'a>(expr: &Tree, names: &Names<'a>) -> Option<&'a ParameterRange>
    ensures { members_if result ≡ members_behind (view expr.now) names.now }
{
    match expr {
        Tree::Name(reference) => names.parameter(reference.name.as_str()),
        Tree::Group(inner) => parameter_behind(inner, names),
        Tree::Path(inner, _) => parameter_behind(inner, names),
        _ => None,
    }
}

// What is known of an expression among the members of a parameter.
fn member_at(expr: &Tree, members: &[MemberRange]) -> Option<Range>
    ensures { result ≡ member_at_of (view expr.now) (members_of members.now) }
{
    for member in members {
        if is_path(expr, &member.path) {
            return Some(member.range);
        }
    }
    None
}

/// What is known of a member of a parameter that a path leads to. The steps are in proportion to the length of the path and to the number
/// of members that are known of the parameter.
pub(crate) fn known_member(expr: &Tree, names: &Names) -> Option<Range>
    ensures { result ≡ member_at_of (view expr.now) (members_behind (view expr.now) names.now) }
{
    let Some(parameter) = parameter_behind(expr, names) else {
        return None;
    };
    member_at(expr, &parameter.members)
}

/// A value of the range that is known; where none is known, the others.
pub(crate) fn known_or(known: Option<Range>, others: Outcomes) -> Outcomes
    ensures { result ≡ known_or_of known others }
{
    match known {
        Some(range) => Outcomes::given(range),
        None => others,
    }
}
