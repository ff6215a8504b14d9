//! The values of an object with exactly the keys that are asked for, no other and none missing. Keys are given in byte order, in
//! which `serde_json` keeps them.
ghost use Rattle.std.specs.Prelude.{◌≡◌, ◌≢◌, IfNone, IfSome};
ghost use Rattle.serde_json.specs.Data.{Data, Members, member, no_members, object};
ghost use Rattle.serde_json.specs.View.{view};
ghost use Rattle.desk_wire.specs.Objects.{object1, object2, object3, object4};
ghost use Rattle.json_reader.specs.Members.{members_of};

use serde_json::Value;

/// The value of the first member, if it has this key, and the members behind it.
fn next_member<'a, 'b>(
    members: &'a [(&'b str, Value)],
    key: &str,
) -> Option<(&'a Value, &'a [(&'b str, Value)])>
    ensures found { IfSome result (λ v. members_of members.now ≡ member key.now (view v.0.now) (members_of v.1.now)) }
    ensures other { IfNone result ((d : Data) (rest : Members) → members_of members.now ≢ member key.now d rest) }
{
    let (first, rest) = members.split_first()?;
    if first.0 != key {
        return None;
    }
    Some((&first.1, rest))
}

/// The value of the only member, if it has this key.
fn only_member<'a>(members: &'a [(&str, Value)], key: &str) -> Option<&'a Value>
    ensures found { IfSome result (λ v. members_of members.now ≡ member key.now (view v.now) no_members) }
    ensures other { IfNone result ((d : Data) → members_of members.now ≢ member key.now d no_members) }
{
    let (value, rest) = next_member(members, key)?;
    match rest.split_first() {
        Some(_) => None,
        None => Some(value),
    }
}

/// The values of the only two members, if they have these keys.
fn only_two<'a>(
    members: &'a [(&str, Value)],
    first: &str,
    second: &str,
) -> Option<(&'a Value, &'a Value)>
    ensures found { IfSome result (λ v. members_of members.now ≡ member first.now (view v.0.now) (member second.now (view v.1.now) no_members)) }
    ensures other { IfNone result ((d e : Data) → members_of members.now ≢ member first.now d (member second.now e no_members)) }
{
    let (first, rest) = next_member(members, first)?;
    let second = only_member(rest, second)?;
    Some((first, second))
}

/// The values of the only three members, if they have these keys.
fn only_three<'a>(
    members: &'a [(&str, Value)],
    first: &str,
    second: &str,
    third: &str,
) -> Option<(&'a Value, &'a Value, &'a Value)>
    ensures found { IfSome result (λ v. members_of members.now ≡ member first.now (view v.0.now) (member second.now (view v.1.now) (member third.now (view v.2.now) no_members))) }
    ensures other { IfNone result ((d e f : Data) → members_of members.now ≢ member first.now d (member second.now e (member third.now f no_members))) }
{
    let (first, rest) = next_member(members, first)?;
    let (second, third) = only_two(rest, second, third)?;
    Some((first, second, third))
}

/// The value of an object with this key alone.
pub fn one_member<'a>(members: &'a [(&str, Value)], key: &str) -> Option<&'a Value>
    ensures found { IfSome result (λ v. object (members_of members.now) ≡ object1 key.now (view v.now)) }
    ensures other { IfNone result ((d : Data) → object (members_of members.now) ≢ object1 key.now d) }
{
    let value = only_member(members, key)?;
    Some(value)
}

/// The values of an object with these two keys.
pub fn two_members<'a>(
    members: &'a [(&str, Value)],
    first: &str,
    second: &str,
) -> Option<(&'a Value, &'a Value)>
    ensures found { IfSome result (λ v. object (members_of members.now) ≡ object2 first.now second.now (view v.0.now) (view v.1.now)) }
    ensures other { IfNone result ((d e : Data) → object (members_of members.now) ≢ object2 first.now second.now d e) }
{
    let (first, second) = only_two(members, first, second)?;
    Some((first, second))
}

/// The values of an object with these three keys.
pub fn three_members<'a>(
    members: &'a [(&str, Value)],
    first: &str,
    second: &str,
    third: &str,
) -> Option<(&'a Value, &'a Value, &'a Value)>
    ensures found { IfSome result (λ v. object (members_of members.now) ≡ object3 first.now second.now third.now (view v.0.now) (view v.1.now) (view v.2.now)) }
    ensures other { IfNone result ((d e f : Data) → object (members_of members.now) ≢ object3 first.now second.now third.now d e f) }
{
    let (first, second, third) = only_three(members, first, second, third)?;
    Some((first, second, third))
}

/// The values of an object with these four keys.
pub fn four_members<'a>(
    members: &'a [(&str, Value)],
    first: &str,
    second: &str,
    third: &str,
    fourth: &str,
) -> Option<(&'a Value, &'a Value, &'a Value, &'a Value)>
    ensures found { IfSome result (λ v. object (members_of members.now) ≡ object4 first.now second.now third.now fourth.now (view v.0.now) (view v.1.now) (view v.2.now) (view v.3.now)) }
    ensures other { IfNone result ((d e f g : Data) → object (members_of members.now) ≢ object4 first.now second.now third.now fourth.now d e f g) }
{
    let (first, rest) = next_member(members, first)?;
    let (second, third, fourth) = only_three(rest, second, third, fourth)?;
    Some((first, second, third, fourth))
}
