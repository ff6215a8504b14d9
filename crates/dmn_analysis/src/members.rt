//! Lists of constants as tests: a value is in one that is a member of it.
ghost use Rattle.std.specs.Prelude.{◌≡◌, true, false, IfSome, IsTrue, length};
ghost use Rattle.feel_value.specs.Comparison.{equal};
ghost use Rattle.feel_value.specs.Datum.{Datum, number as number_datum};
ghost use Rattle.feel_value.specs.Logic.{decided, is_yes};
ghost use Rattle.feel_value.specs.View.{datum_of};
ghost use Rattle.feel_text.specs.Expr.{Members};
ghost use Rattle.feel_text.specs.Meaning.{Bindings, den};
ghost use Rattle.feel_text.specs.Satisfied.{Told, answer, is_in};
ghost use Rattle.feel_text.specs.View.{view, views};
ghost use Rattle.dmn_analysis.specs.Classes.{is_of};
ghost use Rattle.dmn_analysis.specs.Members.{AreKnownMembers, IsKnownMember, has_parts, is_plain as is_plain_of};

use crate::class::Class;
use crate::folded::{literal, number_of};
use feel_text::Tree;
use feel_value::Value;

/// A list of so many members, or more, may break a limit.
const MOST: usize = 9_999;

fn is_plain(value: &Value) -> bool
    ensures { IsTrue result → is_plain_of (datum_of value.now) ≡ true }
{
    match value {
        Value::Null | Value::Bool(_) | Value::Text(_) => true,
        Value::Number(_) | Value::List(_) | Value::Context(_) => false,
    }
}

// Whether each value of the class is this number.
fn is_number(class: &Class, number: i64) -> Option<bool>
    ensures { IfSome result (λ same. (v : Datum) → is_of class.now v ≡ true → is_yes (equal v (number_datum number)) ≡ same) }
{
    let same = class.equals(&Value::Number(number))?;
    Some(same)
}

// Whether each value of the class is what an expression is; None where that isn't known, or some are.
fn is_one(class: &Class, expr: &Tree) -> Option<bool>
    ensures { IfSome result (IsKnownMember class.now (view expr.now)) }
{
    if let Some(number) = number_of(expr) {
        let same = is_number(class, number)?;
        return Some(same);
    }
    let value = literal(expr)?;
    if !is_plain(value) {
        return None;
    }
    let same = class.equals(value)?;
    Some(same)
}

// Whether each value of the class is what one of these expressions is.
fn is_one_of(class: &Class, members: &[Tree]) -> Option<bool>
    ensures { IfSome result (AreKnownMembers class.now (views members.now) (length members.now)) }
{
    let mut found = false;
    for member in members {
        let same = is_one(class, member)?;
        found |= same;
    }
    Some(found)
}

fn has_parts(class: &Class) -> bool
    ensures { result ≡ has_parts class.now }
{
    match class {
        Class::Parted => true,
        Class::One(_)
        | Class::Numbers(_, _)
        | Class::Words(_)
        | Class::OtherTexts(_)
        | Class::Between(_, _, _) => false,
    }
}

/// Whether each value of the class is in the list of these members.
pub(crate) fn is_listed(class: &Class, members: &[Tree]) -> Option<bool>
    ensures { IfSome result (λ b. (v : Datum) (m : Bindings) → is_of class.now v ≡ true → answer (den (Members (views members.now)) m) (λ d. decided (is_in v d)) ≡ Told (decided b)) }
{
    if members.len() >= MOST {
        return None;
    }
    if has_parts(class) {
        return None;
    }
    let found = is_one_of(class, members)?;
    Some(found)
}
