//! A FEEL value as a tree whose parts may be shared.
ghost use Rattle.std.specs.Prelude.{◌≡◌, IfOk, option_map, true};
ghost use Rattle.feel_value.specs.Datum.{entry_named, list, context};
ghost use Rattle.feel_value.specs.Comparison.{equal as equal_of, less as less_of};
ghost use Rattle.feel_value.specs.Limits.{is_value};
ghost use Rattle.feel_value.specs.Logic.{is_yes, truth_of};
ghost use Rattle.feel_value.specs.Sizes.{size_of};
ghost use Rattle.feel_value.specs.View.{datum_of, items_view, entries_view};

use crate::comparison::{less_value, same_value};
use crate::copy::copy;
use crate::limits::is_in_range;
use crate::logic::Truth;
use crate::names::find;
use crate::reading::truth_value;
use crate::size::Size;
use crate::sizes::{size_of_context, size_of_list};
use std::alloc::{AllocError, Global};
use std::marker::Model;
use std::sync::{Arc, ArcStr};

/// A value of any size and depth; a `Feel` is one that keeps the limits.
///
/// Texts, lists and contexts are shared: a copy takes no memory of its own, whatever its size. Dropping the last copy goes as
/// deep as the value is.
#[cycle(value)]
#[derive(Drop)]
pub enum Value {
    /// The value null.
    Null,
    /// A boolean.
    Bool(bool),
    /// A whole number.
    Number(i64),
    /// A text.
    Text(ArcStr),
    /// A list of values.
    List(Arc<ValueList>),
    /// A context: values under names, in the order of their entries.
    Context(Arc<ValueContext>),
}

impl Value {
    /// The list of these values. The time is linear in their number, however large they are.
    pub fn list(alloc: Global, values: Vec<Value>) -> Result<Value, AllocError>
        ensures { IfOk result (λ v. datum_of v ≡ list (items_view values.items)) }
    {
        Ok(Value::List(Arc::new(alloc, ValueList::new(values))?))
    }

    /// The context of these entries, in their order.
    pub fn context(alloc: Global, entries: Vec<(ArcStr, Value)>) -> Result<Value, AllocError>
        ensures { IfOk result (λ v. datum_of v ≡ context (entries_view entries.items)) }
    {
        Ok(Value::Context(Arc::new(alloc, ValueContext::new(entries))?))
    }

    // The size of the value, where it is a value of FEEL. The time is constant.
    pub(crate) fn size(&self) -> Option<Size>
        ensures { result ≡ size_of (datum_of self.now) }
    {
        match self {
            Value::Null | Value::Bool(_) | Value::Text(_) => Some(Size::of_one_node()),
            Value::Number(n) => {
                if is_in_range(*n) {
                    Some(Size::of_one_node())
                } else {
                    None
                }
            }
            Value::List(list) => list.size(),
            Value::Context(context) => context.size(),
        }
    }

    // Whether it is a value of FEEL: it keeps the limits, and the names of each context are distinct. The time is constant.
    pub(crate) fn is_lawful(&self) -> bool
        ensures { result ≡ is_value (datum_of self.now) }
    {
        self.size().is_some()
    }

    /// A copy of this part of a value, which shares its texts, lists and contexts with it. The time is constant.
    pub fn try_clone(&self) -> Result<Value, AllocError>
        ensures { IfOk result (λ v. datum_of v ≡ datum_of self.now) }
    {
        copy(self)
    }

    /// The entry of that name, where this is a context that has one.
    pub fn entry(&self, name: &str) -> Option<&Value>
        ensures { option_map (λ v. datum_of v.now) result ≡ entry_named name.now (datum_of self.now) }
    {
        match self {
            Value::Context(context) => find(context.entries(), name),
            _ => None,
        }
    }

    /// Whether the values are equal, and that is known. It costs what `equal` costs where both are parts of a `Feel`.
    pub fn is_equal(&self, other: &Value) -> bool
        ensures { result ≡ is_yes (equal_of (datum_of self.now) (datum_of other.now)) }
    {
        same_value(self, other) == Truth::Yes
    }

    /// Whether the values are equal, as `equal` has it.
    pub fn equal(&self, other: &Value) -> Truth
        ensures { result ≡ equal_of (datum_of self.now) (datum_of other.now) }
    {
        same_value(self, other)
    }

    /// Whether this number or text is less than the other, as `less` has it.
    pub fn less(&self, other: &Value) -> Truth
        ensures { result ≡ less_of (datum_of self.now) (datum_of other.now) }
    {
        less_value(self, other)
    }

    /// What the value says, as `truth` has it.
    pub fn truth(&self) -> Truth
        ensures { result ≡ truth_of (datum_of self.now) }
    {
        truth_value(self)
    }
}

/// The members of a list. How large the list is, is kept beside them.
#[cycle(value)]
#[derive(Drop)]
pub struct ValueList {
    values: Vec<Value>,
    // The size of the list, where it keeps the limits and has distinct names.
    size: Option<Size>,
}

impl Model for ValueList {
    ghost use Rattle.std.specs.Prelude.{◌≡◌};
    ghost use Rattle.std.proofs.Common.{arith};
    ghost use Rattle.feel_value.specs.Code.{items_code};
    ghost use Rattle.feel_value.specs.Datum.{Items, list};
    ghost use Rattle.feel_value.specs.Limits.{items_depth};

    ghost Value = { Items };

    ghost coded = { items_code };

    ghost use Rattle.feel_value.specs.Sizes.{size_of};
    ghost use Rattle.feel_value.specs.View.{items_view};

    ghost view = { λ l. items_view l.values.items };

    ghost invariant = { λ l. l.size ≡ size_of (list (items_view l.values.items)) };

    ghost size = { items_depth };

    ghost use Rattle.feel_value.specs.Falls.{items_fall};

    ghost size_decreases = { λ l h. omega (arith, items_fall l.values.items) };
}

impl ValueList {
    /// The list of these values. The time is linear in their number, however large they are.
    pub fn new(values: Vec<Value>) -> ValueList
        ensures { result ≡ items_view values.items }
    {
        let size = size_of_list(&values);
        ValueList { values, size }
    }

    // The list of these values, which is of that size.
    pub(crate) fn of_size(values: Vec<Value>, size: Option<Size>) -> ValueList
        requires { size ≡ size_of (list (items_view values.items)) }
        ensures { result ≡ items_view values.items }
    {
        ValueList { values, size }
    }

    /// Its members.
    pub fn values(&self) -> &[Value]
        ensures { items_view result.now ≡ self.now }
    {
        &self.values
    }

    // The size of the list, where it is a value of FEEL.
    pub(crate) fn size(&self) -> Option<Size>
        ensures { result ≡ size_of (list self.now) }
    {
        self.size
    }
}

/// The entries of a context. How large the context is, is kept beside them.
#[cycle(value)]
#[derive(Drop)]
pub struct ValueContext {
    entries: Vec<(ArcStr, Value)>,
    // The size of the context, where it keeps the limits and has distinct names.
    size: Option<Size>,
}

impl Model for ValueContext {
    ghost use Rattle.std.specs.Prelude.{◌≡◌};
    ghost use Rattle.std.proofs.Common.{arith};
    ghost use Rattle.feel_value.specs.Code.{entries_code};
    ghost use Rattle.feel_value.specs.Datum.{Entries, context};
    ghost use Rattle.feel_value.specs.Limits.{entries_depth};

    ghost Value = { Entries };

    ghost coded = { entries_code };

    ghost use Rattle.feel_value.specs.Sizes.{size_of};
    ghost use Rattle.feel_value.specs.View.{entries_view};

    ghost view = { λ c. entries_view c.entries.items };

    ghost invariant = { λ c. c.size ≡ size_of (context (entries_view c.entries.items)) };

    ghost size = { entries_depth };

    ghost use Rattle.feel_value.specs.Falls.{entries_fall};

    ghost size_decreases = { λ c h. omega (arith, entries_fall c.entries.items) };
}

impl ValueContext {
    /// The context of these entries, in their order. The time is linear in their number, and what it takes to tell whether their
    /// names are distinct.
    pub fn new(entries: Vec<(ArcStr, Value)>) -> ValueContext
        ensures { result ≡ entries_view entries.items }
    {
        let size = size_of_context(&entries);
        ValueContext { entries, size }
    }

    // The context of these entries, which is of that size.
    pub(crate) fn of_size(entries: Vec<(ArcStr, Value)>, size: Option<Size>) -> ValueContext
        requires { size ≡ size_of (context (entries_view entries.items)) }
        ensures { result ≡ entries_view entries.items }
    {
        ValueContext { entries, size }
    }

    /// Its entries, in their order.
    pub fn entries(&self) -> &[(ArcStr, Value)]
        ensures { entries_view result.now ≡ self.now }
    {
        &self.entries
    }

    // Its entries, with the heap that they are on.
    pub(crate) fn entries_on_heap(&self) -> &Vec<(ArcStr, Value)>
        ensures { entries_view result.now.items ≡ self.now }
    {
        &self.entries
    }

    // The size of the context, where it is a value of FEEL.
    pub(crate) fn size(&self) -> Option<Size>
        ensures { result ≡ size_of (context self.now) }
    {
        self.size
    }
}
