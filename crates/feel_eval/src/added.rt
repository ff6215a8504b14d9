//! Names with values that are bound one by one.
ghost use Rattle.std.specs.Prelude.{◌≡◌, ◌≤◌, ◌<◌, ◌+◌, ◌^◌, [], ◌∷◌, ◌++◌, length, take, option_map, MatchResult};
ghost use Rattle.std.specs.Cow.{cow_str_bytes};
ghost use Rattle.feel_text.specs.Meaning.{bound};
ghost use Rattle.feel_eval.specs.Few.{few_of};

use crate::indexed::Indexed;
use feel_value::Feel;
use std::alloc::{AllocError, Global};
use std::borrow::CowStr;
use std::marker::Model;

// So many bindings are looked through one by one. An index finds the others.
const FEW: usize = 32;

// A name with its value.
#[derive(Drop)]
struct NamedValue<'a> {
    name: CowStr<'a>,
    value: Feel,
}

/// A list of names with values, of which the last binding of a name counts.
///
/// Binding, finding and cutting off one name take steps in proportion to the logarithm of how many names there are.
#[derive(Drop)]
pub(crate) struct Added<'a> {
    few: Vec<NamedValue<'a>>,
    // Those behind the first few.
    more: Indexed<'a>,
}

impl<'a> Model for Added<'a> {
    ghost use Rattle.std.specs.Prelude.{◌++◌, List, ℕ};
    ghost use Rattle.std.specs.Coded.{coded_list, coded×, coded_ℕ};
    ghost use Rattle.feel_value.specs.Datum.{Datum};
    ghost use Rattle.feel_value.specs.Code.{datum_code};

    ghost Value = { List (List ℕ × Datum) };

    ghost coded = { coded_list (coded× (coded_list coded_ℕ) datum_code) };

    ghost use Rattle.feel_eval.specs.Few.{few_of, IsFilled};

    ghost view = { λ e. few_of e.few.items ++ e.more };

    ghost invariant = { λ e. IsFilled e.few.items e.more };
}

impl<'a> Added<'a> {
    /// No names. It takes no memory, and keeps the allocator for its bindings.
    pub(crate) fn new(alloc: Global) -> Added<'a>
        ensures { result ≡ [] }
    {
        Added {
            few: Vec::new(alloc),
            more: Indexed::new(alloc),
        }
    }

    /// Binds a name to a value, which hides what the name was bound to before. Where memory is refused nothing changes,
    /// and the value is gone.
    #[tactic(auto, using(crate::proofs::Few::one_more, crate::proofs::Few::one_behind))]
    pub(crate) fn bind(&mut self, name: CowStr<'a>, value: Feel) -> Result<(), AllocError>
        ensures { MatchResult result (λ _. self.new ≡ self.old ++ (cow_str_bytes name.entry, value) ∷ []) (λ _. self.new ≡ self.old) }
    {
        if self.few.len() == FEW {
            self.more.bind(name, value)?;
            return Ok(());
        }
        self.few.push(NamedValue { name, value })?;
        Ok(())
    }

    /// The value of the last binding of the name.
    #[tactic(auto, using(crate::proofs::Few::bound_both, crate::proofs::Few::bound_first))]
    pub(crate) fn find(&self, name: &str) -> Option<&Feel>
        ensures { option_map (λ v. v.now) result ≡ bound name.now self.now }
    {
        if self.more.len() == 0 {
            return last_named(&self.few, name);
        }
        match self.more.find(name) {
            Some(value) => Some(value),
            None => last_named(&self.few, name),
        }
    }

    /// How many bindings there are, hidden ones included.
    pub(crate) fn len(&self) -> usize
        ensures number { result ≡ length self.now }
        ensures small { result < 2 ^ 63 + 32 }
    {
        self.few.len() + self.more.len()
    }

    /// Drops all bindings but the first `len`; what they hid counts again. It takes no memory.
    #[tactic(auto, using(crate::proofs::Few::cut_within, crate::proofs::Few::cut_behind))]
    pub(crate) fn cut(&mut self, len: usize)
        requires { len ≤ length self.old }
        ensures { self.new ≡ take len self.old }
    {
        let few = self.few.len();
        if len < few {
            self.more.cut(0);
            self.few.truncate(len);
            return;
        }
        self.more.cut(len - few);
    }
}

// The value of the last of these that has the name.
fn last_named<'b>(bindings: &'b [NamedValue<'_>], name: &str) -> Option<&'b Feel>
    ensures { option_map (λ v. v.now) result ≡ bound name.now (few_of bindings.now) }
{
    let mut i = bindings.len();
    while i > 0 {
        i -= 1;
        let binding = &bindings[i];
        if name == binding.name.as_str() {
            return Some(&binding.value);
        }
    }
    None
}
