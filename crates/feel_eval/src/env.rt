//! Names with values.
ghost use Rattle.std.specs.Prelude.{◌≡◌, ◌≤◌, ◌<◌, ◌+◌, ◌^◌, [], ◌∷◌, ◌++◌, length, take, option_map, unwrap_or, MatchResult, Some, true};
ghost use Rattle.std.specs.Cow.{cow_str_bytes};
ghost use Rattle.std.specs.List.{list_all};
ghost use Rattle.feel_text.specs.Meaning.{bound};
ghost use Rattle.feel_text.specs.Needed.{bindings_from, is_found};

use crate::added::Added;
use crate::lent::Lent;
use crate::listed::Listed;
use feel_text::{Needs, Reference};
use feel_value::{Feel, Outcome};
use std::alloc::{AllocError, Global};
use std::borrow::CowStr;
use std::marker::Model;

// So many names are looked through one by one, also where they are known beforehand.
const FEW: usize = 8;

/// A list of names with values, of which the last binding of a name counts.
///
/// Binding, finding and cutting off one name take steps in proportion to the logarithm of how many names there are.
#[derive(Drop)]
pub struct Env<'a> {
    // What a decision needs. It is looked at where it lies.
    lent: Option<Lent<'a>>,
    // Names after it that are known beforehand, where they are many.
    listed: Option<Listed<'a>>,
    // Those after these, once there are some.
    added: Option<Added<'a>>,
    alloc: Global,
}

impl<'a> Model for Env<'a> {
    ghost use Rattle.std.specs.Prelude.{◌++◌, List, ℕ, unwrap_or, []};
    ghost use Rattle.std.specs.Coded.{coded_list, coded×, coded_ℕ};
    ghost use Rattle.feel_value.specs.Datum.{Datum};
    ghost use Rattle.feel_value.specs.Code.{datum_code};

    ghost Value = { List (List ℕ × Datum) };

    ghost coded = { coded_list (coded× (coded_list coded_ℕ) datum_code) };

    ghost view = { λ e. unwrap_or e.lent [] ++ (unwrap_or e.listed [] ++ unwrap_or e.added []) };
}

impl<'a> Env<'a> {
    /// An environment with no names. It takes no memory, and keeps the allocator for its bindings.
    pub fn new(alloc: Global) -> Env<'a>
        ensures { result ≡ [] }
    {
        Env {
            lent: None,
            listed: None,
            added: None,
            alloc,
        }
    }

    /// An environment with these names, bound to the values that were found at their places; None where no value was found for
    /// one of them, as where a limit is broken. It looks at the values where they lie, so it takes no memory.
    pub fn over(alloc: Global, needs: &'a Needs, found: &'a [Outcome]) -> Option<Env<'a>>
        ensures { result ≡ bindings_from found.now needs.now }
    {
        let lent = Lent::of(needs, found)?;
        Some(Env {
            lent: Some(lent),
            listed: None,
            added: None,
            alloc,
        })
    }

    /// The same, where the names that may be bound are known beforehand: a name of the scope that is bound is found by its
    /// position in it. Any other name may be bound too.
    pub fn over_scope(
        alloc: Global,
        needs: &'a Needs,
        scope: &'a Needs,
        found: &'a [Outcome],
    ) -> Option<Env<'a>>
        ensures { result ≡ bindings_from found.now needs.now }
    {
        let lent = Lent::of(needs, found)?;
        Some(Env {
            lent: Some(lent),
            listed: listed_over(alloc, scope),
            added: None,
            alloc,
        })
    }

    /// The same, where a value is known to be found for each of the needed names.
    pub fn over_found(
        alloc: Global,
        needs: &'a Needs,
        scope: &'a Needs,
        found: &'a [Outcome],
    ) -> Env<'a>
        requires { list_all (is_found found.now) needs.now ≡ true }
        ensures { bindings_from found.now needs.now ≡ Some result }
    {
        Env {
            lent: Some(Lent::of_found(needs, found)),
            listed: listed_over(alloc, scope),
            added: None,
            alloc,
        }
    }

    /// Binds a name to a value, which hides what the name was bound to before. Where memory is refused nothing changes,
    /// and the value is gone.
    pub fn bind(&mut self, name: &str, value: Feel) -> Result<(), AllocError>
        ensures { MatchResult result (λ _. self.new ≡ self.old ++ (name.now, value) ∷ []) (λ _. self.new ≡ self.old) }
    {
        let name = String::from_str(self.alloc, name)?;
        self.bind_either(CowStr::Owned(name), value)
    }

    /// The same with a name that is lent for as long as the environment is there, and not copied.
    pub fn bind_lent(&mut self, name: &'a str, value: Feel) -> Result<(), AllocError>
        ensures { MatchResult result (λ _. self.new ≡ self.old ++ (name.now, value) ∷ []) (λ _. self.new ≡ self.old) }
    {
        self.bind_either(CowStr::Borrowed(name), value)
    }

    #[inline(always)]
    #[tactic(auto, using(crate::proofs::Few::one_between))]
    fn bind_either(&mut self, name: CowStr<'a>, value: Feel) -> Result<(), AllocError>
        ensures { MatchResult result (λ _. self.new ≡ self.old ++ (cow_str_bytes name.entry, value) ∷ []) (λ _. self.new ≡ self.old) }
    {
        if added_len(&self.added) > 0 {
            return self.bind_added(name, value);
        }
        let Some(listed) = &mut self.listed else {
            return self.bind_added(name, value);
        };
        match listed.bind(name.as_str(), value)? {
            Some(value) => self.bind_added(name, value),
            None => Ok(()),
        }
    }

    // The same after all that are listed.
    #[inline(never)]
    #[tactic(auto, using(crate::proofs::Few::one_last))]
    fn bind_added(&mut self, name: CowStr<'a>, value: Feel) -> Result<(), AllocError>
        ensures { MatchResult result (λ _. self.new ≡ self.old ++ (cow_str_bytes name.entry, value) ∷ []) (λ _. self.new ≡ self.old) }
    {
        if let Some(added) = &mut self.added {
            return added.bind(name, value);
        }
        let mut added = Added::new(self.alloc);
        added.bind(name, value)?;
        self.added = Some(added);
        Ok(())
    }

    /// The value of the last binding of the name.
    #[inline(never)]
    #[tactic(auto, using(crate::proofs::Few::bound_three))]
    pub fn find(&self, name: &str) -> Option<&Feel>
        ensures { option_map (λ v. v.now) result ≡ bound name.now self.now }
    {
        if let Some(value) = find_added(&self.added, name) {
            return Some(value);
        }
        if let Some(value) = find_listed(&self.listed, name) {
            return Some(value);
        }
        self.lent.as_ref()?.find(name)
    }

    // The same of a name as it stands in a text.
    #[inline(always)]
    #[tactic(auto, using(crate::proofs::Few::bound_three))]
    pub(crate) fn find_at(&self, reference: &Reference) -> Option<&Feel>
        ensures { option_map (λ v. v.now) result ≡ bound reference.now.name self.now }
    {
        if let Some(value) = find_added(&self.added, reference.name.as_str()) {
            return Some(value);
        }
        if let Some(value) = find_listed_at(&self.listed, reference) {
            return Some(value);
        }
        self.lent.as_ref()?.find_at(reference)
    }

    /// How many bindings there are, hidden ones included.
    pub fn len(&self) -> usize
        ensures { result ≡ length self.now }
    {
        lent_len(&self.lent) + listed_len(&self.listed) + added_len(&self.added)
    }

    /// Drops all bindings but the first `len`; what they hid counts again. It takes no memory.
    pub fn cut(&mut self, len: usize)
        requires { len ≤ length self.old }
        ensures { self.new ≡ take len self.old }
    {
        let lent = lent_len(&self.lent);
        let listed = listed_len(&self.listed);
        if len > lent + listed {
            cut_added(&mut self.added, len - lent - listed);
            return;
        }
        cut_added(&mut self.added, 0);
        if len > lent {
            cut_listed(&mut self.listed, len - lent);
            return;
        }
        cut_listed(&mut self.listed, 0);
        if let Some(lent) = &mut self.lent {
            lent.cut(len);
        }
    }
}

// Names that are listed, none of them bound; None where they are few.
fn listed_over<'a>(alloc: Global, scope: &'a Needs) -> Option<Listed<'a>>
    ensures { unwrap_or result [] ≡ [] }
{
    if scope.len() <= FEW {
        return None;
    }
    Some(Listed::new(alloc, scope))
}

// The value of the last binding of the name among those after all that are listed.
fn find_added<'b>(added: &'b Option<Added<'_>>, name: &str) -> Option<&'b Feel>
    ensures { option_map (λ v. v.now) result ≡ bound name.now (unwrap_or added.now []) }
{
    added.as_ref()?.find(name)
}

// The value of the last binding of a name that is listed.
fn find_listed<'b>(listed: &'b Option<Listed<'_>>, name: &str) -> Option<&'b Feel>
    ensures { option_map (λ v. v.now) result ≡ bound name.now (unwrap_or listed.now []) }
{
    listed.as_ref()?.find(name)
}

// The same of a name as it stands in a text.
#[inline(always)]
fn find_listed_at<'b>(listed: &'b Option<Listed<'_>>, reference: &Reference) -> Option<&'b Feel>
    ensures { option_map (λ v. v.now) result ≡ bound reference.now.name (unwrap_or listed.now []) }
{
    listed.as_ref()?.find_at(reference)
}

// Drops all bindings of listed names but the first so many.
fn cut_listed(listed: &mut Option<Listed<'_>>, len: usize)
    requires { len ≤ length (unwrap_or listed.old []) }
    ensures { unwrap_or listed.new [] ≡ take len (unwrap_or listed.old []) }
{
    if let Some(listed) = listed {
        listed.cut(len);
    }
}

// How many bindings of listed names there are.
fn listed_len(listed: &Option<Listed<'_>>) -> usize
    ensures number { result ≡ length (unwrap_or listed.now []) }
    ensures small { result ≤ 2 ^ 60 }
{
    match listed {
        Some(listed) => listed.len(),
        None => 0,
    }
}

// Drops all bindings after what is listed but the first so many.
fn cut_added(added: &mut Option<Added<'_>>, len: usize)
    requires { len ≤ length (unwrap_or added.old []) }
    ensures { unwrap_or added.new [] ≡ take len (unwrap_or added.old []) }
{
    if let Some(added) = added {
        added.cut(len);
    }
}

// How many bindings there are after what is listed.
fn added_len(added: &Option<Added<'_>>) -> usize
    ensures number { result ≡ length (unwrap_or added.now []) }
    ensures small { result < 2 ^ 63 + 32 }
{
    match added {
        Some(added) => added.len(),
        None => 0,
    }
}

// How many bindings are lent.
fn lent_len(lent: &Option<Lent<'_>>) -> usize
    ensures number { result ≡ length (unwrap_or lent.now []) }
    ensures small { result < 2 ^ 60 }
{
    match lent {
        Some(lent) => lent.len(),
        None => 0,
    }
}
