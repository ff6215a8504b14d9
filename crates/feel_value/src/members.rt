//! The members of a list, collected one by one as long as the list is a value.
ghost use Rattle.std.specs.Prelude.{◌≡◌, ◌++◌, [], ◌∷◌, IfOk, MatchResult, true, if◌then◌else◌};
ghost use Rattle.feel_value.specs.Datum.{list, items_of};
ghost use Rattle.feel_value.specs.Limits.{is_value};

use crate::feel::Feel;
use crate::size::Size;
use crate::value::Value;
use std::alloc::{AllocError, Global};
use std::marker::Model;
use std::sync::Arc;

/// The members of a list that is being collected. The list of them is a value at any time.
#[derive(Drop)]
pub struct Members {
    values: Vec<Value>,
    // The size of their list.
    size: Size,
}

impl Model for Members {
    ghost use Rattle.std.specs.Prelude.{List, map};
    ghost use Rattle.std.specs.Coded.{coded_list};
    ghost use Rattle.feel_value.specs.Datum.{Datum};
    ghost use Rattle.feel_value.specs.Code.{datum_code};

    ghost Value = { List Datum };

    ghost coded = { coded_list datum_code };

    ghost use Rattle.feel_value.specs.Sizes.{IsList};
    ghost use Rattle.feel_value.specs.View.{datum_of};

    ghost view = { λ m. map datum_of m.values.items };

    ghost invariant = { λ m. IsList (map datum_of m.values.items) m.size };
}

impl Members {
    /// No member. It takes no memory, and keeps the allocator for its members.
    pub fn new(alloc: Global) -> Members
        ensures { result ≡ [] }
    {
        Members {
            values: Vec::new(alloc),
            size: Size::of_one_node(),
        }
    }

    /// Takes one more member; or answers false, and drops it, where the list of all would be no value.
    ///
    /// The time is constant.
    pub fn push(&mut self, value: Feel) -> Result<bool, AllocError>
        ensures fits { IfOk result (λ b. b ≡ is_value (list (items_of (self.old ++ value ∷ [])))) }
        ensures taken { MatchResult result (λ b. self.new ≡ (if b then self.old ++ value ∷ [] else self.old)) (λ _. self.new ≡ self.old) }
    {
        let Some(size) = value.grown(self.size) else {
            return Ok(false);
        };
        self.values.push(value.into_value())?;
        self.size = size;
        Ok(true)
    }

    /// The list of the members.
    pub fn into_list(self, alloc: Global) -> Result<Feel, AllocError>
        ensures members { IfOk result (λ f. f ≡ list (items_of self)) }
        ensures lawful { is_value (list (items_of self)) ≡ true }
    {
        let Members { values, size } = self;
        Feel::of_members(alloc, values, size)
    }
}
