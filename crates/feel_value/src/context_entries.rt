//! The entries of a context, collected one by one as long as their context keeps the limits.
ghost use Rattle.std.specs.Prelude.{◌≡◌, ◌++◌, [], ◌∷◌, IfOk, MatchResult, true, if◌then◌else◌};
ghost use Rattle.std.specs.Arc.{arc_str_bytes};
ghost use Rattle.feel_value.specs.Datum.{context, entries_of};
ghost use Rattle.feel_value.specs.Limits.{keeps_limits};
ghost use Rattle.feel_value.specs.Outcome.{held};

use crate::feel::{Feel, Outcome};
use crate::names::names_differ;
use crate::size::Size;
use crate::value::Value;
use std::alloc::{AllocError, Global};
use std::marker::Model;
use std::sync::{Arc, ArcStr};

/// The entries of a context that is being collected. The context of them keeps the limits at any time; their names may repeat.
#[derive(Drop)]
pub struct ContextEntries {
    entries: Vec<(ArcStr, Value)>,
    // The size of their context.
    size: Size,
}

impl Model for ContextEntries {
    ghost use Rattle.std.specs.Prelude.{List, ℕ, map};
    ghost use Rattle.std.specs.Coded.{coded_list, coded×, coded_ℕ};
    ghost use Rattle.feel_value.specs.Datum.{Datum};
    ghost use Rattle.feel_value.specs.Code.{datum_code};

    ghost Value = { List (List ℕ × Datum) };

    ghost coded = { coded_list (coded× (coded_list coded_ℕ) datum_code) };

    ghost use Rattle.feel_value.specs.Sizes.{IsContext};
    ghost use Rattle.feel_value.specs.View.{named};

    ghost view = { λ e. map named e.entries.items };

    ghost invariant = { λ e. IsContext (map named e.entries.items) e.size };
}

impl ContextEntries {
    /// No entry. It takes no memory, and keeps the allocator for its entries.
    pub fn new(alloc: Global) -> ContextEntries
        ensures { result ≡ [] }
    {
        ContextEntries {
            entries: Vec::new(alloc),
            size: Size::of_one_node(),
        }
    }

    /// Takes one more entry; or answers false, and drops it, where the context of all would no longer keep the limits.
    ///
    /// The time is constant.
    pub fn push(&mut self, name: ArcStr, value: Feel) -> Result<bool, AllocError>
        ensures fits { IfOk result (λ b. b ≡ keeps_limits (context (entries_of (self.old ++ (arc_str_bytes name, value) ∷ [])))) }
        ensures taken { MatchResult result (λ b. self.new ≡ (if b then self.old ++ (arc_str_bytes name, value) ∷ [] else self.old)) (λ _. self.new ≡ self.old) }
    {
        let Some(size) = value.grown(self.size) else {
            return Ok(false);
        };
        self.entries.push((name, value.into_value()))?;
        self.size = size;
        Ok(true)
    }

    /// The context of the entries, where their names are distinct. No value is walked through again, and the names cost what
    /// they cost `Feel::of`.
    pub fn into_context(self, alloc: Global) -> Result<Outcome, AllocError>
        ensures outcome { IfOk result (λ o. o ≡ held (context (entries_of self))) }
        ensures kept { keeps_limits (context (entries_of self)) ≡ true }
    {
        let ContextEntries { entries, size } = self;
        if !names_differ(&entries) {
            return Ok(Outcome::Limit);
        }
        let value = Feel::of_entries(alloc, entries, size)?;
        Ok(Outcome::Is(value))
    }
}
