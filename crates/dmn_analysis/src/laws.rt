//! What the answers say of a table's result, and of the hits that it is made of. These functions do nothing: what counts is what
//! they ensure.
ghost use Rattle.std.specs.Prelude.{◌≡◌, ◌≤◌, ℕ, List, Some, true, length};
ghost use Rattle.std.specs.List.{All};
ghost use Rattle.feel_value.specs.Datum.{Datum};
ghost use Rattle.feel_value.specs.Found.{outcome_from};
ghost use Rattle.feel_value.specs.Limits.{is_value};
ghost use Rattle.feel_text.specs.Meaning.{Bindings};
ghost use Rattle.dmn_table.specs.Hits.{values_of};
ghost use Rattle.dmn_table.specs.Priority.{Hit};
ghost use Rattle.dmn_table.specs.Result.{found_hits, policy_result, table_result};
ghost use Rattle.dmn_table.specs.Table.{Table};
ghost use Rattle.dmn_analysis.specs.Claims.{AreAsked, AskEverything, IsComplete, IsMasked, IsMaskedAmong, IsNeverMet, IsNeverMetAmong, IsUnique, IsUniqueAmong};
ghost use Rattle.dmn_analysis.specs.declared.asked.Asked.{Asked};

/// Where a table is complete for what is asked about, and the values of its input expressions are that, its result is what the
/// hit policy makes of the hits: no default.
pub fn complete_gives_no_default()
    ensures { (t : Table) (asked : List Asked) (m : Bindings) (values : List Datum) → IsComplete t asked → values_of m t.inputs ≡ Some values → All (λ v. is_value v ≡ true) values → AreAsked asked values → table_result t m ≡ outcome_from (policy_result t.policy) (found_hits t m) }
{}

/// Where a table is unique for what is asked about, and the values of its input expressions are that, there is at most one hit.
pub fn unique_gives_one_hit()
    ensures { (t : Table) (asked : List Asked) (m : Bindings) (values : List Datum) (hits : List Hit) → IsUniqueAmong t asked → values_of m t.inputs ≡ Some values → All (λ v. is_value v ≡ true) values → AreAsked asked values → found_hits t m ≡ Some hits → length hits ≤ 1 }
{}

/// Where every value is asked about, it holds of every value that a table is unique, and that a rule never hits or never decides.
pub fn every_value_is_asked()
    ensures unique { (t : Table) (asked : List Asked) → AskEverything asked → IsUniqueAmong t asked → IsUnique t }
    ensures never { (t : Table) (asked : List Asked) (i : ℕ) → AskEverything asked → IsNeverMetAmong t asked i → IsNeverMet t i }
    ensures masked { (t : Table) (asked : List Asked) (i : ℕ) → AskEverything asked → IsMaskedAmong t asked i → IsMasked t i }
{}
