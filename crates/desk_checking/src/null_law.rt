//! What it means that `strict_null` refuses nothing that can be given. The function does nothing: what counts is what it ensures.
ghost use Rattle.std.specs.Prelude.{◌≡◌, ℕ, List, false};
ghost use Rattle.dmn_form.specs.Model.{Name};
ghost use Rattle.dmn_graph.specs.Reach.{Each};
ghost use Rattle.dmn_told.specs.declared.domains.Domain.{Domain};
ghost use Rattle.desk_ranges.specs.Gives.{TellsServices};
ghost use Rattle.desk_ranges.specs.declared.gives.Gives.{Gives};
ghost use Rattle.desk_checking.specs.NeverNull.{NeverFails};

/// Where no service is told to give null or to break a limit, each request to one whose values are as declared has a value, which is not
/// null.
pub fn strict_null_takes()
    ensures { (text : List ℕ) (domains : List Domain) (services : List Name) (gives : Gives) → TellsServices text domains services gives → gives.can_fail ≡ false → Each (NeverFails text domains) services }
{}
