//! A law of what is told. The function does nothing: what counts is what it ensures.
ghost use Rattle.std.specs.Prelude.{◌≡◌};
ghost use Rattle.dmn_form.specs.Draft.{Draft};
ghost use Rattle.dmn_plan.specs.ReadModel.{first_fault};
ghost use Rattle.dmn_check.specs.FirstFault.{findings_of, first_with_place};

/// The first fault that has a place is the first fault of the model: none is told that the model lacks, and none is left out.
pub fn first_place_is_of_first_fault()
    ensures { (m : Draft) → first_with_place findings_of m ≡ first_fault m }
{}
