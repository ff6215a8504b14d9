//! A law of what is explained. The function does nothing: what counts is what it ensures.
ghost use Rattle.desk_explaining.specs.Reasons.{ReasonsAreAdded};

/// Each answer, without its reasons, is the report that `serve` is due to give.
pub fn reasons_are_added()
    ensures { ReasonsAreAdded }
{}
