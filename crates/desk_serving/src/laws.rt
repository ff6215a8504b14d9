//! A law of what is served. The function does nothing: what counts is what it ensures.
ghost use Rattle.desk_serving.specs.Own.{OwnLinesDecide};

/// What a client is told follows from its own lines and the models in force on them, but for the numbers of lines: it doesn't matter
/// with which other clients, in which process and over how many lanes they are served. So clients can be shared out over processes.
pub fn own_lines_decide()
    ensures { OwnLinesDecide }
{}
