//! The front of the decision service: lines of JSON in, one report a line out. It has nothing of its own, and passes on what a
//! program calls of the crates below: the devices and faults of `desk_lines`, `check`, `explain`, `replay`, `serve` and `serve_marked`.
#![tactic(auto)]

pub use desk_checking::{CheckFault, CheckFindings, CheckOptions, RefusedLine, Word, check};
pub use desk_explaining::{ExplainOptions, explain};
pub use desk_lines::{Counted, FrontFault, Input, ReadAhead, Sink, Source, write_all};
pub use desk_replaying::replay;
pub use desk_serving::{Options, serve, serve_marked};
