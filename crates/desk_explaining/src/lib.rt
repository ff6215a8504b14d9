//! `explain`: the lines of `serve`, answered one after another as `serve` answers them, each with its reasons.
#![tactic(auto)]

mod answering;
mod explanation;
mod laws;
mod options;
mod run;
mod state;

pub use laws::reasons_are_added;
pub use options::ExplainOptions;
pub use run::explain;
