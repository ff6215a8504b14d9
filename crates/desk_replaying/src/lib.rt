//! `replay`: a script of what happened, answered line by line: one report a line.
#![tactic(auto)]

mod answering;
mod line;
mod reports;
mod run;
mod state;

pub use run::replay;
