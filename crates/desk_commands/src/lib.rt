//! What the program does with its words: it replays, serves, checks, explains, gives help or its version,
//! or tells what is wrong with them.
#![tactic(auto)]

mod command;
mod help;
mod options;
mod run;
mod version;

pub use run::{run_desk, tell_of_words};
