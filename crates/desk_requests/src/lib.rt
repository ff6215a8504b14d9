//! The lines of `serve`: what they say, and what each is answered with by the lines before it, whichever worker answers.
//!
//! `serve` and `explain` stand on it, and `check` reads requests by it, so that all three take the same lines and refuse the same.
#![tactic(auto)]

mod decider;
mod gate;
mod line;
mod refused;
mod register;
mod services;

pub use decider::{Decider, Due, Seat, decide};
pub use gate::Gate;
pub use line::{Line, line_heard};
pub use refused::RefusedLine;
pub use register::{Answer, Asked, Register};
