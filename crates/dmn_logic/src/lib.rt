//! The logic of decisions: boxed expressions, read from the texts that they are written in, and evaluated exactly to what
//! they mean.
#![tactic(auto)]

mod decisions;
mod evaluation;
mod fault;
mod logic;
mod reading;
mod table;
mod texts;

pub use decisions::read_decision_logic;
pub use evaluation::evaluate;
pub use fault::LogicFault;
pub use logic::Logic;
