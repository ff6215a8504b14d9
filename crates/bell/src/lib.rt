//! What threads sleep on. It has no contract: no answer rests on it.
#![tactic(auto)]

mod bell;
mod front;

pub use bell::Bell;
pub use front::FrontBell;
