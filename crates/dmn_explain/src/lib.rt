//! How the answer to a request came about: what each decision on the way stands for, and how its logic came to that, in JSON.
#![tactic(auto)]

mod asking;
mod boxed;
mod columns;
mod decisions;
mod hit;
mod inputs;
mod key;
mod misses;
mod named;
mod needed;
mod table;
mod under_names;
mod value;

pub use decisions::add_decisions;
pub use inputs::add_inputs;
