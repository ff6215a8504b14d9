//! What the services and decisions of a model can give, as lines of JSON.
#![tactic(auto)]

mod gives;
mod lines;

pub use gives::{Gives, gives_of_services};
