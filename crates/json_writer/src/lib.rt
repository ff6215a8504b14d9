//! Texts, numbers and values in compact JSON, each added to a text.
#![tactic(auto)]

mod bounded;
mod members;
mod parts;
mod text;
mod value;

pub use bounded::BoundedText;
pub use text::{add_number, add_quoted};
pub use value::add_value;
