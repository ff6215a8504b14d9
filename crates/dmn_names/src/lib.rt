//! The names of a decision model as it is written: whether each is lawful, whether one stands twice where it may stand once,
//! and where the values stand that are named.
#![tactic(auto)]

mod distinct;
mod index;
mod lawful;
mod named;
mod places;
mod size;
mod walk;

pub use distinct::{has_name_twice, have_twice};
pub use lawful::has_bad_name;
pub use named::{Named, names_of_values};
pub use places::{Places, ServicePlaces};
pub use size::{MOST_DECISIONS, is_large};
