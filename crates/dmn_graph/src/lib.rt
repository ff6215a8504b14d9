//! Graphs of what needs what, over places from 0 on: an order in which each place stands behind all that it needs, and
//! what places lead to.
#![tactic(auto)]

mod needs;
mod order;
mod rank;
mod search;
mod walk;

pub use needs::{are_below, are_needs_below};
pub use order::order_of;
pub use rank::{ranks_of, reached_order};
pub use walk::{reach, set_of};
