//! Numbers for the texts of models, by which two texts are known to be one without a look at their bytes.
#![tactic(auto)]

mod mark;
mod marks;
mod slots;

pub use mark::{Catalog, Mark, Unmarked};
pub use marks::Marks;
pub use slots::{MOST, Slots};
