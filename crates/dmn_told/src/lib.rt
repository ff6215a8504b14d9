//! What the services and decisions of a model can give, where its inputs have declared domains.
#![tactic(auto)]

mod coming;
mod domains;
mod told;

pub use coming::{Coming, coming_to};
pub use domains::Domain;
pub use told::{ServiceTold, told_of_service};
