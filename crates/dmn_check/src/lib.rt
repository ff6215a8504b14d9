//! The places where a decision model is wrong, fault by fault. Cycles and services are looked for only where no name stands
//! twice, none is unknown and there are not too many decisions.
#![tactic(auto)]

mod chase;
mod cycle;
mod finding;
mod graph;
mod large;
mod laws;
mod look;
mod marks;
mod names;
mod notes;
mod place;
mod refused;
mod rules;
mod services;
mod told;
mod unknown;
mod unread;
mod walk;

pub use cycle::cycles;
pub use finding::{Finding, Mistake, ServiceFault, TextKind};
pub use large::too_large;
pub use laws::first_place_is_of_first_fault;
pub use names::{repeated_names, unlawful_names};
pub use place::{Key, Place, Step};
pub use refused::refused_tables;
pub use rules::unfit_rules;
pub use services::bad_services;
pub use told::Told;
pub use unknown::unknown_names;
pub use unread::unread_texts;
