//! Decision models: read whole or refused with their first fault, and kept so that requests to their services are answered
//! one after another.
#![tactic(auto)]

mod course;
mod fault;
mod index;
mod items;
mod marked;
mod plan;
mod planning;
mod requirements;
mod same;
mod scopes;
mod services;
mod task;
mod values;

pub use course::Course;
pub use fault::{ModelFault, TaskFault};
pub use marked::MarkedPlan;
pub use plan::{Plan, Services};
pub use task::Task;
