//! The result of a decision service: each decision that the service needs is evaluated once, along the places of a plan.
#![tactic(auto)]

mod found;
mod outputs;
mod plan;
mod service;

pub use plan::{Item, ServicePlan};
pub use service::{Evaluation, service_evaluation, service_outcome, service_outcome_in_order};
