//! How requests are answered, decision by decision.
use dmn_service::{Item, ServicePlan};
use feel_value::Outcome;

/// How a request is answered: by which plan, with which outcome at each place on the way, and with which result.
#[derive(Drop)]
pub struct Course<'a> {
    /// The inputs of the model and then its decisions, each at its place.
    pub items: &'a [Item],
    /// The plan of the service that is asked.
    pub service: &'a ServicePlan,
    /// An outcome for each item, at its place. Only those of the parameters and of the plan's order say something.
    pub outcomes: Vec<Outcome>,
    /// The result.
    pub result: Outcome,
}
