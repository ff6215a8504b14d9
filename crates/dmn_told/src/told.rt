//! What a service can give.
ghost use Rattle.std.specs.Prelude.{◌≡◌, is_some, IfOk, IfSome};
ghost use Rattle.dmn_plan.specs.ReadModel.{read_text};
ghost use Rattle.dmn_plan.specs.Request.{service_in};
ghost use Rattle.dmn_told.specs.Told.{IsToldOf};

use crate::domains::{Domain, domains_of};
use dmn_plan::Plan;
use dmn_ranges::{Outcomes, ranges_of_service};
use dmn_service::{Item, ServicePlan};
use std::alloc::{AllocError, Global};

/// What a service can give, and each decision that it needs.
#[derive(Drop)]
pub struct ServiceTold<'a> {
    /// The inputs of the model and then its decisions, each at its place.
    pub items: &'a [Item],
    /// The plan of the service, by places.
    pub plan: &'a ServicePlan,
    /// At the place of each decision of the plan's order what it can give. Other places say nothing.
    pub decisions: Vec<Outcomes>,
    /// What the service can give.
    pub result: Outcomes,
}

/// What the service of this name and its decisions can give, where each value of a parameter meets the tests that are declared
/// under the parameter's name. None where there is no such service. The domains are in the order of their names; one that isn't may
/// count as none. The analysis of all its tables takes at most so many steps.
pub fn told_of_service<'a>(
    alloc: Global,
    plan: &'a Plan,
    service: &str,
    domains: &[Domain],
    steps: u64,
) -> Result<Option<ServiceTold<'a>>, AllocError>
    ensures there { IfOk result (λ t. is_some t ≡ is_some (service_in (read_text plan.now) service.now)) }
    ensures told { IfOk result (λ t. IfSome t (IsToldOf plan.now service.now domains.now)) }
{
    let Some(names) = plan.parameters(alloc, service)? else {
        return Ok(None);
    };
    let Some((items, planned)) = plan.service_plan(service) else {
        return Ok(None);
    };
    let ranges = domains_of(alloc, domains, &names)?;
    let told = ranges_of_service(alloc, items, planned, &ranges, steps)?;
    Ok(Some(ServiceTold {
        items,
        plan: planned,
        decisions: told.decisions,
        result: told.result,
    }))
}
