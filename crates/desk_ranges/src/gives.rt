//! What the services of a model can give.
ghost use Rattle.std.specs.Prelude.{◌≡◌, ◌++◌, ◌||◌, ◌<◌, IfOk, OnOk, length, map, nat_lt, take};
ghost use Rattle.std.specs.List.{All, flat_map};
ghost use Rattle.desk_lines.specs.Lines.{ended};
ghost use Rattle.desk_ranges.specs.Gives.{IsMore, TellsEach, TellsServices, fails_with, most_services, written_name};
ghost use Rattle.desk_ranges.specs.Lines.{decision_lines, more_services, service_lines};

use crate::lines::{add_decision, add_more, add_result};
use dmn_form::WrittenService;
use dmn_plan::Plan;
use dmn_ranges::{Outcomes, told_at};
use dmn_told::{Domain, ServiceTold, told_of_service};
use std::alloc::{AllocError, Global};

/// How many services are looked at. Each may need all decisions of a model.
const MOST_SERVICES: usize = 100;

/// How many steps the analysis of the tables takes at most: as many for each of the services.
const STEPS: u64 = 1_000_000;

/// What is told of services, one after another.
#[derive(Drop)]
pub struct Gives {
    /// A line for each service, with those of its decisions after it.
    pub text: Vec<u8>,
    /// Whether one of the services can give null, or break a limit; or is left out, so that this isn't known.
    pub can_fail: bool,
}

fn fails_with(outcomes: Outcomes) -> bool
    ensures { result ≡ fails_with outcomes }
{
    outcomes.range.nulls || outcomes.limit
}

fn either(a: bool, b: bool) -> bool
    ensures { result ≡ a || b }
{
    a || b
}

/// Adds the lines of the decisions at these places.
fn add_decisions(
    alloc: Global,
    service: &str,
    told: &ServiceTold,
    order: &[usize],
    text: &mut Vec<u8>,
) -> Result<(), AllocError>
    requires { All (λ q. q < length told.now.items.now) order.now }
    ensures { OnOk result (text.new.items ≡ text.old.items ++ flat_map ended (decision_lines service.now told.now order.now)) }
{
    let items = told.items;
    for place in order {
        let outcomes = told_at(&told.decisions, *place);
        let decision = items[*place].name.as_str();
        add_decision(alloc, decision, service, outcomes, text)?;
    }
    Ok(())
}

/// Adds the lines of a service.
fn add_service(
    alloc: Global,
    service: &str,
    told: &ServiceTold,
    text: &mut Vec<u8>,
) -> Result<(), AllocError>
    requires { All (λ q. q < length told.now.items.now) told.now.plan.now.order.items }
    ensures { OnOk result (text.new.items ≡ text.old.items ++ flat_map ended (service_lines service.now told.now)) }
{
    add_result(alloc, service, told.result, text)?;
    add_decisions(alloc, service, told, &told.plan.order, text)?;
    Ok(())
}

impl Gives {
    /// Looks at a service.
    fn look_at(
        &mut self,
        alloc: Global,
        plan: &Plan,
        service: &str,
        domains: &[Domain],
        steps: u64,
    ) -> Result<(), AllocError>
        ensures { OnOk result (IsMore plan.now domains.now service.now self.old self.new) }
    {
        let Some(told) = told_of_service(alloc, plan, service, domains, steps)? else {
            return Ok(());
        };
        self.can_fail = either(self.can_fail, fails_with(told.result));
        add_service(alloc, service, &told, &mut self.text)?;
        Ok(())
    }

    /// Tells how many services are left out.
    fn leave_out(&mut self, more: usize) -> Result<(), AllocError>
        ensures text { OnOk result (self.new.text.items ≡ self.old.text.items ++ flat_map ended (more_services more)) }
        ensures fails { OnOk result (self.new.can_fail ≡ (self.old.can_fail || nat_lt 0 more)) }
    {
        add_more(more, &mut self.text)?;
        self.can_fail = either(self.can_fail, 0 < more);
        Ok(())
    }
}

/// The first of these services, as many as are looked at.
fn looked_at(services: &[WrittenService]) -> &[WrittenService]
    ensures { result.now ≡ take most_services services.now }
{
    if services.len() <= MOST_SERVICES {
        return services;
    }
    let (first, _rest) = services.split_at(MOST_SERVICES);
    first
}

/// The steps for each of so many services.
fn steps_for_each(services: usize) -> u64 {
    if services == 0 {
        return STEPS;
    }
    STEPS / services as u64
}

/// What each of these services and its decisions can give.
fn gives_of_each(
    alloc: Global,
    plan: &Plan,
    services: &[WrittenService],
    domains: &[Domain],
) -> Result<Gives, AllocError>
    ensures { IfOk result (TellsEach plan.now domains.now (map written_name services.now)) }
{
    let mut gives = Gives {
        text: Vec::new(alloc),
        can_fail: false,
    };
    let steps = steps_for_each(services.len());
    for place in 0..services.len() {
        let service = &services[place];
        gives.look_at(alloc, plan, service.name.as_str(), domains, steps)?;
    }
    Ok(gives)
}

/// What the first 100 of these services of a model and their decisions can give, where each value of a parameter meets the tests that
/// are declared under the parameter's name; and how many others there are. The domains are in the order of their names. The analysis of
/// the tables takes at most 1,000,000 steps in all, as many for each service: a table that those don't suffice for is told as one of
/// which no rule may hit, or several.
pub fn gives_of_services(
    alloc: Global,
    plan: &Plan,
    services: &[WrittenService],
    domains: &[Domain],
) -> Result<Gives, AllocError>
    ensures { IfOk result (TellsServices plan.now domains.now (map written_name services.now)) }
{
    let mut gives = gives_of_each(alloc, plan, looked_at(services), domains)?;
    gives.leave_out(services.len().saturating_sub(MOST_SERVICES))?;
    Ok(gives)
}
