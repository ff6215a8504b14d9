//! What the services of a model can give, where that is asked for.
ghost use Rattle.std.specs.Prelude.{◌≡◌, ◌&&◌, IfOk, map};
ghost use Rattle.desk_ranges.specs.Gives.{written_name};
ghost use Rattle.desk_checking.specs.GivesTold.{GivesIf, looks_at_services as looks_at_services_if};

use crate::options::CheckOptions;
use desk_ranges::{Gives, gives_of_services};
use dmn_form::WrittenService;
use dmn_plan::Plan;
use dmn_told::Domain;
use std::alloc::{AllocError, Global};

fn looks_at_services(options: CheckOptions) -> bool
    ensures { result ≡ looks_at_services_if options }
{
    options.gives || options.strict_null
}

/// What is told of these services within the domains, where the options say so.
pub(crate) fn gives_if(
    alloc: Global,
    options: CheckOptions,
    plan: &Plan,
    services: &[WrittenService],
    domains: &[Domain],
) -> Result<Gives, AllocError>
    ensures { IfOk result (λ gives. GivesIf (looks_at_services_if options) options.strict_null plan.now domains.now (map written_name services.now) gives.text.items (options.strict_null && gives.can_fail)) }
{
    if !looks_at_services(options) {
        return Ok(Gives {
            text: Vec::new(alloc),
            can_fail: false,
        });
    }
    let gives = gives_of_services(alloc, plan, services, domains)?;
    Ok(gives)
}
