//! The plans of services under their names.
ghost use Rattle.std.specs.Prelude.{◌≡◌, ℕ, List, OnOk, IfOk, Some, None, bytes_eq, if◌then◌else◌, map, option_map, string_bytes};
ghost use Rattle.std.specs.BTreeMap.{get_by_text};
ghost use Rattle.feel_value.specs.Found.{each};
ghost use Rattle.dmn_plan.specs.Indexed.{first_of, plan_named};

use dmn_service::ServicePlan;
use std::alloc::{AllocError, Global};
use std::collections::BTreeMap;

/// Puts in a plan, unless one of its name is there.
fn put_first(
    alloc: Global,
    plans: &mut BTreeMap<String, ServicePlan>,
    plan: ServicePlan,
) -> Result<(), AllocError>
    ensures { OnOk result ((n : List ℕ) → get_by_text plans.new n ≡ first_of (get_by_text plans.old n) (if bytes_eq n (string_bytes plan.name) then Some plan else None)) }
{
    let key = String::from_str(alloc, plan.name.as_str())?;
    if plans.contains_key(key.as_str()) {
        return Ok(());
    }
    drop(plans.insert(key, plan)?);
    Ok(())
}

/// Each plan under its name; where a name stands twice, the first.
pub(crate) fn plans_by_name(
    alloc: Global,
    plans: Vec<ServicePlan>,
) -> Result<BTreeMap<String, ServicePlan>, AllocError>
    ensures { IfOk result (λ found. (n : List ℕ) → get_by_text found n ≡ plan_named plans.items n) }
{
    let mut found = BTreeMap::new(alloc);
    for plan in plans {
        put_first(alloc, &mut found, plan)?;
    }
    Ok(found)
}

/// The plans of these names; None where one has none.
pub(crate) fn plans_among<'a>(
    alloc: Global,
    plans: &'a BTreeMap<String, ServicePlan>,
    names: &[&str],
) -> Result<Option<Vec<&'a ServicePlan>>, AllocError>
    ensures { IfOk result (λ found. option_map (λ v. map (λ p. p.now) v.items) found ≡ each (λ n. get_by_text plans.now n.now) names.now) }
{
    let mut found = Vec::with_capacity(alloc, names.len())?;
    for name in names {
        let Some(plan) = plans.get(*name) else {
            return Ok(None);
        };
        found.push(plan)?;
    }
    Ok(Some(found))
}
