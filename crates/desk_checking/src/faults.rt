//! The places of all faults of a model.
ghost use Rattle.std.specs.Prelude.{◌≡◌, ◌++◌, OnOk, Some, option_map};
ghost use Rattle.std.specs.List.{flat_map};
ghost use Rattle.desk_lines.specs.Lines.{ended};
ghost use Rattle.dmn_check.specs.ToldView.{told_view};
ghost use Rattle.dmn_form.specs.ModelView.{model_view};
ghost use Rattle.desk_checking.specs.Told.{need_lines, part_lines, place_lines};
ghost use Rattle.desk_checking.specs.Known.{known_lines};

use crate::fault_lines::add_places;
use dmn_check::{
    Told, bad_services, cycles, refused_tables, repeated_names, too_large, unfit_rules,
    unknown_names, unlawful_names, unread_texts,
};
use dmn_form::WrittenModel;
use dmn_plan::ModelFault;
use std::alloc::{AllocError, Global};

/// Adds the lines of a fault of the requirements, which is not known where a name is unknown or stands twice, or decisions are too many.
fn add_known(
    alloc: Global,
    fault: ModelFault,
    told: &Option<Told>,
    text: &mut Vec<u8>,
) -> Result<(), AllocError>
    ensures { OnOk result (text.new.items ≡ text.old.items ++ flat_map ended (known_lines fault (option_map told_view told.now))) }
{
    let Some(told) = told else {
        return Ok(());
    };
    add_places(alloc, fault, told, text)
}

/// Adds the faults of names and texts.
fn add_part_faults(
    alloc: Global,
    model: &WrittenModel,
    text: &mut Vec<u8>,
) -> Result<(), AllocError>
    ensures { OnOk result (text.new.items ≡ text.old.items ++ flat_map ended (part_lines (model_view model.now))) }
{
    let unlawful = unlawful_names(alloc, model)?;
    add_places(alloc, ModelFault::Name, &unlawful, text)?;
    let repeated = repeated_names(alloc, model)?;
    add_places(alloc, ModelFault::Twice, &repeated, text)?;
    let unread = unread_texts(alloc, model)?;
    add_places(alloc, ModelFault::Expression, &unread, text)?;
    let refused = refused_tables(alloc, model)?;
    add_places(alloc, ModelFault::Table, &refused, text)?;
    let unfit = unfit_rules(alloc, model)?;
    add_places(alloc, ModelFault::Table, &unfit, text)?;
    Ok(())
}

/// Adds the faults of what needs what.
fn add_need_faults(
    alloc: Global,
    model: &WrittenModel,
    text: &mut Vec<u8>,
) -> Result<(), AllocError>
    ensures { OnOk result (text.new.items ≡ text.old.items ++ flat_map ended (need_lines (model_view model.now))) }
{
    let unknown = unknown_names(alloc, model)?;
    add_places(alloc, ModelFault::Unknown, &unknown, text)?;
    let rings = cycles(alloc, model)?;
    add_known(alloc, ModelFault::Cycle, &rings, text)?;
    let unfit = bad_services(alloc, model)?;
    add_known(alloc, ModelFault::Service, &unfit, text)?;
    let large = too_large(alloc, model)?;
    add_places(alloc, ModelFault::Large, &large, text)?;
    Ok(())
}

/// Adds the places of all faults that are told with places, the faults in their order.
pub(crate) fn add_faults(
    alloc: Global,
    model: &WrittenModel,
    text: &mut Vec<u8>,
) -> Result<(), AllocError>
    ensures { OnOk result (text.new.items ≡ text.old.items ++ flat_map ended (place_lines (Some (model_view model.now)))) }
{
    add_part_faults(alloc, model, text)?;
    add_need_faults(alloc, model, text)?;
    Ok(())
}
