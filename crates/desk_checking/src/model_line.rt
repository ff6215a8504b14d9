//! The first line of a lawful model.
ghost use Rattle.std.specs.Prelude.{◌≡◌, ◌++◌, OnOk, map};
ghost use Rattle.serde_json.specs.Data.{array};
ghost use Rattle.serde_json.specs.Written.{compact_text};
ghost use Rattle.desk_lines.specs.Lines.{ended};
ghost use Rattle.dmn_form.specs.LogicView.{logic_view};
ghost use Rattle.dmn_form.specs.ModelView.{decision_view, model_view, service_view};
ghost use Rattle.desk_checking.specs.Told.{decision_told, decisions_told, kind_of, lawful_line, service_told, services_told};

use crate::parts::{add_comma, add_texts};
use dmn_form::{WrittenDecision, WrittenLogic, WrittenModel, WrittenService};
use json_writer::add_quoted;
use std::alloc::{AllocError, Global};

/// The kind of a decision's logic.
fn kind_of(logic: &WrittenLogic) -> &'static str
    ensures { result.now ≡ kind_of (logic_view logic.now) }
{
    match logic {
        WrittenLogic::Expression(_) => "expression",
        WrittenLogic::Table(_) => "table",
        WrittenLogic::List(_) => "list",
        WrittenLogic::Context(_) => "context",
        WrittenLogic::ContextWith(_, _) => "context with a result",
    }
}

fn add_decision(
    alloc: Global,
    decision: &WrittenDecision,
    text: &mut Vec<u8>,
) -> Result<(), AllocError>
    ensures { OnOk result (text.new.items ≡ text.old.items ++ compact_text (decision_told (decision_view decision.now))) }
{
    text.extend_from_slice(b"{\"name\":")?;
    add_quoted(alloc, decision.name.as_str(), text)?;
    text.extend_from_slice(b",\"kind\":")?;
    add_quoted(alloc, kind_of(&decision.logic), text)?;
    text.extend_from_slice(b"}")?;
    Ok(())
}

fn add_service(
    alloc: Global,
    service: &WrittenService,
    text: &mut Vec<u8>,
) -> Result<(), AllocError>
    ensures { OnOk result (text.new.items ≡ text.old.items ++ compact_text (service_told (service_view service.now))) }
{
    text.extend_from_slice(b"{\"name\":")?;
    add_quoted(alloc, service.name.as_str(), text)?;
    text.extend_from_slice(b",\"parameters\":")?;
    add_texts(alloc, &service.input_decisions, &service.input_data, text)?;
    text.extend_from_slice(b"}")?;
    Ok(())
}

fn add_decisions(
    alloc: Global,
    decisions: &[WrittenDecision],
    text: &mut Vec<u8>,
) -> Result<(), AllocError>
    ensures { OnOk result (text.new.items ≡ text.old.items ++ compact_text (array (decisions_told (map decision_view decisions.now)))) }
{
    let mut later = false;
    text.push(b'[')?;
    for decision in decisions {
        add_comma(later, text)?;
        add_decision(alloc, decision, text)?;
        later = true;
    }
    text.push(b']')?;
    Ok(())
}

fn add_services(
    alloc: Global,
    services: &[WrittenService],
    text: &mut Vec<u8>,
) -> Result<(), AllocError>
    ensures { OnOk result (text.new.items ≡ text.old.items ++ compact_text (array (services_told (map service_view services.now)))) }
{
    let mut later = false;
    text.push(b'[')?;
    for service in services {
        add_comma(later, text)?;
        add_service(alloc, service, text)?;
        later = true;
    }
    text.push(b']')?;
    Ok(())
}

/// Adds the first line of a lawful model: its inputs, its decisions with their kinds, and its services with their parameters.
pub(crate) fn add_model(
    alloc: Global,
    model: &WrittenModel,
    text: &mut Vec<u8>,
) -> Result<(), AllocError>
    ensures { OnOk result (text.new.items ≡ text.old.items ++ ended (lawful_line (model_view model.now))) }
{
    text.extend_from_slice(b"{\"lawful\":true,\"inputs\":")?;
    add_texts(alloc, &model.inputs, &[], text)?;
    text.extend_from_slice(b",\"decisions\":")?;
    add_decisions(alloc, &model.decisions, text)?;
    text.extend_from_slice(b",\"services\":")?;
    add_services(alloc, &model.services, text)?;
    text.extend_from_slice(b"}\n")?;
    Ok(())
}
