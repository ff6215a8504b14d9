//! Checks one model.
ghost use Rattle.std.specs.Prelude.{◌≡◌, ◌≢◌, ◌&&◌, ◌++◌, ◌<◌, ◌≤◌, ◌-◌, ◌^◌, ℕ, List, [], length, map, Option, None, Some, Ok, Err, OnOk, IfOk, IfErr, IsTrue, is_ok, option_map, true};
ghost use Rattle.std.specs.List.{flat_map};
ghost use Rattle.serde_json.specs.Data.{Data};
ghost use Rattle.serde_json.specs.View.{view};
ghost use Rattle.serde_json.specs.Written.{compact_text};
ghost use Rattle.desk_lines.specs.Lines.{ended, lines_of, max_line};
ghost use Rattle.desk_lines.specs.Told.{WritesAll};
ghost use Rattle.desk_ranges.specs.Gives.{written_name};
ghost use Rattle.dmn_form.specs.Draft.{Draft, draft_of};
ghost use Rattle.dmn_form.specs.ModelView.{model_view};
ghost use Rattle.feel_text.specs.Expr.{Expr as ExprSpec};
ghost use Rattle.dmn_table.specs.Table.{Table as TableSpec};
ghost use Rattle.dmn_form.specs.Model.{Model as ModelSpec};
ghost use Rattle.dmn_plan.specs.ReadModel.{read_model, read_text};
ghost use Rattle.desk_checking.specs.Checked.{Checked};
ghost use Rattle.desk_checking.specs.Domains.{FitsDomains, domains_in, refused_in};
ghost use Rattle.desk_checking.specs.DomainsView.{domain_views, name_views};
ghost use Rattle.desk_checking.specs.FirstFault.{IsFirstFault, IsTakenBy, fault_in, model_fault, model_line};
ghost use Rattle.desk_checking.specs.Output.{TellsModel, TellsText};
ghost use Rattle.desk_checking.specs.Told.{domain_lines, fault_line, faulty_lines, long_line};
ghost use Rattle.desk_checking.specs.Tables.{tables_of};
ghost use Rattle.desk_checking.specs.TablesTold.{IsWithin, TellsIf};
ghost use Rattle.desk_checking.specs.Verdicts.{IsDueTo, failure_of, failures_in};
ghost use Rattle.desk_checking.specs.declared.options.CheckOptions.{CheckOptions as OptionsSpec};
ghost use Rattle.desk_checking.specs.declared.findings.CheckFault.TheVariants as found;

use crate::cut::model_and_requests;
use crate::decision_inputs::DecisionInputs;
use crate::domain_lines::add_domains;
use crate::domains::declared_beside;
use crate::fault_lines::add_fault;
use crate::faults::add_faults;
use crate::findings::{CheckFault, CheckFindings};
use crate::gives::gives_if;
use crate::input::read_whole;
use crate::long::{MOST_LINE, add_length, line_length};
use crate::model_line::add_model;
use crate::options::CheckOptions;
use crate::requests::{add_refusals, refused_among};
use crate::subject::subject;
use crate::tables::{ToldTables, told_tables};
use desk_lines::{FrontFault, Sink, Source, write_all};
use desk_requests::RefusedLine;
use dmn_form::{WrittenModel, WrittenService, read_form};
use dmn_plan::{ModelFault, Plan};
use dmn_told::Domain;
use serde_json::Value;
use std::alloc::{AllocError, Global};

/// What a model was found to be, and what is told of it.
#[derive(Drop)]
pub(crate) struct Verdict {
    pub(crate) fault: Option<CheckFault>,
    pub(crate) text: Vec<u8>,
    /// Whether `strict` refuses one of its tables, where these were looked through.
    pub(crate) are_tables_refused: bool,
    /// Whether one of its services can give null or break a limit, where that was asked for.
    pub(crate) can_fail: bool,
    /// The first lines of requests behind it that `serve` refuses.
    pub(crate) refused: Vec<RefusedLine>,
}

/// A model with a fault, of which this is told.
fn faulty(alloc: Global, fault: CheckFault, text: Vec<u8>) -> Verdict
    ensures fault { result.fault ≡ Some fault }
    ensures text { result.text ≡ text }
    ensures refused { result.refused.items ≡ [] }
{
    Verdict {
        fault: Some(fault),
        text,
        are_tables_refused: false,
        can_fail: false,
        refused: Vec::new(alloc),
    }
}

/// What is told of a model with this fault.
fn text_of_fault(
    alloc: Global,
    model: &WrittenModel,
    fault: ModelFault,
) -> Result<Vec<u8>, AllocError>
    ensures { IfOk result (λ text. (d : Data) (beside : Option Data) → draft_of d ≡ Some (model_view model.now) → fault ≢ ModelFault.Syntax → text.items ≡ flat_map ended (faulty_lines (Some d) beside (found.Model fault))) }
{
    let mut text = Vec::new(alloc);
    add_fault(alloc, CheckFault::Model(fault), &mut text)?;
    add_faults(alloc, model, &mut text)?;
    Ok(text)
}

/// What is told of a model without a fault whose line has so many bytes, more than a line may have.
fn text_of_long(alloc: Global, length: usize) -> Result<Vec<u8>, AllocError>
    ensures { IfOk result (λ text. text.items ≡ ended (fault_line found.Long) ++ ended (long_line length)) }
{
    let mut text = Vec::new(alloc);
    add_fault(alloc, CheckFault::Long, &mut text)?;
    add_length(length, &mut text)?;
    Ok(text)
}

/// What is told of a model beside which these can't be read.
fn text_of_domains(alloc: Global, refused: &[Option<&str>]) -> Result<Vec<u8>, AllocError>
    ensures { IfOk result (λ text. text.items ≡ ended (fault_line found.Domain) ++ flat_map ended (domain_lines (name_views refused.now))) }
{
    let mut text = Vec::new(alloc);
    add_fault(alloc, CheckFault::Domain, &mut text)?;
    add_domains(alloc, refused, &mut text)?;
    Ok(text)
}

/// What is told of the tables of the model with this plan, which has these services, within the domains, where the options say so.
fn tables_if(
    alloc: Global,
    options: CheckOptions,
    plan: &Plan,
    services: &[WrittenService],
    domains: &[Domain],
) -> Result<ToldTables, AllocError>
    ensures { IfOk result (λ told. (m : ModelSpec ExprSpec TableSpec) → read_text plan.now ≡ Ok m → TellsIf options.tables options.strict (IsWithin m domains.now (map written_name services.now)) (tables_of m) told.text.items (options.tables && (options.strict && told.are_refused))) }
{
    if !options.tables {
        return Ok(ToldTables::none(alloc));
    }
    let logics = plan.logics(alloc)?;
    let inputs = DecisionInputs::of(alloc, plan, services, domains)?;
    let told = told_tables(alloc, &inputs, &logics)?;
    Ok(told)
}

/// What is found of a model without a fault, with these domains of its inputs and these lines of requests behind it.
fn lawful_verdict(
    alloc: Global,
    options: CheckOptions,
    plan: Plan,
    model: &WrittenModel,
    domains: &[Domain],
    requests: &[u8],
) -> Result<Verdict, AllocError>
    ensures lawful { IfOk result (λ verdict. verdict.fault ≡ None) }
    ensures tells { IfOk result (λ verdict. (d : Data) (beside : Option Data) → is_ok (read_model d) ≡ true → plan ≡ compact_text d → read_text plan ≡ read_model d → draft_of d ≡ Some (model_view model.now) → domain_views domains.now ≡ domains_in (model_view model.now) beside → TellsModel options d beside (lines_of requests.now) verdict.refused.items (failure_of options None verdict.are_tables_refused verdict.can_fail) verdict.text.items) }
{
    let mut text = Vec::new(alloc);
    add_model(alloc, model, &mut text)?;
    let gives = gives_if(alloc, options, &plan, &model.services, domains)?;
    text.extend_from_slice(&gives.text)?;
    let tables = tables_if(alloc, options, &plan, &model.services, domains)?;
    text.extend_from_slice(&tables.text)?;
    let refusals = refused_among(alloc, plan, requests)?;
    add_refusals(alloc, &refusals, &mut text)?;
    Ok(Verdict {
        fault: None,
        text,
        are_tables_refused: tables.are_refused,
        can_fail: gives.can_fail,
        refused: refusals.first,
    })
}

/// What a model without a fault is that `serve` takes, beside which these can't be read.
fn refused_verdict(alloc: Global, refused: &[Option<&str>]) -> Result<Verdict, AllocError>
    requires { 0 < length refused.now }
    ensures { IfOk result (λ verdict. (options : OptionsSpec) (d : Data) (m : Draft) (beside : Option Data) (requests : List (List ℕ)) → is_ok (read_model d) ≡ true → length (model_line d) ≤ max_line → draft_of d ≡ Some m → name_views refused.now ≡ refused_in m beside → IsDueTo options d beside requests verdict) }
{
    let text = text_of_domains(alloc, refused)?;
    Ok(faulty(alloc, CheckFault::Domain, text))
}

/// What a model without a fault is that `serve` takes, with what is declared of its inputs and these lines of requests behind it.
fn short_verdict(
    alloc: Global,
    options: CheckOptions,
    plan: Plan,
    model: &WrittenModel,
    beside: Option<&Value>,
    requests: &[u8],
) -> Result<Verdict, AllocError>
    ensures { IfOk result (λ verdict. (d : Data) → is_ok (read_model d) ≡ true → length (model_line d) ≤ max_line → plan ≡ compact_text d → read_text plan ≡ read_model d → draft_of d ≡ Some (model_view model.now) → IsDueTo options d (option_map (λ v. view v.now) beside.entry) (lines_of requests.now) verdict) }
{
    let declared = declared_beside(alloc, model, beside)?;
    if !declared.refused.is_empty() {
        let refusal = refused_verdict(alloc, &declared.refused)?;
        return Ok(refusal);
    }
    let verdict = lawful_verdict(alloc, options, plan, model, &declared.domains, requests)?;
    Ok(verdict)
}

/// What a model without a fault is, with what is declared of its inputs and these lines of requests behind it.
fn readable_verdict(
    alloc: Global,
    options: CheckOptions,
    plan: Plan,
    model: &WrittenModel,
    beside: Option<&Value>,
    requests: &[u8],
) -> Result<Verdict, AllocError>
    ensures { IfOk result (λ verdict. (d : Data) → is_ok (read_model d) ≡ true → plan ≡ compact_text d → read_text plan ≡ read_model d → draft_of d ≡ Some (model_view model.now) → IsDueTo options d (option_map (λ v. view v.now) beside.entry) (lines_of requests.now) verdict) }
{
    let length = line_length(plan.text());
    if length > MOST_LINE {
        let text = text_of_long(alloc, length)?;
        return Ok(faulty(alloc, CheckFault::Long, text));
    }
    let verdict = short_verdict(alloc, options, plan, model, beside, requests)?;
    Ok(verdict)
}

/// What is told of a JSON value that isn't of the form of a model.
fn no_form(alloc: Global) -> Result<Verdict, AllocError>
    ensures { IfOk result (λ verdict. (options : OptionsSpec) (d : Data) (beside : Option Data) (requests : List (List ℕ)) → draft_of d ≡ None → IsDueTo options d beside requests verdict) }
{
    let fault = CheckFault::Model(ModelFault::Shape);
    let mut text = Vec::new(alloc);
    add_fault(alloc, fault, &mut text)?;
    Ok(faulty(alloc, fault, text))
}

/// What the model is whose form was read from a JSON value, with what is declared beside it and these lines of requests behind it.
fn check_form(
    alloc: Global,
    options: CheckOptions,
    json: &Value,
    model: &WrittenModel,
    beside: Option<&Value>,
    requests: &[u8],
) -> Result<Verdict, AllocError>
    requires { draft_of (view json.now) ≡ Some (model_view model.now) }
    ensures { IfOk result (λ verdict. IsDueTo options (view json.now) (option_map (λ v. view v.now) beside.entry) (lines_of requests.now) verdict) }
{
    match Plan::of_form(alloc, json, model) {
        Ok(plan) => {
            let verdict = readable_verdict(alloc, options, plan, model, beside, requests)?;
            Ok(verdict)
        }
        Err(fault) => match fault {
            ModelFault::Memory => Err(AllocError),
            fault => {
                let text = text_of_fault(alloc, model, fault)?;
                Ok(faulty(alloc, CheckFault::Model(fault), text))
            }
        },
    }
}

/// What the model of a JSON value is, with what is declared beside it and these lines of requests behind it.
fn check_json(
    alloc: Global,
    options: CheckOptions,
    json: &Value,
    beside: Option<&Value>,
    requests: &[u8],
) -> Result<Verdict, AllocError>
    ensures { IfOk result (λ verdict. IsDueTo options (view json.now) (option_map (λ v. view v.now) beside.entry) (lines_of requests.now) verdict) }
{
    let Some(model) = read_form(alloc, json)? else {
        return no_form(alloc);
    };
    check_form(alloc, options, json, &model, beside, requests)
}

/// What is told of a text that is no JSON.
fn no_json(alloc: Global) -> Result<Verdict, AllocError>
    ensures fault { IfOk result (λ verdict. verdict.fault ≡ Some (found.Model ModelFault.Syntax)) }
    ensures tells { IfOk result (λ verdict. (options : OptionsSpec) (s : List ℕ) (requests : List (List ℕ)) → TellsText options s requests verdict.fault verdict.refused.items (failures_in options verdict) verdict.text.items) }
{
    let fault = CheckFault::Model(ModelFault::Syntax);
    let mut text = Vec::new(alloc);
    add_fault(alloc, fault, &mut text)?;
    Ok(faulty(alloc, fault, text))
}

/// What the model in a text is, with these lines of requests behind it.
fn check_text(
    alloc: Global,
    options: CheckOptions,
    text: &[u8],
    requests: &[u8],
) -> Result<Verdict, AllocError>
    ensures first { IfOk result (λ verdict. IsFirstFault text.now verdict.fault) }
    ensures domains { IfOk result (λ verdict. FitsDomains text.now verdict.fault) }
    ensures tells { IfOk result (λ verdict. TellsText options text.now (lines_of requests.now) verdict.fault verdict.refused.items (failures_in options verdict) verdict.text.items) }
{
    match Value::from_slice(alloc, text) {
        Ok(json) => {
            let beside = json.get("domains");
            check_json(alloc, options, subject(&json), beside, requests)
        }
        Err(error) if error.is_memory() => Err(AllocError),
        Err(_) => no_json(alloc),
    }
}

/// Whether it is asked for that a table is refused, and one is.
fn is_wanted(options: CheckOptions, are_refused: bool) -> bool
    ensures only { IsTrue result → (options.tables ≡ true) × (options.strict ≡ true) }
    ensures is { result ≡ (options.tables && (options.strict && are_refused)) }
{
    if !options.tables {
        return false;
    }
    if !options.strict {
        return false;
    }
    are_refused
}

/// Whether `strict` refuses a table of a lawful model.
fn is_strict_failure(options: CheckOptions, verdict: &Verdict) -> bool
    ensures only { IsTrue result → (options.tables ≡ true) × (options.strict ≡ true) × (verdict.now.fault ≡ None) }
    ensures is { result ≡ (failures_in options verdict.now).tables }
{
    match verdict.fault {
        Some(_) => false,
        None => is_wanted(options, verdict.are_tables_refused),
    }
}

/// Whether `strict_null` refuses what a service of a lawful model can give.
fn is_null_failure(options: CheckOptions, verdict: &Verdict) -> bool
    ensures only { IsTrue result → (options.strict_null ≡ true) × (verdict.now.fault ≡ None) }
    ensures is { result ≡ (failures_in options verdict.now).nulls }
{
    if verdict.fault.is_some() {
        return false;
    }
    if !options.strict_null {
        return false;
    }
    verdict.can_fail
}

/// Writes what is told.
fn write_told<W: Sink>(writer: &mut W, verdict: &Verdict) -> Result<(), FrontFault>
    requires { (W.seen writer.old).faults < 2 ^ 64 - 1 }
    ensures { WritesAll (W.seen writer.old) (W.seen writer.new) verdict.now.text.items result }
{
    write_all(writer, &verdict.text)
}

/// Reads from the reader to its end, and checks the model that stands there as JSON: all of it, of any layout, or its first line
/// where the options say that lines of requests stand behind it. The model is what stands under the key `model`, or the whole.
///
/// Beside a model under `model`, `domains` may have unary tests of constants under names of inputs: what values may come.
///
/// Writes lines of JSON. The first has the word of the model's first fault, or that it is lawful, with its inputs, decisions and services.
/// Behind a fault come the places of it and of later faults, at most 100 of each (of refused tables 100 tables and 100 rules), as far as
/// they are looked for; behind that it is lawful, where the options say so what its services and their decisions can give within the
/// domains and what is found of its decision tables, and the first 1,000 lines of requests that `serve` refuses.
///
/// A lawful model whose line of compact text `serve` would refuse as too long is told as `long`, with its length. One that `serve` takes is
/// told as `domain` where something under `domains` can't be read, with the places.
///
/// The result has the first fault, none where `serve` takes the model and all domains are read, and whether the options are strict and a
/// table of a lawful model isn't as they want it: for a gap among the kinds of values that its tests ask for and no default, for rules that
/// overlap against the hit policy, never hit or never decide, and where one of these isn't known. Of `strict_null` it has whether a service
/// can give null or break a limit. The faults of the run are those of `replay`, but that `Long` comes once more than 64 MiB came.
pub fn check<R: Source, W: Sink>(
    alloc: Global,
    options: CheckOptions,
    reader: &mut R,
    writer: &mut W,
) -> Result<CheckFindings, FrontFault>
    requires read_counts { (R.seen reader.old).faults < 2 ^ 64 - 1 }
    requires write_counts { (W.seen writer.old).faults < 2 ^ 64 - 1 }
    ensures { Checked options (R.seen reader.old) (R.seen reader.new) (W.seen writer.old) (W.seen writer.new) result }
{
    let text = read_whole(alloc, reader)?;
    let (model, requests) = model_and_requests(options, &text);
    let verdict = check_text(alloc, options, model, requests)?;
    let is_strict_failure = is_strict_failure(options, &verdict);
    let is_null_failure = is_null_failure(options, &verdict);
    write_told(writer, &verdict)?;
    Ok(CheckFindings {
        fault: verdict.fault,
        is_strict_failure,
        is_null_failure,
        refused: verdict.refused,
    })
}
