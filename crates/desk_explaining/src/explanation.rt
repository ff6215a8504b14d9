//! The lines that explain: of a model which it is, of a reply how it came about.
ghost use Rattle.std.specs.Prelude.{◌≡◌, ◌++◌, OnOk, IfOk, string_bytes};
ghost use Rattle.std.specs.List.{zip};
ghost use Rattle.serde_json.specs.Data.{Data, Items, Members, array, object};
ghost use Rattle.serde_json.specs.Written.{compact_text};
ghost use Rattle.dmn_service.specs.Decision.{parameters_of, outcome_of as found_for};
ghost use Rattle.dmn_service.specs.Plan.{HasPlacesWithin};
ghost use Rattle.dmn_plan.specs.Course.{IsCourseOf};
ghost use Rattle.dmn_plan.specs.Request.{Request, request_result};
ghost use Rattle.json_writer.specs.Bounded.{kept_text};
ghost use Rattle.dmn_explain.specs.Explanation.{decisions_told};
ghost use Rattle.desk_lines.specs.Lines.{ended};
ghost use Rattle.desk_explaining.specs.Due as due;
ghost use Rattle.desk_explaining.specs.Due.{AreReasonsOf};
ghost use Rattle.desk_explaining.specs.ExplainedLine.{begin_of, asked_of, middle_of, outcome_of, ticket_of, loaded_line, read_of};
ghost use Rattle.desk_explaining.specs.StateView.{Explains};

use desk_requests::Asked;
use dmn_explain::{add_decisions, add_inputs};
use dmn_plan::Course;
use feel_value::Outcome;
use json_writer::{BoundedText, add_number, add_quoted, add_value};
use sha2::{Digest, Sha256};
use std::alloc::{AllocError, Global};

/// The sum by which a model with this text is named.
pub fn sum_of(alloc: Global, text: &[u8]) -> Result<String, AllocError>
    ensures { IfOk result (λ sum. string_bytes sum ≡ due.sum_of text.now) }
{
    hex::encode(alloc, Sha256::digest(text))
}

/// Adds `{"line":k,"model":true,"read":{..}`, of a model's text.
#[tactic(auto, using(crate::proofs::Telling::pieces_4))]
fn add_read(number: u64, model: &[u8], line: &mut Vec<u8>) -> Result<(), AllocError>
    ensures { OnOk result (line.new.items ≡ line.old.items ++ read_of number model.now) }
{
    line.extend_from_slice(b"{\"line\":")?;
    add_number(number, line)?;
    line.extend_from_slice(b",\"model\":true,\"read\":")?;
    line.extend_from_slice(model)?;
    Ok(())
}

/// Adds `{"line":k,"model":true,"read":{..},"sha256":".."}` with the newline, of a model's text and its sum.
#[tactic(auto, using(crate::proofs::Telling::pieces_4))]
pub fn add_loaded(
    alloc: Global,
    number: u64,
    model: &[u8],
    sum: &str,
    line: &mut Vec<u8>,
) -> Result<(), AllocError>
    ensures { OnOk result (line.new.items ≡ line.old.items ++ loaded_line number model.now sum.now) }
{
    add_read(number, model, line)?;
    line.extend_from_slice(b",\"sha256\":")?;
    add_quoted(alloc, sum, line)?;
    line.extend_from_slice(b"}\n")
}

/// Adds `{"client":name,"line":k`.
#[tactic(auto, using(crate::proofs::Telling::pieces_4))]
fn add_begin(alloc: Global, name: &str, number: u64, line: &mut Vec<u8>) -> Result<(), AllocError>
    ensures { OnOk result (line.new.items ≡ line.old.items ++ begin_of name.now number) }
{
    line.extend_from_slice(b"{\"client\":")?;
    add_quoted(alloc, name, line)?;
    line.extend_from_slice(b",\"line\":")?;
    add_number(number, line)
}

/// Adds `,"model":"..","service":s,"inputs":`.
#[tactic(auto, using(crate::proofs::Telling::pieces_5))]
fn add_asked(alloc: Global, sum: &str, service: &str, line: &mut Vec<u8>) -> Result<(), AllocError>
    ensures { OnOk result (line.new.items ≡ line.old.items ++ asked_of sum.now service.now) }
{
    line.extend_from_slice(b",\"model\":")?;
    add_quoted(alloc, sum, line)?;
    line.extend_from_slice(b",\"service\":")?;
    add_quoted(alloc, service, line)?;
    line.extend_from_slice(b",\"inputs\":")?;
    Ok(())
}

/// Adds `,"decisions":[..]`, or `,"explained":"long"` where these grew too long.
fn add_middle(decisions: &BoundedText, line: &mut Vec<u8>) -> Result<(), AllocError>
    ensures { OnOk result (line.new.items ≡ line.old.items ++ middle_of decisions.now) }
{
    let Some(text) = decisions.text() else {
        return line.extend_from_slice(b",\"explained\":\"long\"");
    };
    line.extend_from_slice(b",\"decisions\":")?;
    line.extend_from_slice(text)?;
    Ok(())
}

/// The list of the decisions on the way to an answer in JSON, as far as it is kept.
fn decisions_text(
    alloc: Global,
    course: &Course<'_>,
    misses: bool,
) -> Result<BoundedText, AllocError>
    requires { HasPlacesWithin course.now.items.now course.now.service.now }
    ensures { IfOk result (λ text. (q : Request) (c : IsCourseOf q course.now) → text ≡ kept_text (compact_text (array (decisions_told misses (found_for c.model (zip (parameters_of c.service) q.values)) course.now.items.now course.now.service.now)))) }
{
    let mut text = BoundedText::new(alloc);
    add_decisions(alloc, course, misses, &mut text)?;
    Ok(text)
}

/// Adds `,"result":V`, or `,"fault":"limit"` where a limit was broken.
fn add_outcome(alloc: Global, outcome: &Outcome, line: &mut Vec<u8>) -> Result<(), AllocError>
    ensures { OnOk result (line.new.items ≡ line.old.items ++ outcome_of outcome.now) }
{
    match outcome {
        Outcome::Is(value) => {
            line.extend_from_slice(b",\"result\":")?;
            add_value(alloc, value, line)
        }
        Outcome::Limit => line.extend_from_slice(b",\"fault\":\"limit\""),
    }
}

/// Adds `,"ticket":t}`, with the newline.
#[tactic(auto, using(crate::proofs::Telling::pieces_3))]
fn add_ticket(ticket: u64, line: &mut Vec<u8>) -> Result<(), AllocError>
    ensures { OnOk result (line.new.items ≡ line.old.items ++ ticket_of ticket) }
{
    line.extend_from_slice(b",\"ticket\":")?;
    add_number(ticket, line)?;
    line.extend_from_slice(b"}\n")
}

/// Adds the line that explains the answer to a client's request to a service, under the model of this sum. Of an explanation whose
/// decisions take over 64 MiB it says so in their place, and no more of them is formed.
pub fn add_explanation(
    alloc: Global,
    number: u64,
    sum: &str,
    asked: &Asked<'_>,
    misses: bool,
    text: &mut Vec<u8>,
) -> Result<(), AllocError>
    ensures { OnOk result (Explains number sum.now asked.now misses text.old.items text.new.items) }
{
    let Some(course) = asked.task.course(alloc)? else {
        unreachable!();
    };
    let decisions = decisions_text(alloc, &course, misses)?;
    add_begin(alloc, asked.client, number, text)?;
    add_asked(alloc, sum, asked.service, text)?;
    add_inputs(alloc, &course, text)?;
    add_middle(&decisions, text)?;
    drop(decisions);
    add_outcome(alloc, &course.result, text)?;
    add_ticket(asked.ticket, text)
}
