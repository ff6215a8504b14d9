//! What a line says.
ghost use Rattle.std.specs.Prelude.{◌≡◌, ◌≢◌, ◌<◌, ◌⊎◌, ◌^◌, ℕ, List, MatchOption, IfSome, IfNone, IfOk, MatchResult, length, None, Some};
ghost use Rattle.std.specs.Str.{IsUtf8};
ghost use Rattle.serde_json.specs.Data.{Data, string, number, unsigned, object};
ghost use Rattle.serde_json.specs.View.{view};
ghost use Rattle.serde_json.specs.Read.{read};
ghost use Rattle.desk_wire.specs.Parts.{IsName, IsTicket};
ghost use Rattle.desk_replaying.specs.Line.{IsLine, line_view};
ghost use Rattle.desk_wire.specs.Reading.{is_blank};
ghost use Rattle.desk_replaying.specs.Line as said;
ghost use Rattle.json_reader.specs.Members.{members_of};

use desk_wire::{
    capacity_in, four_members, name_in, one_member, three_members, ticket_in, two_members,
};
use serde_json::Value;
use std::alloc::{AllocError, Global};

/// What a line says.
#[derive(Drop)]
pub enum Line<'a> {
    /// The model from the next line on.
    Model(&'a Value),
    /// A new client with a capacity.
    Open(&'a str, u32),
    /// A client's request to a service, with its inputs.
    Submit(&'a str, &'a str, &'a Value),
    /// The job of a client's ticket is taken.
    Take(&'a str, u64),
    /// The work that was taken under a client's ticket is run and answers it.
    Answer(&'a str, u64),
    /// A request to a service, with its inputs, answers a client's ticket.
    AnswerWith(&'a str, u64, &'a str, &'a Value),
    /// A client is handed its next result.
    Release(&'a str),
    /// A client is closed.
    Close(&'a str),
    /// A client is given a capacity.
    Resize(&'a str, u32),
}

fn model_line<'a>(members: &'a [(&str, Value)]) -> Option<Line<'a>>
    ensures found { IfSome result (λ line. IsLine (line_view line) (object (members_of members.now))) }
    ensures other { IfNone result ((model : Data) → ¬ IsLine (said.Model model) (object (members_of members.now))) }
{
    let model = one_member(members, "model")?;
    Some(Line::Model(model))
}

fn open_line<'a>(members: &'a [(&str, Value)]) -> Option<Line<'a>>
    ensures found { IfSome result (λ line. IsLine (line_view line) (object (members_of members.now))) }
    ensures other { IfNone result ((name : List ℕ) (n : ℕ) → ¬ IsLine (said.Open name n) (object (members_of members.now))) }
{
    let (capacity, name) = two_members(members, "capacity", "open")?;
    Some(Line::Open(name_in(name)?, capacity_in(capacity)?))
}

fn submit_line<'a>(members: &'a [(&str, Value)]) -> Option<Line<'a>>
    ensures found { IfSome result (λ line. IsLine (line_view line) (object (members_of members.now))) }
    ensures other { IfNone result ((name service : List ℕ) (inputs : Data) → ¬ IsLine (said.Submit name service inputs) (object (members_of members.now))) }
{
    let (inputs, service, name) = three_members(members, "inputs", "service", "submit")?;
    if !inputs.is_object() {
        return None;
    }
    Some(Line::Submit(name_in(name)?, service.as_str()?, inputs))
}

fn take_line<'a>(members: &'a [(&str, Value)]) -> Option<Line<'a>>
    ensures found { IfSome result (λ line. IsLine (line_view line) (object (members_of members.now))) }
    ensures other { IfNone result ((name : List ℕ) (t : ℕ) → ¬ IsLine (said.Take name t) (object (members_of members.now))) }
{
    let (name, ticket) = two_members(members, "take", "ticket")?;
    Some(Line::Take(name_in(name)?, ticket_in(ticket)?))
}

fn answer_line<'a>(members: &'a [(&str, Value)]) -> Option<Line<'a>>
    ensures found { IfSome result (λ line. IsLine (line_view line) (object (members_of members.now))) }
    ensures other { IfNone result ((name : List ℕ) (t : ℕ) → ¬ IsLine (said.Answer name t) (object (members_of members.now))) }
{
    let (name, ticket) = two_members(members, "answer", "ticket")?;
    Some(Line::Answer(name_in(name)?, ticket_in(ticket)?))
}

fn answer_with_line<'a>(members: &'a [(&str, Value)]) -> Option<Line<'a>>
    ensures found { IfSome result (λ line. IsLine (line_view line) (object (members_of members.now))) }
    ensures other { IfNone result ((name : List ℕ) (t : ℕ) (service : List ℕ) (inputs : Data) → ¬ IsLine (said.AnswerWith name t service inputs) (object (members_of members.now))) }
{
    let (name, inputs, service, ticket) = four_members(
        members, "answer", "inputs", "service", "ticket",
    )?;
    if !inputs.is_object() {
        return None;
    }
    Some(Line::AnswerWith(
        name_in(name)?,
        ticket_in(ticket)?,
        service.as_str()?,
        inputs,
    ))
}

fn release_line<'a>(members: &'a [(&str, Value)]) -> Option<Line<'a>>
    ensures found { IfSome result (λ line. IsLine (line_view line) (object (members_of members.now))) }
    ensures other { IfNone result ((name : List ℕ) → ¬ IsLine (said.Release name) (object (members_of members.now))) }
{
    let name = one_member(members, "release")?;
    Some(Line::Release(name_in(name)?))
}

fn close_line<'a>(members: &'a [(&str, Value)]) -> Option<Line<'a>>
    ensures found { IfSome result (λ line. IsLine (line_view line) (object (members_of members.now))) }
    ensures other { IfNone result ((name : List ℕ) → ¬ IsLine (said.Close name) (object (members_of members.now))) }
{
    let name = one_member(members, "close")?;
    Some(Line::Close(name_in(name)?))
}

fn resize_line<'a>(members: &'a [(&str, Value)]) -> Option<Line<'a>>
    ensures found { IfSome result (λ line. IsLine (line_view line) (object (members_of members.now))) }
    ensures other { IfNone result ((name : List ℕ) (n : ℕ) → ¬ IsLine (said.Resize name n) (object (members_of members.now))) }
{
    let (capacity, name) = two_members(members, "capacity", "resize")?;
    Some(Line::Resize(name_in(name)?, capacity_in(capacity)?))
}

/// The line that the object of these members is. The first key says which lines it may be.
pub fn line_in<'a>(members: &'a [(&str, Value)]) -> Option<Line<'a>>
    ensures found { IfSome result (λ line. IsLine (line_view line) (object (members_of members.now))) }
    ensures other { IfNone result ((line : said.Line) → ¬ IsLine line (object (members_of members.now))) }
{
    let first = members.first()?;
    match first.0 {
        "model" => model_line(members),
        "capacity" => open_line(members).or_else(|| resize_line(members)),
        "inputs" => submit_line(members),
        "take" => take_line(members),
        "answer" => answer_line(members).or_else(|| answer_with_line(members)),
        "release" => release_line(members),
        "close" => close_line(members),
        _ => None,
    }
}
