//! What a line says to `serve`.
ghost use Rattle.std.specs.Prelude.{◌≡◌, ◌≢◌, ◌<◌, ◌^◌, ℕ, List, IfSome, IfNone};
ghost use Rattle.serde_json.specs.Data.{Data, object};
ghost use Rattle.serde_json.specs.View.{view};
ghost use Rattle.json_reader.specs.Members.{members_of};
ghost use Rattle.desk_requests.specs.Line as said;
ghost use Rattle.desk_requests.specs.Line.{IsLine, line_view};
ghost use Rattle.desk_requests.specs.LineHeard.{IsLineOf};

use desk_wire::{Heard, capacity_in, name_in, one_member, three_members, two_members};
use serde_json::Value;

/// What a line says.
#[derive(Drop)]
pub enum Line<'a> {
    /// The model from the next line on.
    Model(&'a Value),
    /// A client's request to a service, with its inputs.
    Request(&'a str, &'a str, &'a Value),
    /// A client is closed.
    Close(&'a str),
    /// A client is given a capacity.
    Resize(&'a str, u32),
}

fn model_line<'a>(members: &'a [(&str, Value)]) -> Option<Line<'a>>
    ensures found { IfSome result (λ line. IsLine (line_view line) (object (members_of members.now))) }
    ensures other { IfNone result ((model : Data) → ¬ IsLine (said.Model model) (object (members_of members.now))) }
{
    let model = one_member(members, "model")?;
    Some(Line::Model(model))
}

fn request_line<'a>(members: &'a [(&str, Value)]) -> Option<Line<'a>>
    ensures found { IfSome result (λ line. IsLine (line_view line) (object (members_of members.now))) }
    ensures other { IfNone result ((name service : List ℕ) (inputs : Data) → ¬ IsLine (said.Request name service inputs) (object (members_of members.now))) }
{
    let (name, inputs, service) = three_members(members, "client", "inputs", "service")?;
    if !inputs.is_object() {
        return None;
    }
    Some(Line::Request(name_in(name)?, service.as_str()?, inputs))
}

fn close_line<'a>(members: &'a [(&str, Value)]) -> Option<Line<'a>>
    ensures found { IfSome result (λ line. IsLine (line_view line) (object (members_of members.now))) }
    ensures other { IfNone result ((name : List ℕ) → ¬ IsLine (said.Close name) (object (members_of members.now))) }
{
    let (name, close) = two_members(members, "client", "close")?;
    if !close.as_bool()? {
        return None;
    }
    Some(Line::Close(name_in(name)?))
}

fn resize_line<'a>(members: &'a [(&str, Value)]) -> Option<Line<'a>>
    ensures found { IfSome result (λ line. IsLine (line_view line) (object (members_of members.now))) }
    ensures other { IfNone result ((name : List ℕ) (n : ℕ) → ¬ IsLine (said.Resize name n) (object (members_of members.now))) }
{
    let (capacity, name) = two_members(members, "capacity", "resize")?;
    Some(Line::Resize(name_in(name)?, capacity_in(capacity)?))
}

/// The line that the object of these members is. The first key says which lines it may be.
pub fn line_in<'a>(members: &'a [(&str, Value)]) -> Option<Line<'a>>
    ensures found { IfSome result (λ line. IsLine (line_view line) (object (members_of members.now))) }
    ensures other { IfNone result ((line : said.Line) → ¬ IsLine line (object (members_of members.now))) }
{
    let first = members.first()?;
    match first.0 {
        "model" => model_line(members),
        "client" => request_line(members).or_else(|| close_line(members)),
        "capacity" => resize_line(members),
        _ => None,
    }
}

/// The line that is heard so, if it is a lawful one.
pub fn line_heard<'a>(heard: &'a Heard<'_>) -> Option<Line<'a>>
    ensures { IsLineOf heard.now result }
{
    match heard {
        Heard::Object(members) => line_in(members),
        Heard::Long => None,
        Heard::Blank => None,
        Heard::Syntax => None,
        Heard::Other => None,
    }
}
