//! Reports as lines of JSON.
ghost use Rattle.std.specs.Prelude.{◌≡◌, ◌++◌, OnOk};
ghost use Rattle.serde_json.specs.Written.{compact_text};
ghost use Rattle.desk_lines.specs.Lines.{ended};
ghost use Rattle.desk_wire.specs.Reports.{Reply, report_text, told_json};
ghost use Rattle.desk_wire.specs.ReportView.{report_view};

use crate::key::Key;
use crate::object::{Held, add_object};
use crate::word::Word;
use feel_value::Outcome;
use std::alloc::{AllocError, Global};

/// What is told of a client's line.
#[derive(Clone, Copy)]
pub enum Told {
    /// The request is accepted, and has this ticket.
    Accepted(u64),
    /// The client is closed.
    Closed,
    /// The answer to the request with this ticket is kept.
    Kept(u64),
    /// No result is there to be handed out.
    Nothing,
    /// The client is opened with this capacity.
    Opened(u32),
    /// The line is refused.
    Refused(Word),
    /// The client has this capacity from now on.
    Resized(u32),
    /// The line is passed over, since such lines have no answer here.
    Skipped(Word),
    /// The request with this ticket is taken.
    Taken(u64),
}

/// What is said of a line with a number, or in reply to a request.
#[derive(Clone, Copy)]
pub enum Report<'a> {
    /// The model on the line is in force from the next line on.
    Loaded(u64),
    /// The model on the line has this fault.
    Faulty(u64, Word),
    /// The line is of no client, and is refused.
    Refused(u64, Word),
    /// The line is this client's.
    Of(&'a str, u64, Told),
    /// The outcome of this client's request with this ticket.
    Reply(&'a str, u64, &'a Outcome),
}

/// Adds the line of what is told of a client's line.
fn add_told(
    alloc: Global,
    client: &str,
    line: u64,
    told: Told,
    text: &mut Vec<u8>,
) -> Result<(), AllocError>
    ensures { OnOk result (text.new.items ≡ text.old.items ++ ended (compact_text (told_json client.now line told))) }
{
    let who = (Key::Client, Held::Text(client));
    let at = (Key::Line, Held::Number(line));
    match told {
        Told::Accepted(ticket) => {
            let accepted = (Key::Accepted, Held::Number(ticket));
            add_object(alloc, &[accepted, who, at], text)
        }
        Told::Closed => add_object(alloc, &[who, (Key::Closed, Held::Bool(true)), at], text),
        Told::Kept(ticket) => {
            let kept = (Key::Kept, Held::Number(ticket));
            add_object(alloc, &[who, kept, at], text)
        }
        Told::Nothing => add_object(alloc, &[who, at, (Key::Nothing, Held::Bool(true))], text),
        Told::Opened(capacity) => {
            let opened = (Key::Opened, Held::Number(capacity as u64));
            add_object(alloc, &[who, at, opened], text)
        }
        Told::Refused(why) => {
            let refused = (Key::Refused, Held::Text(why.text()));
            add_object(alloc, &[who, at, refused], text)
        }
        Told::Resized(capacity) => {
            let resized = (Key::Resized, Held::Number(capacity as u64));
            add_object(alloc, &[who, at, resized], text)
        }
        Told::Skipped(what) => {
            let skipped = (Key::Skipped, Held::Text(what.text()));
            add_object(alloc, &[who, at, skipped], text)
        }
        Told::Taken(ticket) => {
            let taken = (Key::Taken, Held::Number(ticket));
            add_object(alloc, &[who, at, taken], text)
        }
    }
}

/// `{"client":name,"result":V,"ticket":t}`, or `{"client":name,"fault":"limit","ticket":t}` where a limit was broken.
fn add_reply<'a>(
    alloc: Global,
    name: &'a str,
    outcome: &'a Outcome,
    ticket: u64,
    text: &mut Vec<u8>,
) -> Result<(), AllocError>
    ensures { OnOk result (text.new.items ≡ text.old.items ++ ended (report_text (Reply name.now ticket outcome.now))) }
{
    let who = (Key::Client, Held::Text(name));
    let ticket = (Key::Ticket, Held::Number(ticket));
    match outcome {
        Outcome::Is(value) => {
            let result = (Key::Result, Held::Value(value));
            add_object(alloc, &[who, result, ticket], text)
        }
        Outcome::Limit => {
            let fault = (Key::Fault, Held::Text(Word::Limit.text()));
            add_object(alloc, &[who, fault, ticket], text)
        }
    }
}

impl<'a> Report<'a> {
    /// Adds the line of the report to a text, with its end. Where memory is refused, a part of it may stand there.
    pub fn add_to(self, alloc: Global, text: &mut Vec<u8>) -> Result<(), AllocError>
        ensures { OnOk result (text.new.items ≡ text.old.items ++ ended (report_text (report_view self.entry))) }
    {
        match self {
            Report::Loaded(line) => {
                let at = (Key::Line, Held::Number(line));
                add_object(alloc, &[at, (Key::Model, Held::Bool(true))], text)
            }
            Report::Faulty(line, fault) => {
                let fault = (Key::Fault, Held::Text(fault.text()));
                let at = (Key::Line, Held::Number(line));
                let refused = (Key::Refused, Held::Text(Word::Model.text()));
                add_object(alloc, &[fault, at, refused], text)
            }
            Report::Refused(line, why) => {
                let at = (Key::Line, Held::Number(line));
                let refused = (Key::Refused, Held::Text(why.text()));
                add_object(alloc, &[at, refused], text)
            }
            Report::Of(client, line, told) => add_told(alloc, client, line, told, text),
            Report::Reply(client, ticket, outcome) => {
                add_reply(alloc, client, outcome, ticket, text)
            }
        }
    }
}
