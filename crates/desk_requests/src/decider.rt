//! What is due to a line of `serve`, by what stands between the lines.
ghost use Rattle.std.specs.Prelude.{◌≡◌, ℕ, List, Option, IfOk, OnOk};
ghost use Rattle.serde_json.specs.View.{view};
ghost use Rattle.dmn_plan.specs.ReadModel.{read_model};
ghost use Rattle.dmn_plan.specs.Request as plan;
ghost use Rattle.desk_requests.specs.Decider.{Decides, IsAt, IsLoadedOf, IsMadeOf};
ghost use Rattle.desk_requests.specs.Line as said;
ghost use Rattle.desk_requests.specs.Line.{line_view};

use crate::line::Line;
use desk_wire::{Report, Told, Word};
use dmn_plan::TaskFault;
use serde_json::Value;
use std::alloc::{AllocError, Global};

/// The most requests that a lane may have outstanding.
const MOST_OUTSTANDING: u32 = 4096;

/// A client's lane.
#[derive(Clone, Copy)]
pub struct Seat {
    /// Its place among the lanes, where these are counted.
    pub place: usize,
    /// Whether the client is closed.
    pub is_closed: bool,
}

/// What is due to a line.
#[derive(Drop)]
pub enum Due<'a, P, W> {
    /// A model is in force from the next line on.
    Loaded(P),
    /// This report. No lane has to do with it.
    Told(Report<'a>),
    /// A client's line is refused, behind what its lane owes.
    Refused(&'a str, Seat, Word),
    /// A client's request to a service is accepted.
    Asked(&'a str, &'a str, Seat, W),
    /// A client is closed.
    Closed(&'a str, Seat),
    /// A client is given a capacity.
    Resized(&'a str, Seat, u32),
}

/// What stands between the lines: the model in force, and which clients have lanes and are closed.
pub trait Decider {
    ghost use Rattle.desk_requests.specs.declared.decider.Seat.{Seat};

    /// What is kept of a model.
    type Plan: Drop;

    /// What is made of a request: a task, or nothing where its fault alone counts.
    type Made: Drop;

    /// What every step leaves as it is.
    ghost Kept: { Type 0 };

    ghost kept: { Self → Kept };

    /// The text of a model.
    ghost text_of: { Self.Plan → List ℕ };

    /// The text of the model in force.
    ghost force: { Self → Option (List ℕ) };

    /// What is kept of the model in force is right.
    ghost Knows: { Self → Type 0 };

    /// The clients are as before.
    ghost Keeps: { Self → Self → Type 0 };

    /// A name asked for a lane.
    ghost Asks: { Self → List ℕ → Self → Type 0 };

    /// The client of a name has this lane, or none.
    ghost IsSeat: { Self → List ℕ → Option Seat → Type 0 };

    /// What was made is that of this request.
    ghost IsMade: { Self.Made → plan.Request → Type 0 };

    /// What is kept of a model, or the word of its fault.
    fn load(&mut self, alloc: Global, model: &Value) -> Result<Result<Self::Plan, Word>, AllocError>
        ensures same { kept self.new ≡ kept self.old }
        ensures keeps { OnOk result (Keeps self.old self.new) }
        ensures forced { OnOk result (force self.new ≡ force self.old) }
        ensures loaded { IfOk result (IsLoadedOf text_of (view model.now) (read_model (view model.now))) };

    /// What is made of a request to a service with these inputs, or its fault; nothing where no model is in force.
    fn make(
        &mut self,
        alloc: Global,
        service: &str,
        inputs: &Value,
    ) -> Result<Option<Result<Self::Made, TaskFault>>, AllocError>
        ensures same { kept self.new ≡ kept self.old }
        ensures keeps { OnOk result (Keeps self.old self.new) }
        ensures forced { OnOk result (force self.new ≡ force self.old) }
        ensures made { IfOk result (λ made. Knows self.old → IsMadeOf IsMade (force self.old) service.now (view inputs.now) made) };

    /// The lane of a name's client. A name without one gets the next, if one is left.
    fn seat(&mut self, alloc: Global, name: &str) -> Result<Option<Seat>, AllocError>
        ensures same { kept self.new ≡ kept self.old }
        ensures asks { OnOk result (Asks self.old name.now self.new) }
        ensures seat { IfOk result (λ seat. IsSeat self.new name.now seat) };
}

/// A model is in force from the next line on, or its fault is told.
fn decide_model<'a, D: Decider>(
    alloc: Global,
    decider: &mut D,
    number: u64,
    model: &Value,
) -> Result<Due<'a, D::Plan, D::Made>, AllocError>
    ensures same { D.kept decider.new ≡ D.kept decider.old }
    ensures due { IfOk result (λ due. Decides D.text_of D.force D.Knows D.Keeps D.Asks D.IsSeat D.IsMade decider.old number (said.Model (view model.now)) due decider.new) }
    ensures at { IfOk result (λ due. IsAt D.IsSeat decider.new due) }
{
    let loaded = decider.load(alloc, model)?;
    match loaded {
        Ok(plan) => Ok(Due::Loaded(plan)),
        Err(why) => Ok(Due::Told(Report::Faulty(number, why))),
    }
}

/// A request is accepted, or the first refusal that applies is told.
fn decide_request<'a, D: Decider>(
    alloc: Global,
    decider: &mut D,
    number: u64,
    name: &'a str,
    service: &'a str,
    inputs: &Value,
) -> Result<Due<'a, D::Plan, D::Made>, AllocError>
    ensures same { D.kept decider.new ≡ D.kept decider.old }
    ensures due { IfOk result (λ due. Decides D.text_of D.force D.Knows D.Keeps D.Asks D.IsSeat D.IsMade decider.old number (said.Request name.now service.now (view inputs.now)) due decider.new) }
    ensures at { IfOk result (λ due. IsAt D.IsSeat decider.new due) }
{
    let Some(made) = decider.make(alloc, service, inputs)? else {
        return Ok(Due::Told(Report::Of(name, number, Told::Refused(Word::Model))));
    };
    let Some(seat) = decider.seat(alloc, name)? else {
        return Ok(Due::Told(Report::Of(name, number, Told::Refused(Word::Clients))));
    };
    let made = match made {
        Ok(made) => made,
        Err(fault) => return Ok(Due::Refused(name, seat, Word::of_task_fault(fault))),
    };
    if seat.is_closed {
        return Ok(Due::Refused(name, seat, Word::Closed));
    }
    Ok(Due::Asked(name, service, seat, made))
}

/// A client is closed, or the first refusal that applies is told.
fn decide_close<'a, D: Decider>(
    alloc: Global,
    decider: &mut D,
    number: u64,
    name: &'a str,
) -> Result<Due<'a, D::Plan, D::Made>, AllocError>
    ensures same { D.kept decider.new ≡ D.kept decider.old }
    ensures due { IfOk result (λ due. Decides D.text_of D.force D.Knows D.Keeps D.Asks D.IsSeat D.IsMade decider.old number (said.Close name.now) due decider.new) }
    ensures at { IfOk result (λ due. IsAt D.IsSeat decider.new due) }
{
    let Some(seat) = decider.seat(alloc, name)? else {
        return Ok(Due::Told(Report::Of(name, number, Told::Refused(Word::Clients))));
    };
    if seat.is_closed {
        return Ok(Due::Refused(name, seat, Word::Closed));
    }
    Ok(Due::Closed(name, seat))
}

/// A client is given a capacity, or the first refusal that applies is told.
fn decide_resize<'a, D: Decider>(
    alloc: Global,
    decider: &mut D,
    number: u64,
    name: &'a str,
    capacity: u32,
) -> Result<Due<'a, D::Plan, D::Made>, AllocError>
    ensures same { D.kept decider.new ≡ D.kept decider.old }
    ensures due { IfOk result (λ due. Decides D.text_of D.force D.Knows D.Keeps D.Asks D.IsSeat D.IsMade decider.old number (said.Resize name.now capacity) due decider.new) }
    ensures at { IfOk result (λ due. IsAt D.IsSeat decider.new due) }
{
    let Some(seat) = decider.seat(alloc, name)? else {
        return Ok(Due::Told(Report::Of(name, number, Told::Refused(Word::Clients))));
    };
    if seat.is_closed {
        return Ok(Due::Refused(name, seat, Word::Closed));
    }
    if capacity == 0 || capacity > MOST_OUTSTANDING {
        return Ok(Due::Refused(name, seat, Word::Capacity));
    }
    Ok(Due::Resized(name, seat, capacity))
}

/// What is due to the line with this number. To do it is left to the caller. Where memory is refused the decider is of no more use.
pub fn decide<'a, D: Decider>(
    alloc: Global,
    decider: &mut D,
    number: u64,
    says: &Line<'a>,
) -> Result<Due<'a, D::Plan, D::Made>, AllocError>
    ensures same { D.kept decider.new ≡ D.kept decider.old }
    ensures due { IfOk result (λ due. Decides D.text_of D.force D.Knows D.Keeps D.Asks D.IsSeat D.IsMade decider.old number (line_view says.now) due decider.new) }
    ensures at { IfOk result (λ due. IsAt D.IsSeat decider.new due) }
{
    match says {
        Line::Model(model) => decide_model(alloc, decider, number, model),
        Line::Request(name, service, inputs) => {
            decide_request(alloc, decider, number, name, service, inputs)
        }
        Line::Close(name) => decide_close(alloc, decider, number, name),
        Line::Resize(name, capacity) => decide_resize(alloc, decider, number, name, *capacity),
    }
}
