//! Which lines are refused where each client has a lane.
ghost use Rattle.std.specs.Prelude.{◌≡◌, ◌||◌, ℕ, List, [], ◌∷◌, IfOk, OnOk, bytes_eq, is_ok, true};
ghost use Rattle.std.specs.Arc.{arc_value};
ghost use Rattle.std.specs.BTreeSet.{contains_text};
ghost use Rattle.serde_json.specs.Data.{Data};
ghost use Rattle.serde_json.specs.Written.{compact_text};
ghost use Rattle.dmn_plan.specs.ReadModel.{read_model};
ghost use Rattle.desk_wire.specs.Heard.{IsHeardAs};
ghost use Rattle.desk_wire.specs.Reading.{Says};
ghost use Rattle.desk_wire.specs.ReportView.{report_view};
ghost use Rattle.desk_requests.specs.Gate.{IsOpenAfter, Passes, PassesText, Settles, listed, unread};
ghost use Rattle.desk_requests.specs.Line.{Model, line_view};
ghost use Rattle.desk_requests.specs.Refused as specs;
ghost use Rattle.desk_requests.specs.Refused.{refused_by};

use crate::decider::{Decider, Due, Seat, decide};
use crate::line::{Line, line_heard};
use crate::refused::RefusedLine;
use crate::services::Services;
use desk_wire::{Heard, Report, Told, Word};
use dmn_plan::{ModelFault, Plan, TaskFault};
use serde_json::Value;
use std::alloc::{AllocError, Global};
use std::collections::BTreeSet;
use std::sync::Arc;

/// What stands between the lines behind that of a lawful model, where each client has a lane: the model in force, the clients that are
/// closed, and what the services take that were asked. It answers nothing: it tells which lines are refused.
#[derive(Drop)]
pub struct Gate {
    pub(crate) plan: Arc<Plan>,
    pub(crate) closed: BTreeSet<String>,
    pub(crate) services: Services,
}

/// The line with this number, refused with this word.
fn refused(number: u64, why: Word) -> RefusedLine
    ensures { result ≡ specs.refused number why }
{
    RefusedLine {
        number,
        why,
        fault: None,
    }
}

/// What is refused of a line that says nothing.
fn unread_line(number: u64, heard: &Heard<'_>) -> Option<RefusedLine>
    ensures { listed result ≡ unread number heard.now }
{
    match heard {
        Heard::Blank => None,
        Heard::Long => Some(refused(number, Word::Long)),
        Heard::Syntax => Some(refused(number, Word::Syntax)),
        Heard::Other => Some(refused(number, Word::Shape)),
        Heard::Object(_) => Some(refused(number, Word::Shape)),
    }
}

/// What is refused of a client's line.
fn refused_told(number: u64, told: Told) -> Option<RefusedLine>
    ensures { listed result ≡ specs.refused_of_client number told }
{
    let Told::Refused(why) = told else {
        return None;
    };
    Some(refused(number, why))
}

/// The line that a report refuses, if it refuses one.
fn refused_by(report: Report<'_>) -> Option<RefusedLine>
    ensures { listed result ≡ specs.refused_by (report_view report.entry) }
{
    match report {
        Report::Loaded(_) => None,
        Report::Faulty(number, fault) => Some(RefusedLine {
            number,
            why: Word::Model,
            fault: Some(fault),
        }),
        Report::Refused(number, why) => Some(refused(number, why)),
        Report::Of(_, number, told) => refused_told(number, told),
        Report::Reply(_, _, _) => None,
    }
}

impl Decider for Gate {
    ghost use Rattle.std.specs.Prelude.{◌≡◌, Some};
    ghost use Rattle.std.specs.Arc.{arc_value};
    ghost use Rattle.desk_requests.specs.Gate.{IsSeat, Knows};

    type Plan = Arc<Plan>;

    type Made = ();

    ghost Kept = { Unit {0} };

    ghost kept = { λ _. tt };

    ghost text_of = { arc_value };

    ghost force = { λ gate. Some (arc_value gate.plan) };

    ghost Knows = { Knows };

    ghost Keeps = { λ old new. (new.closed ≡ old.closed) × (Knows old → Knows new) };

    ghost Asks = { λ old _ new. new ≡ old };

    ghost IsSeat = { IsSeat };

    ghost IsMade = { λ _ _. Unit {0} };

    fn load(
        &mut self,
        alloc: Global,
        model: &Value,
    ) -> Result<Result<Arc<Plan>, Word>, AllocError> {
        match Plan::of(alloc, model) {
            Ok(plan) => {
                let kept = Arc::new(alloc, plan)?;
                Ok(Ok(kept))
            }
            Err(fault) => match fault {
                ModelFault::Memory => Err(AllocError),
                fault => Ok(Err(Word::of_fault(fault))),
            },
        }
    }

    fn make(
        &mut self,
        alloc: Global,
        service: &str,
        inputs: &Value,
    ) -> Result<Option<Result<(), TaskFault>>, AllocError> {
        let fault = self.services.fault_of(alloc, &self.plan, service, inputs)?;
        match fault {
            Some(fault) => Ok(Some(Err(fault))),
            None => Ok(Some(Ok(()))),
        }
    }

    fn seat(&mut self, _alloc: Global, name: &str) -> Result<Option<Seat>, AllocError> {
        let is_closed = self.closed.contains(name);
        Ok(Some(Seat {
            place: 0,
            is_closed,
        }))
    }
}

/// Any line.
impl Gate {
    /// The gate behind the line that brings a lawful model, of which this is the plan.
    pub fn behind(alloc: Global, plan: Arc<Plan>) -> Gate
        ensures { (d : Data) → is_ok (read_model d) ≡ true → arc_value plan ≡ compact_text d → IsOpenAfter result (Says (Model d) ∷ []) }
    {
        Gate {
            plan,
            closed: BTreeSet::new(alloc),
            services: Services::new(alloc),
        }
    }

    /// A client is closed.
    fn close(&mut self, alloc: Global, name: &str) -> Result<(), AllocError>
        ensures same { (self.new.plan ≡ self.old.plan) × (self.new.services ≡ self.old.services) }
        ensures closes { OnOk result ((other : List ℕ) → contains_text self.new.closed other ≡ (bytes_eq name.now other || contains_text self.old.closed other)) }
    {
        let name = String::from_str(alloc, name)?;
        self.closed.insert(name)?;
        Ok(())
    }

    /// Does what is due to a line, and tells whether the line is refused.
    fn settle(
        &mut self,
        alloc: Global,
        number: u64,
        due: Due<'_, Arc<Plan>, ()>,
    ) -> Result<Option<RefusedLine>, AllocError>
        ensures { IfOk result (λ found. Settles number due.entry self.old found self.new) }
    {
        match due {
            Due::Loaded(plan) => {
                self.plan = plan;
                self.services = Services::new(alloc);
                Ok(None)
            }
            Due::Told(report) => Ok(refused_by(report)),
            Due::Refused(_, _, why) => Ok(Some(refused(number, why))),
            Due::Closed(name, _) => {
                self.close(alloc, name)?;
                Ok(None)
            }
            // Nothing else changes what is kept here.
            _ => Ok(None),
        }
    }

    /// Whether a line of one of the forms is refused.
    fn pass_line(
        &mut self,
        alloc: Global,
        number: u64,
        says: &Line<'_>,
    ) -> Result<Option<RefusedLine>, AllocError>
        ensures { IfOk result (λ found. Passes self.old number (Says (line_view says.now)) found self.new) }
    {
        let due = decide(alloc, self, number, says)?;
        let found = self.settle(alloc, number, due)?;
        Ok(found)
    }

    /// Whether the line with this number is refused, and why. Where memory is refused the gate is of no more use. The time is in
    /// proportion to the line, times the logarithm of how many clients are closed and of how many values a service takes; the first
    /// request to a service also takes time for each of these.
    pub fn pass(
        &mut self,
        alloc: Global,
        number: u64,
        heard: &Heard<'_>,
    ) -> Result<Option<RefusedLine>, AllocError>
        ensures { IfOk result (λ found. (it : List ℕ) → IsHeardAs it heard.now → PassesText self.old number it found self.new) }
    {
        let Some(says) = line_heard(heard) else {
            return Ok(unread_line(number, heard));
        };
        let found = self.pass_line(alloc, number, &says)?;
        Ok(found)
    }
}
