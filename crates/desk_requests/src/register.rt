//! What stands between the lines where each is answered before the next is read, and what each line is answered with.
ghost use Rattle.std.specs.Prelude.{◌≡◌, ◌<◌, [], IfOk, IfNone, IfSome, OnOk, Some, false, length, option_map, slice_get, slice_set};
ghost use Rattle.std.specs.Arc.{arc_value};
ghost use Rattle.feel_value.specs.Distinct.{is_among};
ghost use Rattle.dmn_plan.specs.Request.{request_result};
ghost use Rattle.desk_wire.specs.Reports.{Reply};
ghost use Rattle.desk_requests.specs.Decider.{IsAt};
ghost use Rattle.desk_requests.specs.Line.{line_view};
ghost use Rattle.desk_requests.specs.Register as specs;
ghost use Rattle.desk_requests.specs.Register.{Answers, AsksBy, AsksFor, IsSeat, Settles, StandsAfter, answer_view, clients_of, force_of, names_of, with_accepted, with_client, with_closed};

use crate::decider::{Decider, Due, Seat, decide};
use crate::line::Line;
use desk_wire::{Report, Told, Word};
use dmn_plan::{ModelFault, Plan, Task, TaskFault};
use serde_json::Value;
use std::alloc::{AllocError, Global};
use std::sync::Arc;

/// A client that has a lane: how many of its requests were accepted, and whether it is closed.
#[derive(Drop)]
pub(crate) struct Client {
    pub(crate) name: String,
    pub(crate) accepted: u64,
    pub(crate) is_closed: bool,
}

/// What stands between the lines: the model in force, and each client that has one of the lanes.
#[derive(Drop)]
pub struct Register {
    pub(crate) plan: Option<Arc<Plan>>,
    pub(crate) clients: Vec<Client>,
    pub(crate) lanes: usize,
}

/// An accepted request of a client to a service: its reply is under this ticket what the task comes to.
#[derive(Drop)]
pub struct Asked<'a> {
    /// The client's name.
    pub client: &'a str,
    /// The name of the service.
    pub service: &'a str,
    /// How many requests of the client were accepted before.
    pub ticket: u64,
    /// The service with its values.
    pub task: Task,
}

/// What a line is answered with.
#[derive(Drop)]
pub enum Answer<'a> {
    /// This report.
    Told(Report<'a>),
    /// The reply to a request.
    Asked(Asked<'a>),
}

/// One client's place.
impl Register {
    /// The place of a name's client, if it has a lane.
    fn place_of(&self, name: &str) -> Option<usize>
        ensures found { IfSome result (λ place. slice_get (names_of self.now) place ≡ Some name.now) }
        ensures none { IfNone result (is_among (names_of self.now) name.now ≡ false) }
    {
        for (place, client) in self.clients.iter().enumerate() {
            if client.name.as_str() == name {
                return Some(place);
            }
        }
        None
    }

    /// The place of a name's client. A name without a lane gets the next, if one is left.
    fn place_for(&mut self, alloc: Global, name: &str) -> Result<Option<usize>, AllocError>
        ensures same { (self.new.plan ≡ self.old.plan) × (self.new.lanes ≡ self.old.lanes) }
        ensures clients { OnOk result (clients_of self.new ≡ with_client self.old.lanes name.now (clients_of self.old)) }
        ensures found { IfOk result (λ place. IfSome place (λ place. slice_get (names_of self.new) place ≡ Some name.now)) }
        ensures none { IfOk result (λ place. IfNone place (is_among (names_of self.new) name.now ≡ false)) }
    {
        if let Some(place) = self.place_of(name) {
            return Ok(Some(place));
        }
        let place = self.clients.len();
        if place >= self.lanes {
            return Ok(None);
        }
        let name = String::from_str(alloc, name)?;
        self.clients.push(Client {
            name,
            accepted: 0,
            is_closed: false,
        })?;
        Ok(Some(place))
    }

    /// A task of the client at a place is accepted under its next ticket.
    fn accept<'a>(
        &mut self,
        place: usize,
        name: &'a str,
        service: &'a str,
        task: Task,
    ) -> Answer<'a>
        requires { slice_get (names_of self.old) place ≡ Some name.now }
        ensures same { (self.new.plan ≡ self.old.plan) × (self.new.lanes ≡ self.old.lanes) }
        ensures told { (client : specs.Client) → slice_get (clients_of self.old) place ≡ Some client → answer_view result ≡ Reply name.now client.accepted (request_result task) }
        ensures counts { (client : specs.Client) → slice_get (clients_of self.old) place ≡ Some client → clients_of self.new ≡ slice_set (clients_of self.old) place (with_accepted client) }
        ensures asked { AsksFor name.now service.now task result }
    {
        let client = &mut self.clients[place];
        let ticket = client.accepted;
        client.accepted = ticket.wrapping_add(1);
        Answer::Asked(Asked {
            client: name,
            service,
            ticket,
            task,
        })
    }

    /// The client at a place is closed.
    fn close_at(&mut self, place: usize)
        requires { place < length (clients_of self.old) }
        ensures same { (self.new.plan ≡ self.old.plan) × (self.new.lanes ≡ self.old.lanes) }
        ensures closes { (client : specs.Client) → slice_get (clients_of self.old) place ≡ Some client → clients_of self.new ≡ slice_set (clients_of self.old) place (with_closed client) }
    {
        let client = &mut self.clients[place];
        client.is_closed = true;
    }

    /// Whether the client at a place is closed.
    fn is_closed_at(&self, place: usize) -> bool
        requires { place < length (clients_of self.now) }
        ensures { (client : specs.Client) → slice_get (clients_of self.now) place ≡ Some client → result ≡ client.closed }
    {
        self.clients[place].is_closed
    }
}

/// What each line is answered with.
impl Register {
    /// A register before the first line, of so many lanes.
    pub fn new(alloc: Global, lanes: usize) -> Register
        ensures { StandsAfter lanes result [] }
    {
        Register {
            plan: None,
            clients: Vec::new(alloc),
            lanes,
        }
    }

    /// The model in force.
    pub fn model(&self) -> Option<&Arc<Plan>>
        ensures { option_map (λ plan. arc_value plan.now) result ≡ force_of self.now }
    {
        self.plan.as_ref()
    }

    /// Does what is due to a line, and answers it.
    fn settle<'a>(&mut self, number: u64, due: Due<'a, Arc<Plan>, Task>) -> Answer<'a>
        requires { IsAt IsSeat self.old due }
        ensures lanes { self.new.lanes ≡ self.old.lanes }
        ensures settles { Settles number due.entry self.old result self.new }
    {
        match due {
            Due::Loaded(plan) => {
                self.plan = Some(plan);
                Answer::Told(Report::Loaded(number))
            }
            Due::Told(report) => Answer::Told(report),
            Due::Refused(name, _, why) => {
                Answer::Told(Report::Of(name, number, Told::Refused(why)))
            }
            Due::Asked(name, service, seat, task) => self.accept(seat.place, name, service, task),
            Due::Closed(name, seat) => {
                self.close_at(seat.place);
                Answer::Told(Report::Of(name, number, Told::Closed))
            }
            Due::Resized(name, _, capacity) => {
                Answer::Told(Report::Of(name, number, Told::Resized(capacity)))
            }
        }
    }

    /// What the line with this number is answered with: the report that `serve` gives, or the request whose reply it gives. Where
    /// memory is refused the register is of no more use.
    pub fn answer<'a>(
        &mut self,
        alloc: Global,
        number: u64,
        says: &Line<'a>,
    ) -> Result<Answer<'a>, AllocError>
        ensures lanes { self.new.lanes ≡ self.old.lanes }
        ensures answers { IfOk result (λ answer. Answers self.old number (line_view says.now) answer self.new) }
        ensures asks { IfOk result (λ answer. AsksBy (force_of self.old) (line_view says.now) answer) }
    {
        let due = decide(alloc, self, number, says)?;
        Ok(self.settle(number, due))
    }
}

impl Decider for Register {
    ghost use Rattle.std.specs.Prelude.{◌≡◌, ℕ};
    ghost use Rattle.std.specs.Arc.{arc_value};
    ghost use Rattle.desk_requests.specs.Register.{Asks, IsSeat, Keeps, force_of};

    type Plan = Arc<Plan>;

    type Made = Task;

    ghost Kept = { ℕ };

    ghost kept = { λ register. register.lanes };

    ghost text_of = { arc_value };

    ghost force = { force_of };

    ghost Knows = { λ _. Unit {0} };

    ghost Keeps = { Keeps };

    ghost Asks = { Asks };

    ghost IsSeat = { IsSeat };

    ghost IsMade = { λ task q. task ≡ q };

    fn load(
        &mut self,
        alloc: Global,
        model: &Value,
    ) -> Result<Result<Arc<Plan>, Word>, AllocError> {
        match Plan::of(alloc, model) {
            Ok(plan) => {
                let kept = Arc::new(alloc, plan)?;
                Ok(Ok(kept))
            }
            Err(fault) => match fault {
                ModelFault::Memory => Err(AllocError),
                fault => Ok(Err(Word::of_fault(fault))),
            },
        }
    }

    fn make(
        &mut self,
        alloc: Global,
        service: &str,
        inputs: &Value,
    ) -> Result<Option<Result<Task, TaskFault>>, AllocError> {
        let Some(plan) = &self.plan else {
            return Ok(None);
        };
        let plan = Arc::try_clone(plan)?;
        match Task::new(alloc, plan, service, inputs) {
            Ok(task) => Ok(Some(Ok(task))),
            Err(fault) => match fault {
                TaskFault::Memory => Err(AllocError),
                fault => Ok(Some(Err(fault))),
            },
        }
    }

    fn seat(&mut self, alloc: Global, name: &str) -> Result<Option<Seat>, AllocError> {
        let Some(place) = self.place_for(alloc, name)? else {
            return Ok(None);
        };
        Ok(Some(Seat {
            place,
            is_closed: self.is_closed_at(place),
        }))
    }
}
