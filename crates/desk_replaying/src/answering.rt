//! What is done with each line, and said of it.
ghost use Rattle.std.specs.Prelude.{◌≡◌, [], IfOk, IfErr, Ok, Some};
ghost use Rattle.std.specs.Arc.{arc_value};
ghost use Rattle.serde_json.specs.View.{view};
ghost use Rattle.box_core.specs.History as broker;
ghost use Rattle.box_core.specs.Mail.{standing_at};
ghost use Rattle.box_core.specs.Views.{event_of};
ghost use Rattle.desk_replaying.specs.Due.{request_under, asks_with, Asks};
ghost use Rattle.desk_replaying.specs.StateView.{Stands, HasEffect, IsUnmade, LoadsModel, AsksFor, Answers, AnswersAt, AnswersBy, Opens, number_in, client_in, model_of};
ghost use Rattle.desk_replaying.specs.Line.{line_view};

use crate::line::{Line, line_in};
use crate::reports::report_on;
use crate::state::{Effect, State};
use box_core::{Answered, Broker, Done, Event, Report as BrokerReport};
use desk_wire::{Heard, Listener, Word, add_refusal};
use dmn_plan::{MarkedPlan, ModelFault, Plan, Task};
use model_marks::{Catalog, Marks};
use serde_json::Value;
use std::alloc::{AllocError, Global};
use std::sync::Arc;

impl<C: Catalog> State<C> {
    /// A state at which nothing was said.
    pub fn new(alloc: Global, marks: Marks<C>) -> State<C>
        ensures { Stands result [] }
    {
        State {
            broker: Broker::new(alloc),
            names: Vec::new(alloc),
            plan: None,
            marks,
        }
    }

    /// The number of a name's client, if it was opened.
    fn number_of(&self, name: &str) -> Option<u32>
        ensures { result ≡ number_in self.now name.now }
    {
        for (number, opened) in self.names.iter().enumerate() {
            if opened.as_str() == name {
                return Some(number as u32);
            }
        }
        None
    }

    /// The number of a name's client, or the first that is not given yet.
    fn client_of(&self, name: &str) -> u32
        ensures { result ≡ client_in self.now name.now }
    {
        match self.number_of(name) {
            Some(client) => client,
            None => self.names.len() as u32,
        }
    }

    /// A work under the model in force.
    fn work(&self, alloc: Global, service: &str, inputs: &Value) -> Result<Arc<Task<C>>, Word>
        ensures ok { IfOk result (λ work. request_under (model_of self.now) service.now (view inputs.now) ≡ Ok (arc_value work)) }
        ensures err { IfErr result (IsUnmade (request_under (model_of self.now) service.now (view inputs.now))) }
    {
        let Some(plan) = &self.plan else {
            return Err(Word::Model);
        };
        match plan.task(alloc, service, inputs) {
            Ok(task) => match Arc::new(alloc, task) {
                Ok(work) => Ok(work),
                Err(_) => Err(Word::Memory),
            },
            Err(fault) => Err(Word::of_task_fault(fault)),
        }
    }

    /// Asks the broker.
    fn ask(&mut self, event: Event<Task<C>>) -> Effect<C>
        ensures { AsksFor self.old (event_of event) result self.new }
    {
        Effect::Reported(self.broker.apply(event))
    }

    fn load(&mut self, alloc: Global, model: &Value) -> Effect<C>
        ensures { LoadsModel self.old (view model.now) result self.new }
    {
        match Plan::of(alloc, model) {
            Ok(plan) => {
                let Ok(plan) = MarkedPlan::of(alloc, &mut self.marks, plan) else {
                    return Effect::Refused(Word::Memory);
                };
                self.plan = Some(plan);
                Effect::Loaded
            }
            Err(ModelFault::Memory) => Effect::Refused(Word::Memory),
            Err(fault) => Effect::Faulty(fault),
        }
    }

    fn open(&mut self, alloc: Global, name: &str, capacity: u32) -> Result<Effect<C>, AllocError>
        ensures { IfOk result (λ effect. Opens self.old name.now capacity effect self.new) }
    {
        if self.number_of(name).is_some() {
            return Ok(Effect::Refused(Word::Present));
        }
        let report = self.broker.apply(Event::AddClient(capacity));
        if let BrokerReport::Added(_) = report {
            self.names.push(String::from_str(alloc, name)?)?;
        }
        Ok(Effect::Reported(report))
    }

    fn submit(&mut self, alloc: Global, name: &str, service: &str, inputs: &Value) -> Effect<C>
        ensures { Answers self.old (asks_with (request_under (model_of self.old) service.now (view inputs.now)) (broker.Submit (client_in self.old name.now))) result self.new }
    {
        match self.work(alloc, service, inputs) {
            Ok(work) => self.ask(Event::Submit(self.client_of(name), work)),
            Err(why) => Effect::Refused(why),
        }
    }

    fn take(&mut self, name: &str, ticket: u64) -> Effect<C>
        ensures { AsksFor self.old (broker.Take (client_in self.old name.now) ticket) result self.new }
    {
        self.ask(Event::Take(self.client_of(name), ticket))
    }

    /// A work answers a ticket of a client.
    fn answer_by(
        &mut self,
        alloc: Global,
        client: u32,
        ticket: u64,
        work: Arc<Task<C>>,
    ) -> Effect<C>
        ensures { Answers self.old (Asks (broker.Answer client (record { ticket = ticket; work = arc_value work }))) result self.new }
    {
        match Done::of(alloc, ticket, work) {
            Ok(done) => self.ask(Event::Answer(client, done)),
            Err(_) => Effect::Refused(Word::Memory),
        }
    }

    /// The work that was taken under a client's ticket answers it. An answer that was kept stays.
    fn answer(&mut self, name: &str, ticket: u64) -> Effect<C>
        ensures { AnswersBy self.old ticket (number_in self.old name.now) result self.new }
    {
        let Some(client) = self.number_of(name) else {
            return Effect::Refused(Word::NoClient);
        };
        self.answer_own(client, ticket)
    }

    fn answer_own(&mut self, client: u32, ticket: u64) -> Effect<C>
        ensures { AnswersAt self.old client ticket (standing_at self.old.broker client ticket) result self.new }
    {
        let Ok(found) = self.broker.answer_own(client, ticket) else {
            return Effect::Refused(Word::Memory);
        };
        let Some(told) = found else {
            return Effect::Refused(Word::Strange);
        };
        match told {
            Answered::Kept => Effect::Reported(BrokerReport::Kept),
            Answered::Repeated => Effect::Reported(BrokerReport::Repeated),
            Answered::Strange => Effect::Refused(Word::Strange),
        }
    }

    fn answer_with(
        &mut self,
        alloc: Global,
        name: &str,
        ticket: u64,
        service: &str,
        inputs: &Value,
    ) -> Effect<C>
        ensures { Answers self.old (asks_with (request_under (model_of self.old) service.now (view inputs.now)) (λ request. broker.Answer (client_in self.old name.now) (record { ticket = ticket; work = request }))) result self.new }
    {
        match self.work(alloc, service, inputs) {
            Ok(work) => self.answer_by(alloc, self.client_of(name), ticket, work),
            Err(why) => Effect::Refused(why),
        }
    }

    fn release(&mut self, name: &str) -> Effect<C>
        ensures { AsksFor self.old (broker.Release (client_in self.old name.now)) result self.new }
    {
        self.ask(Event::Release(self.client_of(name)))
    }

    fn close(&mut self, name: &str) -> Effect<C>
        ensures { AsksFor self.old (broker.Close (client_in self.old name.now)) result self.new }
    {
        self.ask(Event::Close(self.client_of(name)))
    }

    fn resize(&mut self, name: &str, capacity: u32) -> Effect<C>
        ensures { AsksFor self.old (broker.Resize (client_in self.old name.now) capacity) result self.new }
    {
        self.ask(Event::Resize(self.client_of(name), capacity))
    }

    /// Does what is due to a line, and tells what became of it. Where the state itself finds no memory it is of no more use.
    pub fn hear(&mut self, alloc: Global, line: &Line<'_>) -> Result<Effect<C>, AllocError>
        ensures { IfOk result (λ effect. HasEffect self.old (line_view line.now) effect self.new) }
    {
        match line {
            Line::Model(model) => Ok(self.load(alloc, model)),
            Line::Open(name, capacity) => self.open(alloc, name, *capacity),
            Line::Submit(name, service, inputs) => Ok(self.submit(alloc, name, service, inputs)),
            Line::Take(name, ticket) => Ok(self.take(name, *ticket)),
            Line::Answer(name, ticket) => Ok(self.answer(name, *ticket)),
            Line::AnswerWith(name, ticket, service, inputs) => Ok(self.answer_with(
                alloc, name, *ticket, service, inputs,
            )),
            Line::Release(name) => Ok(self.release(name)),
            Line::Close(name) => Ok(self.close(name)),
            Line::Resize(name, capacity) => Ok(self.resize(name, *capacity)),
        }
    }
}

impl<C: Catalog> Listener for State<C> {
    ghost use Rattle.desk_replaying.specs.Script.{Script};
    ghost use Rattle.desk_replaying.specs.StateView.{After};

    const ROOM: usize = 128;

    ghost Script = { λ _. Script };

    ghost After = { After };

    fn answer_heard(
        &mut self,
        alloc: Global,
        number: u64,
        heard: &Heard<'_>,
        text: &mut Vec<u8>,
    ) -> Result<(), AllocError> {
        let Heard::Object(members) = heard else {
            return add_refusal(alloc, number, heard, text);
        };
        let Some(line) = line_in(members) else {
            return add_refusal(alloc, number, heard, text);
        };
        let effect = self.hear(alloc, &line)?;
        report_on(number, &line, &effect).add_to(alloc, text)
    }

    ghost follows = { λ state lines said a. a.script };
}
