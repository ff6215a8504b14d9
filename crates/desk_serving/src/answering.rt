//! Each line is answered, or put into its client's lane.
ghost use Rattle.std.specs.Prelude.{◌≡◌, ◌<◌, ◌^◌, ℕ, List, Some, false, slice_get, slice_set, length, IfOk, OnOk};
ghost use Rattle.std.specs.Arc.{arc_value};
ghost use Rattle.dmn_plan.specs.Request.{request_result};
ghost use Rattle.desk_wire.specs.Heard.{IsHeardAs};
ghost use Rattle.desk_wire.specs.Reports as reports;
ghost use Rattle.desk_serving.specs.LanesView.{lanes_in, links_in};
ghost use Rattle.desk_serving.specs.Owed.{Queue, with_put};
ghost use Rattle.desk_serving.specs.StateView.{CanBeDone, HasRoom, HearsText, IsAnswered, IsDueToHeard, IsSeat, IsToldAt, Settles, model_of};

use crate::deciding::DueHere;
use crate::state::State;
use crate::until::Until;
use crate::waiting::{hand_out_until, hand_out_until_read};
use desk_lines::{Clerk, FrontFault, LineText, Sink, Source, Unwritten};
use desk_requests::{Due, Seat, decide, line_heard};
use desk_wire::{Heard, Report, Told, add_refusal, hear};
use dmn_plan::Task;
use json_reader::JsonReader;
use model_marks::Catalog;
use std::alloc::{AllocError, Global};
use std::mem;
use std::sync::{Arc, Wait};

/// From so many bytes on a line takes long to read: about as long as it takes to wake a thread.
const LARGE: usize = 4096;

/// How long a line is.
fn bytes_of(line: &LineText) -> usize {
    match line.text() {
        Some(bytes) => bytes.len(),
        None => 0,
    }
}

/// What has to come before what is due to a line of so many bytes can be done at once.
fn until_of<C: Catalog>(due: &Option<DueHere<'_, C>>, bytes: usize) -> Until {
    match due {
        Some(Due::Asked(_, _, seat, _)) => Until::Room(seat.place, bytes),
        Some(Due::Refused(_, seat, _)) => Until::Told(seat.place, bytes),
        Some(Due::Closed(_, seat)) => Until::Told(seat.place, bytes),
        Some(Due::Resized(_, seat, _)) => Until::Told(seat.place, bytes),
        _ => Until::Now,
    }
}

impl<'a, C: Catalog, R: Wait> State<'a, C, R> {
    /// What is due to a line that is heard so; nothing where it has none of the forms.
    fn due_to<'b>(
        &mut self,
        alloc: Global,
        number: u64,
        heard: &'b Heard<'_>,
    ) -> Result<Option<DueHere<'b, C>>, AllocError>
        ensures same { links_in self.new.lanes ≡ links_in self.old.lanes }
        ensures lanes { OnOk result (self.new.lanes ≡ self.old.lanes) }
        ensures model { OnOk result (model_of self.new ≡ model_of self.old) }
        ensures due { IfOk result (λ due. IsDueToHeard self.new number heard.now due) }
    {
        let Some(says) = line_heard(heard) else {
            return Ok(None);
        };
        let due = decide(alloc, self, number, &says)?;
        Ok(Some(due))
    }

    /// Has workers woken while a line is read: for what waits, where reading takes long; or one for the request that the line may
    /// be, where all that was put before is answered.
    fn call_before(&self, line: &LineText, unwritten: &Unwritten) {
        if bytes_of(line) >= LARGE {
            self.lanes.call_workers();
            return;
        }
        if unwritten.is_empty() && self.lanes.has_come(Until::AllWhole) {
            self.lanes.expect_request();
        }
    }

    /// Has workers woken for what waits where the answer's text is written next, since that may take long.
    fn call_behind(&self, text: &[u8], unwritten: &Unwritten) {
        if unwritten.is_full_with(text) {
            self.lanes.call_workers();
        }
    }

    /// Puts a request into its client's lane.
    fn put(
        &mut self,
        alloc: Global,
        name: &str,
        seat: Seat,
        work: Arc<Task<C>>,
        bytes: usize,
    ) -> Result<(), AllocError>
        requires few { HasRoom self.old }
        requires seat { IsSeat self.old name.now (Some seat) }
        requires yet { seat.is_closed ≡ false }
        ensures same { links_in self.new.lanes ≡ links_in self.old.lanes }
        ensures answers { OnOk result ((text : List ℕ) (lane : Queue) → slice_get (lanes_in self.old.lanes) seat.place ≡ Some lane →
            IsAnswered self.old name.now (slice_set (lanes_in self.old.lanes) seat.place (with_put lane (arc_value work)))
            (reports.Reply name.now (length lane.put) (request_result (arc_value work))) text text self.new) }
    {
        self.lanes.name_at(alloc, seat.place, name)?;
        self.lanes.put(seat.place, work, bytes)
    }

    /// Tells what comes of a client's line behind all that is owed to the client.
    fn tell(
        &mut self,
        alloc: Global,
        number: u64,
        name: &str,
        seat: Seat,
        told: Told,
        bytes: usize,
        text: &mut Vec<u8>,
    ) -> Result<(), AllocError>
        requires seat { IsSeat self.old name.now (Some seat) }
        ensures same { links_in self.new.lanes ≡ links_in self.old.lanes }
        ensures answers { OnOk result (IsToldAt self.old name.now seat number told text.old.items text.new.items self.new) }
    {
        self.lanes.name_at(alloc, seat.place, name)?;
        self.lanes
            .tell(alloc, number, name, seat.place, told, bytes, text)
    }

    /// Does what is due to a line of so many bytes.
    fn settle(
        &mut self,
        alloc: Global,
        number: u64,
        due: DueHere<'_, C>,
        bytes: usize,
        text: &mut Vec<u8>,
    ) -> Result<(), AllocError>
        requires few { HasRoom self.old }
        requires can { CanBeDone self.old due }
        ensures same { links_in self.new.lanes ≡ links_in self.old.lanes }
        ensures settles { OnOk result (Settles number due.entry self.old text.old.items text.new.items self.new) }
    {
        match due {
            Due::Loaded(plan) => {
                self.plan = Some(plan);
                Report::Loaded(number).add_to(alloc, text)
            }
            Due::Told(report) => report.add_to(alloc, text),
            Due::Refused(name, seat, why) => {
                self.tell(alloc, number, name, seat, Told::Refused(why), bytes, text)
            }
            Due::Asked(name, _, seat, work) => self.put(alloc, name, seat, work, bytes),
            Due::Closed(name, seat) => {
                self.tell(alloc, number, name, seat, Told::Closed, bytes, text)
            }
            Due::Resized(name, seat, capacity) => {
                self.tell(
                    alloc,
                    number,
                    name,
                    seat,
                    Told::Resized(capacity),
                    bytes,
                    text,
                )
            }
        }
    }

    /// Does what is due to a line of so many bytes that is heard so, or refuses it: nothing is said to one that is blank.
    fn settle_heard(
        &mut self,
        alloc: Global,
        number: u64,
        heard: &Heard<'_>,
        due: Option<DueHere<'_, C>>,
        bytes: usize,
        text: &mut Vec<u8>,
    ) -> Result<(), AllocError>
        requires few { HasRoom self.old }
        requires due { IsDueToHeard self.old number heard.now due }
        ensures same { links_in self.new.lanes ≡ links_in self.old.lanes }
        ensures hears { OnOk result ((it : List ℕ) → IsHeardAs it heard.now → HearsText self.old number it text.old.items text.new.items self.new) }
    {
        let Some(due) = due else {
            return add_refusal(alloc, number, heard, text);
        };
        self.settle(alloc, number, due, bytes, text)
    }
}

impl<'a, C: Catalog, R: Wait> Clerk for State<'a, C, R> {
    ghost use Rattle.lanes.specs.Links.{Link};
    ghost use Rattle.desk_serving.specs.LanesView.{lanes_in, links_in, names_in};
    ghost use Rattle.desk_serving.specs.Owed.{due_to};
    ghost use Rattle.desk_serving.specs.Script.{ServedInPart};
    ghost use Rattle.desk_serving.specs.StateView.{After};

    ghost Script = { λ state. ServedInPart (length (lanes_in state.lanes)) };

    ghost Kept = { List (List Link) };

    ghost kept = { λ state. links_in state.lanes };

    ghost After = { After };

    ghost follows = { λ state lines said a. record {
      readings = a.readings;
      read = a.read;
      said = a.said;
      output = a.output;
      each = λ who. (due_to who (names_in state.lanes) (lanes_in state.lanes), a.stands.owed who);
    } };

    /// Hands out results, each written as soon as no other is at hand, until the line can be answered at once. So no result
    /// that is ready waits for another client's. A line is answered at once, or waits in its lane, as long as not too much waits.
    fn answer<W: Sink>(
        &mut self,
        alloc: Global,
        number: u64,
        line: &LineText,
        writer: &mut W,
        unwritten: &mut Unwritten,
    ) -> Result<Vec<u8>, FrontFault> {
        self.call_before(line, unwritten);
        // What is heard borrows from the reader, so that is set aside meanwhile.
        let mut texts = mem::replace(&mut self.texts, JsonReader::new());
        let bytes = bytes_of(line);
        let text = {
            let heard = hear(alloc, &mut texts, line)?;
            let due = self.due_to(alloc, number, &heard)?;
            let until = until_of(&due, bytes);
            hand_out_until(self.rt, alloc, &mut self.lanes, until, writer, unwritten)?;
            let mut text = Vec::new(alloc);
            self.lanes.hand_out_some(alloc, until, &mut text)?;
            self.settle_heard(alloc, number, &heard, due, bytes, &mut text)?;
            text
        };
        self.texts = texts;
        self.call_behind(&text, unwritten);
        Ok(text)
    }

    fn catch_up<S: Source, W: Sink>(
        &mut self,
        alloc: Global,
        reader: &mut S,
        writer: &mut W,
        unwritten: &mut Unwritten,
    ) -> Result<(), FrontFault> {
        hand_out_until_read(self.rt, alloc, &mut self.lanes, reader, writer, unwritten)
    }
}
