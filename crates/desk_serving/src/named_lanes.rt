//! The clients' lanes and their names.
ghost use Rattle.std.specs.Prelude.{◌≡◌, ◌<◌, ◌≤◌, ◌^◌, [], ℕ, List, false, length, map, slice_get, slice_set, string_bytes, IfNone, IfOk, IfSome, IsTrue, OnOk, Some};
ghost use Rattle.std.specs.Arc.{arc_value};
ghost use Rattle.lanes.specs.Clients.{client_links};
ghost use Rattle.desk_serving.specs.Owed.{Hands, HandsThen, Queue, queue_of, unhanded, with_put, with_told};
ghost use Rattle.desk_requests.specs.State.{AreDistinct, AreDistinct-prop, with_lane};
ghost use Rattle.feel_value.specs.Distinct.{is_among};
ghost use Rattle.desk_wire.specs.Reports.{Of};

use crate::client_lane::{ClientLane, Waiting};
use crate::lane_ends::lanes_of;
use crate::load::Load;
use crate::until::Until;
use desk_requests::Seat;
use desk_wire::Told;
use dmn_plan::Task;
use lanes::{Client, MOST_CLIENTS};
use model_marks::Catalog;
use std::alloc::{AllocError, Global};
use std::sync::Arc;

/// The most lanes.
const MOST: usize = MOST_CLIENTS as usize;

/// The clients' lanes, and the names of the first of them: lane by lane.
#[derive(Drop)]
pub struct Lanes<C: Catalog> {
    pub(crate) names: Vec<String>,
    pub(crate) clients: Vec<ClientLane<C>>,
    /// How many requests each mailbox may have outstanding; a closed one none.
    rooms: [u32; MOST],
    /// What waits in the lanes.
    load: Load,
    /// The lane whose turn it is to be looked at.
    turn: usize,
    ghost named: { length names.items ≤ length clients.items },
    ghost distinct: { AreDistinct (map string_bytes names.items) } by { AreDistinct-prop (map string_bytes names.items) },
}

impl<C: Catalog> Lanes<C> {
    ghost use Rattle.desk_serving.specs.LanesView.{ArePolled, IsSeatIn, NothingWaits, lanes_in, links_in, names_in};

    /// Lanes of this capacity without a name.
    pub fn new(
        alloc: Global,
        clients: Vec<Client<Task<C>>>,
        capacity: u32,
    ) -> Result<Lanes<C>, AllocError>
        ensures names { IfOk result (λ lanes. lanes.names.items ≡ []) }
        ensures lanes { IfOk result (λ lanes. lanes_in lanes ≡ map queue_of clients.items) }
        ensures links { IfOk result (λ lanes. links_in lanes ≡ map client_links clients.items) }
    {
        let lanes = lanes_of(alloc, clients)?;
        Ok(Lanes {
            names: Vec::new(alloc),
            clients: lanes,
            rooms: [capacity; MOST],
            load: Load::none(),
            turn: 0,
        })
    }

    /// The place of a name's lane, if it has one.
    pub fn place_of(&self, name: &str) -> Option<usize>
        ensures found { IfSome result (λ place. slice_get (names_in self.now) place ≡ Some name.now) }
        ensures none { IfNone result (is_among (names_in self.now) name.now ≡ false) }
    {
        for (place, known) in self.names.iter().enumerate() {
            if known.as_str() == name {
                return Some(place);
            }
        }
        None
    }

    /// The lane at a place.
    fn seat_at(&self, place: usize) -> Seat
        requires { place < length (lanes_in self.now) }
        ensures place { result.place ≡ place }
        ensures closed { (lane : Queue) → slice_get (lanes_in self.now) place ≡ Some lane → result.is_closed ≡ lane.closed }
    {
        Seat {
            place,
            is_closed: self.clients[place].is_closed(),
        }
    }

    /// The lane that a name has, or gets once it has one: none where all lanes have other names.
    pub fn seat(&self, name: &str) -> Option<Seat>
        ensures { IsSeatIn self.now name.now result }
    {
        if let Some(place) = self.place_of(name) {
            return Some(self.seat_at(place));
        }
        let place = self.names.len();
        if place >= self.clients.len() {
            return None;
        }
        Some(self.seat_at(place))
    }

    /// Gives a name the lane that it has, or that is next.
    pub fn name_at(&mut self, alloc: Global, place: usize, name: &str) -> Result<(), AllocError>
        requires { slice_get (with_lane (length (lanes_in self.old)) name.now (names_in self.old)) place ≡ Some name.now }
        ensures same { links_in self.new ≡ links_in self.old }
        ensures lanes { lanes_in self.new ≡ lanes_in self.old }
        ensures names { OnOk result (names_in self.new ≡ with_lane (length (lanes_in self.old)) name.now (names_in self.old)) }
    {
        if place < self.names.len() {
            return Ok(());
        }
        self.names.push(String::from_str(alloc, name)?)?;
        Ok(())
    }

    /// Hands out at most one result from each lane, in lines at the end of the text.
    pub fn hand_out(&mut self, alloc: Global, text: &mut Vec<u8>) -> Result<(), AllocError>
        ensures same { links_in self.new ≡ links_in self.old }
        ensures names { names_in self.new ≡ names_in self.old }
        // Each lane with a name hands out its next result, unless it has not come.
        ensures polled { OnOk result (ArePolled (length (names_in self.old)) self.old.clients.items self.new.clients.items) }
        ensures clear { OnOk result (NothingWaits self.old → NothingWaits self.new) }
        ensures hands { OnOk result (Hands (names_in self.old) (lanes_in self.old) (lanes_in self.new) text.old.items text.new.items) }
    {
        for place in 0..self.names.len() {
            self.clients[place].hand_out_next(alloc, self.names[place].as_str(), text)?;
        }
        Ok(())
    }

    /// What waits goes on, where its turn is there: at most one in each lane. What is said then stands in lines at the end of the
    /// text. That gives whether any went on.
    pub fn go_on(&mut self, alloc: Global, text: &mut Vec<u8>) -> Result<bool, AllocError>
        ensures same { links_in self.new ≡ links_in self.old }
        ensures names { names_in self.new ≡ names_in self.old }
        ensures clear { OnOk result (NothingWaits self.old → NothingWaits self.new) }
        ensures hands { OnOk result (Hands (names_in self.old) (lanes_in self.old) (lanes_in self.new) text.old.items text.new.items) }
    {
        if self.load.is_none() {
            return Ok(false);
        }
        let mut has_gone = false;
        for place in 0..self.names.len() {
            if self.go_on_at(alloc, place, text)? {
                has_gone = true;
            }
        }
        Ok(has_gone)
    }

    /// The same in one lane.
    fn go_on_at(
        &mut self,
        alloc: Global,
        place: usize,
        text: &mut Vec<u8>,
    ) -> Result<bool, AllocError>
        requires place { place < length (names_in self.old) }
        ensures same { links_in self.new ≡ links_in self.old }
        ensures names { names_in self.new ≡ names_in self.old }
        ensures clear { OnOk result (NothingWaits self.old → NothingWaits self.new) }
        ensures hands { OnOk result (Hands (names_in self.old) (lanes_in self.old) (lanes_in self.new) text.old.items text.new.items) }
    {
        if !self.has_place(place) {
            return Ok(false);
        }
        let gone = self.clients[place].go_first(alloc, self.names[place].as_str(), text)?;
        let Some(gone) = gone else {
            return Ok(false);
        };
        self.note(place, gone);
        Ok(true)
    }

    /// Notes that this went on in a lane.
    fn note(&mut self, place: usize, gone: Waiting<C>)
        ensures names { self.new.names ≡ self.old.names }
        ensures clients { self.new.clients ≡ self.old.clients }
    {
        match gone {
            Waiting::Request(_, bytes) => self.load.take(bytes),
            Waiting::Told(_, told, bytes) => {
                self.load.take(bytes);
                self.set_room(place, told);
            }
        }
    }

    /// Whether nothing waits.
    pub fn nothing_waits(&self) -> bool
        ensures { IsTrue result → NothingWaits self.now }
    {
        for place in 0..self.clients.len() {
            if self.clients[place].has_waiting() {
                return false;
            }
        }
        true
    }

    /// Hands out at most one result from the lane that is waited for, and one from another, in lines at the end of the text. The
    /// others take turns, so this costs the same however many lanes there are. Then what waits goes on.
    pub fn hand_out_some(
        &mut self,
        alloc: Global,
        until: Until,
        text: &mut Vec<u8>,
    ) -> Result<(), AllocError>
        ensures same { links_in self.new ≡ links_in self.old }
        ensures names { names_in self.new ≡ names_in self.old }
        ensures hands { OnOk result (Hands (names_in self.old) (lanes_in self.old) (lanes_in self.new) text.old.items text.new.items) }
    {
        self.hand_out_at(alloc, until.place(), text)?;
        let turn = self.next_turn();
        self.hand_out_at(alloc, turn, text)?;
        self.go_on(alloc, text)?;
        Ok(())
    }

    /// Hands out the next result of the lane at a place, if there is a lane with a name and its result is there.
    fn hand_out_at(
        &mut self,
        alloc: Global,
        place: usize,
        text: &mut Vec<u8>,
    ) -> Result<(), AllocError>
        ensures same { links_in self.new ≡ links_in self.old }
        ensures names { names_in self.new ≡ names_in self.old }
        ensures hands { OnOk result (Hands (names_in self.old) (lanes_in self.old) (lanes_in self.new) text.old.items text.new.items) }
    {
        if place >= self.names.len() {
            return Ok(());
        }
        self.clients[place].hand_out_next(alloc, self.names[place].as_str(), text)
    }

    /// Whose turn it is. The next lane has the next turn.
    fn next_turn(&mut self) -> usize
        ensures names { names_in self.new ≡ names_in self.old }
        ensures lanes { lanes_in self.new ≡ lanes_in self.old }
        ensures same { links_in self.new ≡ links_in self.old }
    {
        let turn = self.turn;
        let next = turn.wrapping_add(1);
        self.turn = if next < self.names.len() { next } else { 0 };
        turn
    }

    /// Whether a lane's mailbox has a place for a request, or is whole.
    fn has_place(&self, place: usize) -> bool {
        let Some(lane) = self.clients.get(place) else {
            return true;
        };
        let Some(room) = self.rooms.get(place) else {
            return true;
        };
        let outstanding = lane.outstanding();
        outstanding == 0 || outstanding < *room as u64
    }

    /// Whether something waits in a lane.
    fn has_waiting(&self, place: usize) -> bool {
        match self.clients.get(place) {
            Some(lane) => lane.has_waiting(),
            None => false,
        }
    }

    /// Whether a lane takes a request with a line of so many bytes: its mailbox has a place, or the request may wait for one.
    pub fn has_room(&self, place: usize, bytes: usize) -> bool {
        if !self.has_waiting(place) && self.has_place(place) {
            return true;
        }
        self.load.has_room(bytes)
    }

    /// Whether a lane takes what is told of a line of so many bytes: nothing is owed there, or that may wait.
    pub fn has_room_told(&self, place: usize, bytes: usize) -> bool {
        match self.clients.get(place) {
            Some(lane) => lane.is_whole() || self.load.has_room(bytes),
            None => true,
        }
    }

    /// Notes how many requests of a lane may be outstanding once this is told.
    fn set_room(&mut self, place: usize, told: Told)
        ensures names { self.new.names ≡ self.old.names }
        ensures clients { self.new.clients ≡ self.old.clients }
    {
        let Some(room) = self.rooms.get_mut(place) else {
            return;
        };
        match told {
            Told::Closed => {
                *room = 0;
            }
            Told::Resized(capacity) => {
                *room = capacity;
            }
            _ => {}
        }
    }

    /// Tells what comes of a client's line behind all that is owed to the client: as a line at the end of the text, or it waits.
    pub fn tell(
        &mut self,
        alloc: Global,
        number: u64,
        name: &str,
        place: usize,
        told: Told,
        bytes: usize,
        text: &mut Vec<u8>,
    ) -> Result<(), AllocError>
        requires place { slice_get (names_in self.old) place ≡ Some name.now }
        ensures same { links_in self.new ≡ links_in self.old }
        ensures names { names_in self.new ≡ names_in self.old }
        ensures lanes { OnOk result ((lane : Queue) → slice_get (lanes_in self.old) place ≡ Some lane → unhanded (lanes_in self.new) ≡ unhanded (slice_set (lanes_in self.old) place (with_told number told lane))) }
        ensures hands { OnOk result (HandsThen (names_in self.old) (lanes_in self.old) (lanes_in self.new) (Of name.now number told) text.old.items text.new.items) }
    {
        let waits = self.clients[place].tell(alloc, number, name, told, bytes, text)?;
        self.note_told(place, waits, told);
        Ok(())
    }

    /// Notes that this was told in a lane, or that its line waits with so many bytes.
    fn note_told(&mut self, place: usize, waits: Option<usize>, told: Told)
        ensures names { self.new.names ≡ self.old.names }
        ensures clients { self.new.clients ≡ self.old.clients }
    {
        if waits.is_none() {
            self.set_room(place, told);
            return;
        }
        self.load.add(waits);
    }

    /// Puts a request into a lane that is open.
    pub fn put(&mut self, place: usize, work: Arc<Task<C>>, bytes: usize) -> Result<(), AllocError>
        requires place { place < length (names_in self.old) }
        requires few { (lane : Queue) → slice_get (lanes_in self.old) place ≡ Some lane → length lane.put < 2 ^ 60 }
        requires open { (lane : Queue) → slice_get (lanes_in self.old) place ≡ Some lane → lane.closed ≡ false }
        ensures same { links_in self.new ≡ links_in self.old }
        ensures names { names_in self.new ≡ names_in self.old }
        ensures puts { OnOk result ((lane : Queue) → slice_get (lanes_in self.old) place ≡ Some lane → lanes_in self.new ≡ slice_set (lanes_in self.old) place (with_put lane (arc_value work))) }
    {
        let waits = self.clients[place].put(work, bytes)?;
        self.load.add(waits);
        Ok(())
    }
}
