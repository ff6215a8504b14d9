//! One lane on its way to being settled.
ghost use Rattle.std.specs.Prelude.{◌≡◌, ◌+◌, ◌-◌, ◌≤◌, List, [], ◌∷◌, ◌++◌, length, max, vec_len, vec_capacity, IsPermutation};
ghost use Rattle.crossbeam_deque.specs.Handles.{worker_deque, worker_port, worker_view, worker_flavor, SameWorker};
ghost use Rattle.rtrb.specs.Ring.{sent, received, IsPair};
ghost use Rattle.box_core.specs.Answer.{Ticketed};
ghost use Rattle.lanes.specs.Books.{book};
ghost use Rattle.lanes.specs.Clients.{client_links, mail_of};
ghost use Rattle.lanes.specs.Held.{jobs_in, answers_in};
ghost use Rattle.lanes.specs.Joined.{Joins};
ghost use Rattle.lanes.specs.Identities.{link, links_of, sender_ring, IsOfLane};
ghost use Rattle.lanes.specs.Polls.{TakenIn};
ghost use Rattle.lanes.specs.Ports.{taken_at, sent_at};
ghost use Rattle.lanes.specs.Settling.{Settles};
ghost use Rattle.lanes.specs.Workers.{port_links};

use crate::book::{FromWorker, Leaves, Owner};
use crate::client::Client;
use crate::port::{Held, Port};
use crate::settled::Settled;
use box_core::{Done, Job, Mailbox, Work};
use rtrb::{Consumer, Producer};

/// Ends a lane: all that was sent or is held as an answer is taken in, and all that waits or is held as a job is left.
pub(crate) fn settle_lane<W: Work>(
    client: Client<W>,
    column: &mut Vec<Port<W>>,
    mut left: Vec<Job<W>>,
) -> Settled<W>
    requires links { port_links column.old.items ≡ client_links client }
    requires empty { left.items ≡ [] }
    requires room { (length (mail_of client).outstanding ≤ vec_capacity left) × (vec_len column.old ≤ vec_capacity left) }
    ensures settled { Settles W.request W.result_of client column.old.items result }
    ensures column { (column.new.items ≡ []) × (vec_capacity column.new ≡ vec_capacity column.old) }
{
    let Client {
        mut owner,
        mut mailbox,
        rings,
        signals: _,
        lane: _,
    } = client;
    join_ports(&mut owner, column, rings, &mut mailbox, &mut left);
    pop_rest(&mut owner, &mut left);
    Settled {
        owner,
        mailbox,
        left,
    }
}

// Takes all workers' passes of a lane in, the last one first.
fn join_ports<W: Work>(
    owner: &mut Owner<W>,
    ports: &mut Vec<Port<W>>,
    mut rings: Vec<Consumer<Done<W>>>,
    mailbox: &mut Mailbox<W>,
    left: &mut Vec<Job<W>>,
)
    requires owner { worker_port owner.old ≡ 0 }
    requires links { port_links ports.old.items ≡ links_of (worker_deque owner.old) rings.items }
    requires room { vec_len left.old + vec_len ports.old ≤ vec_capacity left.old }
    ensures same { SameWorker owner.old owner.new }
    ensures joins { (answers : List (Ticketed W)) × (jobs : List (Ticketed W)) × TakenIn W.request W.result_of mailbox.old answers mailbox.new × (left.new.items ≡ left.old.items ++ jobs) × Joins ports.old.items rings.items (worker_view owner.old) (worker_view owner.new) answers jobs }
    ensures room { vec_capacity left.new ≡ vec_capacity left.old }
    ensures ports { (ports.new.items ≡ []) × (vec_capacity ports.new ≡ vec_capacity ports.old) }
{
    while let Some(port) = ports.pop() {
        let Some(mut ring) = rings.pop() else {
            unreachable!()
        };
        let (mut sender, held) = join_port(owner, port);
        drain(&mut ring, &mut sender, mailbox);
        settle_held(held, mailbox, left);
    }
}

// Takes a worker's pass in, and gives the rest of its port.
fn join_port<W: Work>(owner: &mut Owner<W>, port: Port<W>) -> (Producer<Done<W>>, Held<W>)
    requires lane { IsOfLane (worker_deque owner.old) port.link × (worker_port owner.old ≡ 0) }
    ensures same { SameWorker owner.old owner.new }
    ensures joined { worker_view owner.new ≡ book (worker_view owner.old).live ((worker_view owner.old).out - 1) (worker_view owner.old).put ((worker_view owner.old).taken ++ taken_at port) }
    ensures rest { (port.link ≡ link (worker_deque owner.old) (sender_ring result.0)) × (sent result.0 ≡ sent_at port) × (result.1 ≡ port.held) }
{
    let Port {
        thief: _,
        seat,
        sender,
        held,
    } = port;
    owner.absorb::<FromWorker>(seat);
    (sender, held)
}

// Takes in all answers that were sent.
fn drain<W: Work>(
    ring: &mut Consumer<Done<W>>,
    sender: &mut Producer<Done<W>>,
    mailbox: &mut Mailbox<W>,
)
    requires { IsPair sender.old ring.old }
    ensures { (more : List (Ticketed W)) × (received ring.old ++ more ≡ sent sender.old) × TakenIn W.request W.result_of mailbox.old more mailbox.new }
{
    ring.slots_beside(sender);
    while ring.cached_slots() > 0 {
        mailbox.answer(ring.pop_known());
    }
}

// Puts what a worker held where it belongs: an answer is taken in, and a job is left.
fn settle_held<W: Work>(held: Held<W>, mailbox: &mut Mailbox<W>, left: &mut Vec<Job<W>>)
    requires { vec_len left.old + length (jobs_in held) ≤ vec_capacity left.old }
    ensures answers { TakenIn W.request W.result_of mailbox.old (answers_in held) mailbox.new }
    ensures jobs { left.new.items ≡ left.old.items ++ jobs_in held }
    ensures len { vec_len left.new ≤ vec_len left.old + 1 }
    ensures room { vec_capacity left.new ≡ vec_capacity left.old }
{
    match held {
        Held::Nothing => {}
        Held::Job(job) => left.push_reserved(job),
        Held::Done(done) => {
            mailbox.answer(done);
        }
    }
}

// Pops what waits.
fn pop_rest<W: Work>(owner: &mut Owner<W>, left: &mut Vec<Job<W>>)
    requires owner { (worker_port owner.old ≡ 0) × (worker_flavor owner.old ≡ 0) × ((worker_view owner.old).out ≡ 0) }
    requires room { vec_len left.old + length (worker_view owner.old).put ≤ vec_capacity left.old + length (worker_view owner.old).taken }
    ensures put { (worker_view owner.new).put ≡ (worker_view owner.old).put }
    ensures rest { (waiting : List (Ticketed W)) × (left.new.items ≡ left.old.items ++ waiting) × IsPermutation (worker_view owner.old).put ((worker_view owner.old).taken ++ waiting) }
{
    while let Some(job) = owner.pop_as::<Leaves>() {
        left.push_reserved(job);
    }
}
