//! A client's end of its lane.
ghost use Rattle.std.specs.Prelude.{◌≡◌, ◌+◌, ◌≤◌, All, List, length, map, drop, vec_len};
ghost use Rattle.crossbeam_deque.specs.Handles.{worker_port, worker_view, worker_flavor};
ghost use Rattle.box_core.specs.Mail.{accepted_in};
ghost use Rattle.lanes.specs.Accounts.{works_of, taken_of, all_true, kept_of, results_of, kept_count, IsCredited, AreAccounted};
ghost use Rattle.lanes.specs.Books.{ticket_of, work_of, CountsFrom, CountsFrom-prop};
ghost use Rattle.lanes.specs.Joined.{received_of};

use crate::book::{Owner, Puts};
use crate::signals::Signals;
use box_core::{Done, Job, Mailbox, Refusal, Reply, Work};
use rtrb::Consumer;
use std::marker::Model;
use std::sync::Arc;

/// A client's end of its lane: it submits requests, and hands out their results in the order of the requests.
///
/// It belongs to one thread. The workers' ends may run in other threads meanwhile, and no call waits for them.
#[derive(Drop)]
pub struct Client<W: Work> {
    pub(crate) owner: Owner<W>,
    pub(crate) mailbox: Mailbox<W>,
    pub(crate) rings: Vec<Consumer<Done<W>>>,
    pub(crate) signals: Arc<Signals>,
    // Which lane it is, from 0 on.
    pub(crate) lane: u32,
    ghost owns: { (worker_port owner ≡ 0) × (worker_flavor owner ≡ 0) },
    // No pass has come back yet.
    ghost lent: { ((worker_view owner).out ≡ vec_len rings) × ((worker_view owner).taken ≡ []) },
    // What was put has the tickets from 0 on, and its last entries are the outstanding requests.
    ghost numbered: { CountsFrom ticket_of 0 (worker_view owner).put } by { CountsFrom-prop ticket_of 0 (worker_view owner).put },
    ghost count: { length (worker_view owner).put ≡ accepted_in mailbox },
    ghost works: { map work_of (drop mailbox.handed (worker_view owner).put) ≡ works_of mailbox.outstanding },
    // Each of these counts as taken, and an outcome that is kept is the result.
    ghost running: { taken_of mailbox.outstanding ≡ all_true mailbox.outstanding },
    ghost due: { kept_of W.request W.result_of mailbox.outstanding ≡ results_of W.request W.result_of mailbox.outstanding },
    // Each answer that came is credited, and nothing was kept without one.
    ghost credited: { All (IsCredited W.request (worker_view owner).put mailbox) (received_of rings.items) },
    ghost accounted: { AreAccounted (worker_view owner).put mailbox (received_of rings.items) },
    ghost few: { mailbox.handed + kept_count mailbox.outstanding ≤ length (received_of rings.items) },
}

impl<W: Work> Model for Client<W> {
    ghost use Rattle.std.specs.Prelude.{map};
    ghost use Rattle.crossbeam_deque.specs.Handles.{worker_deque, worker_view};
    ghost use Rattle.rtrb.specs.Ring.{received};
    ghost use Rattle.lanes.specs.Ends.{ClientEnd};
    ghost use Rattle.lanes.specs.Identities.{links_of};
    ghost use Rattle.lanes.specs.Numbers.{counts};

    ghost Value = { ClientEnd W W.Out };

    ghost view = { λ client. record { put = (worker_view client.owner).put; came = map (λ ring. received ring) client.rings.items; mail = client.mailbox; links = links_of (worker_deque client.owner) client.rings.items; numbered = counts _ client.numbered; count = client.count; works = client.works } };
}

impl<W: Work> Client<W> {
    ghost use Rattle.std.specs.Prelude.{◌≡◌, ◌≢◌, true, ◌+◌, ◌⊎◌, ◌↔◌, not, List, [], ◌∷◌, ◌++◌, length, Some, None, IfOk, IfErr, OnErr, OnOk, IsTrue, IfSome, slice_get};
    ghost use Rattle.std.specs.Arc.{arc_value};
    ghost use Rattle.box_core.specs.Mail.{accepted_in, refusal_in, resize_refusal_in, with_request, with_close, with_capacity};
    ghost use Rattle.lanes.specs.Clients.{put_of, mail_of, came_to, client_links, reply_of};
    ghost use Rattle.lanes.specs.Polls.{Polls};
    ghost use Rattle.box_core.specs.Answer.{Ticketed};

    /// Puts a request for the workers, and gives its ticket. It is refused by the first that applies of `Closed`,
    /// `Full`, `Spent` and `Memory`, and a refused work comes back.
    pub fn submit(&mut self, work: Arc<W>) -> Result<u64, (Refusal, Arc<W>)>
        ensures same { client_links self.new ≡ client_links self.old }
        ensures put { IfOk result (λ ticket. (ticket ≡ length (put_of self.old)) × (put_of self.new ≡ put_of self.old ++ record { ticket = ticket; work = arc_value work } ∷ [])) }
        ensures accepted { OnOk result (mail_of self.new ≡ with_request (arc_value work) true (mail_of self.old)) }
        ensures admitted { OnOk result (refusal_in (mail_of self.old) ≡ None) }
        ensures refused { IfErr result (λ refused. (refusal_in (mail_of self.old) ≡ Some refused.0) ⊎ ((refusal_in (mail_of self.old) ≡ None) × (refused.0 ≡ Refusal.Memory))) }
        ensures back { IfErr result (λ refused. refused.1 ≡ work) }
        ensures unchanged { OnErr result ((put_of self.new ≡ put_of self.old) × (mail_of self.new ≡ mail_of self.old)) }
        ensures came { came_to self.new ≡ came_to self.old }
    {
        match self.mailbox.admits() {
            Ok(()) => {}
            Err(why) => {
                self.signals.go_away();
                return Err((why, work));
            }
        }
        let Ok(copy) = Arc::try_clone(&work) else {
            return Err((Refusal::Memory, work));
        };
        let job = Job::of(self.mailbox.accepted(), copy);
        match self.owner.push_as::<Puts>(job) {
            Ok(()) => {
                self.signals.mark(self.lane);
                self.signals.add_job();
                Ok(accept(&mut self.mailbox, work))
            }
            Err(_) => Err((Refusal::Memory, work)),
        }
    }

    /// Takes in answers that came out of its rings, then hands out the next result if its answer came by then. It takes no
    /// memory. No clause says how many answers it takes in: these are all that it sees in its rings, but where each request
    /// was handed its result it looks into none.
    pub fn poll(&mut self) -> Option<Reply<W>>
        ensures same { client_links self.new ≡ client_links self.old }
        ensures put { put_of self.new ≡ put_of self.old }
        ensures polls { Polls W.request W.result_of (came_to self.old) (came_to self.new) (mail_of self.old) (mail_of self.new) (reply_of result) }
        // The outcome is the result of the request that was put under the reply's ticket.
        ensures right { IfSome result (λ reply. (x : Ticketed W) → slice_get (put_of self.old) reply.ticket ≡ Some x → reply.outcome ≡ W.result_of (W.request x.work)) }
    {
        let came = take_in_rings(&mut self.rings, &mut self.mailbox);
        self.signals.take_answers(self.lane, came);
        self.mailbox.release()
    }

    /// Closes the end for further requests, and answers whether it was open.
    pub fn close(&mut self) -> bool
        ensures same { client_links self.new ≡ client_links self.old }
        ensures open { result ≡ not (mail_of self.old).closed }
        ensures closed { mail_of self.new ≡ with_close (mail_of self.old) }
        ensures books { (put_of self.new ≡ put_of self.old) × (came_to self.new ≡ came_to self.old) }
    {
        self.mailbox.close()
    }

    /// Changes how many requests may be outstanding, and nothing else. It is refused by the first that applies of
    /// `Closed`, `Capacity`, `Small` and `Memory`.
    pub fn resize(&mut self, capacity: u32) -> Result<(), Refusal>
        ensures same { client_links self.new ≡ client_links self.old }
        ensures resized { OnOk result ((resize_refusal_in (mail_of self.old) capacity ≡ None) × (mail_of self.new ≡ with_capacity capacity (mail_of self.old))) }
        ensures refused { IfErr result (λ why. (resize_refusal_in (mail_of self.old) capacity ≡ Some why) ⊎ ((resize_refusal_in (mail_of self.old) capacity ≡ None) × (capacity ≢ (mail_of self.old).capacity) × (why ≡ Refusal.Memory))) }
        ensures unchanged { OnErr result (mail_of self.new ≡ mail_of self.old) }
        ensures books { (put_of self.new ≡ put_of self.old) × (came_to self.new ≡ came_to self.old) }
    {
        self.mailbox.resize(capacity)
    }

    /// What wakes the threads of all lanes.
    pub fn signals(&self) -> &Signals {
        &self.signals
    }

    /// How many requests were accepted, which is also the next ticket.
    pub fn accepted(&self) -> u64
        ensures { result ≡ accepted_in (mail_of self.now) }
    {
        self.mailbox.accepted()
    }

    /// How many results were handed out, which is also the ticket that is handed out next.
    pub fn handed(&self) -> u64
        ensures { result ≡ (mail_of self.now).handed }
    {
        self.mailbox.handed()
    }

    /// Whether the end is closed for further requests.
    pub fn is_closed(&self) -> bool
        ensures { result ≡ (mail_of self.now).closed }
    {
        self.mailbox.is_closed()
    }

    /// Whether each accepted request was handed its result.
    pub fn is_whole(&self) -> bool
        ensures { IsTrue result ↔ (accepted_in (mail_of self.now) ≡ (mail_of self.now).handed) }
    {
        self.mailbox.is_whole()
    }
}

ghost use Rattle.std.specs.Prelude.{None, true, ◌<◌, ◌∷◌, ◌++◌, [], IsPermutation};
ghost use Rattle.std.specs.Arc.{arc_value};
ghost use Rattle.box_core.specs.Mail.{refusal_in, with_request};
ghost use Rattle.box_core.specs.Answer.{Ticketed};
ghost use Rattle.rtrb.specs.Ring.{received, SameConsumer};
ghost use Rattle.lanes.specs.Polls.{TakenIn};
ghost use Rattle.lanes.specs.Identities.{ring_links};

// Accepts a request that is not refused.
fn accept<W: Work>(mailbox: &mut Mailbox<W>, work: Arc<W>) -> u64
    requires { refusal_in mailbox.old ≡ None }
    ensures { (result ≡ accepted_in mailbox.old) × (mailbox.new ≡ with_request (arc_value work) true mailbox.old) }
{
    match mailbox.admit(work) {
        Ok(ticket) => ticket,
        Err(_) => unreachable!(),
    }
}

// Takes in the answers that are in a ring, and tells how many there were. One whose ticket was not accepted would stay there,
// with those behind it.
fn take_in_ring<W: Work>(ring: &mut Consumer<Done<W>>, mailbox: &mut Mailbox<W>) -> usize
    ensures ring { SameConsumer ring.old ring.new }
    ensures taken { (more : List (Ticketed W)) × (received ring.new ≡ received ring.old ++ more) × TakenIn W.request W.result_of mailbox.old more mailbox.new × All (λ x. x.ticket < accepted_in mailbox.old) more }
    ensures count { accepted_in mailbox.new ≡ accepted_in mailbox.old }
{
    let there = ring.slots();
    while ring.cached_slots() > 0 {
        if ring.peek_known().ticket() >= mailbox.accepted() {
            return there;
        }
        mailbox.answer(ring.pop_known());
    }
    there
}

// Takes in the answers that are in the rings, and tells how many there were. Where no request is outstanding there is none that
// can be kept.
fn take_in_rings<W: Work>(rings: &mut Vec<Consumer<Done<W>>>, mailbox: &mut Mailbox<W>) -> usize
    ensures rings { (vec_len rings.new ≡ vec_len rings.old) × (ring_links rings.new.items ≡ ring_links rings.old.items) }
    ensures taken { (more : List (Ticketed W)) × IsPermutation (received_of rings.new.items) (more ++ received_of rings.old.items) × TakenIn W.request W.result_of mailbox.old more mailbox.new × All (λ x. x.ticket < accepted_in mailbox.old) more }
{
    if mailbox.is_whole() {
        return 0;
    }
    let mut there: usize = 0;
    for index in 0..rings.len() {
        there = there.wrapping_add(take_in_ring(&mut rings[index], mailbox));
    }
    there
}
