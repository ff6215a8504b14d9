//! A client's lane once all ends came together.
ghost use Rattle.std.specs.Prelude.{◌≡◌, ◌+◌, length, map, drop};
ghost use Rattle.crossbeam_deque.specs.Handles.{worker_view};
ghost use Rattle.box_core.specs.Mail.{accepted_in};
ghost use Rattle.lanes.specs.Accounts.{works_of, taken_of, all_true, kept_of, results_of};
ghost use Rattle.lanes.specs.Books.{ticket_of, work_of, CountsFrom, CountsFrom-prop};

use crate::book::Owner;
use box_core::{Answered, Done, Job, Mailbox, Reply, Work};
use std::marker::Model;

/// A client's end, once all ends are in one thread again: it gives the jobs that were left, takes their answers in, and
/// hands out the rest of the results. No call of it takes memory.
#[derive(Drop)]
pub struct Settled<W: Work> {
    // It knows what was put.
    pub(crate) owner: Owner<W>,
    pub(crate) mailbox: Mailbox<W>,
    pub(crate) left: Vec<Job<W>>,
    // What was put has the tickets from 0 on, and its last entries are the outstanding requests.
    ghost numbered: { CountsFrom ticket_of 0 (worker_view owner).put } by { CountsFrom-prop ticket_of 0 (worker_view owner).put },
    ghost count: { length (worker_view owner).put ≡ accepted_in mailbox },
    ghost works: { map work_of (drop mailbox.handed (worker_view owner).put) ≡ works_of mailbox.outstanding },
    // Each of these counts as taken, and an outcome that is kept is the result.
    ghost running: { taken_of mailbox.outstanding ≡ all_true mailbox.outstanding },
    ghost due: { kept_of W.request W.result_of mailbox.outstanding ≡ results_of W.request W.result_of mailbox.outstanding },
}

impl<W: Work> Model for Settled<W> {
    ghost use Rattle.crossbeam_deque.specs.Handles.{worker_view};
    ghost use Rattle.lanes.specs.Ends.{SettledEnd};
    ghost use Rattle.lanes.specs.Numbers.{counts};

    ghost Value = { SettledEnd W W.Out };

    ghost view = { λ settled. record { put = (worker_view settled.owner).put; mail = settled.mailbox; left = settled.left.items; numbered = counts _ settled.numbered; count = settled.count; works = settled.works; running = settled.running } };
}

impl<W: Work> Settled<W> {
    ghost use Rattle.std.specs.Prelude.{◌≡◌, ◌≢◌, ◌⊎◌, ◌↔◌, true, [], ◌∷◌, ◌++◌, Some, None, IfSome, IfNone, IsTrue, slice_get};
    ghost use Rattle.box_core.specs.Answer.{Ticketed};
    ghost use Rattle.box_core.specs.Mail.{accepted_in, status_in, next_in, with_kept, with_handed};
    ghost use Rattle.box_core.specs.Table.{AnswerReport};
    ghost use Rattle.box_core.specs.Views.{answered_report};
    ghost use Rattle.box_core.specs.declared.faults.Answered.TheVariants as answered;
    ghost use Rattle.lanes.specs.Accounts.{is_open};
    ghost use Rattle.lanes.specs.Rest.{put_in, mail_in, left_in};

    /// The next job that was left without an answer, until each was given once.
    pub fn next_left(&mut self) -> Option<Job<W>>
        ensures job { IfSome result (λ job. left_in self.old ≡ left_in self.new ++ job ∷ []) }
        ensures none { IfNone result ((left_in self.old ≡ []) × (left_in self.new ≡ [])) }
        ensures rest { (put_in self.new ≡ put_in self.old) × (mail_in self.new ≡ mail_in self.old) }
    {
        self.left.pop()
    }

    /// Takes in an answer, and says what became of it: one that is not kept is dropped and changes nothing.
    pub fn answer(&mut self, done: Done<W>) -> Answered
        ensures answered { AnswerReport W.request (status_in (mail_in self.old) done.ticket) done.work (answered_report {O = W.Out} result) }
        ensures kept { result ≡ answered.Kept → mail_in self.new ≡ with_kept (W.result_of (W.request done.work)) done.ticket (mail_in self.old) }
        ensures dropped { result ≢ answered.Kept → mail_in self.new ≡ mail_in self.old }
        ensures rest { (put_in self.new ≡ put_in self.old) × (left_in self.new ≡ left_in self.old) }
    {
        self.mailbox.answer(done)
    }

    /// Hands out the next result, in the order of the requests, if it is there.
    pub fn release(&mut self) -> Option<Reply<W>>
        ensures handed { IfSome result (λ reply. (next_in (mail_in self.old) ≡ Some reply.outcome) × (reply.ticket ≡ (mail_in self.old).handed) × (mail_in self.new ≡ with_handed (mail_in self.old))) }
        // The outcome is the result of the request that was put under the reply's ticket.
        ensures right { IfSome result (λ reply. (x : Ticketed W) → slice_get (put_in self.old) reply.ticket ≡ Some x → reply.outcome ≡ W.result_of (W.request x.work)) }
        // All were handed out, or the next one has no answer.
        ensures nothing { IfNone result (((mail_in self.old).handed ≡ accepted_in (mail_in self.old)) ⊎ (is_open (mail_in self.old) (mail_in self.old).handed ≡ true)) }
        ensures unchanged { IfNone result (mail_in self.new ≡ mail_in self.old) }
        ensures rest { (put_in self.new ≡ put_in self.old) × (left_in self.new ≡ left_in self.old) }
    {
        self.mailbox.release()
    }

    /// Whether each accepted request was handed its result.
    pub fn is_whole(&self) -> bool
        ensures { IsTrue result ↔ (accepted_in (mail_in self.now) ≡ (mail_in self.now).handed) }
    {
        self.mailbox.is_whole()
    }
}
