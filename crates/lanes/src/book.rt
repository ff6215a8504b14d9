//! What a pass of a lane's deque knows, and the rule that the deque keeps. No value of a book is made.
use box_core::Job;
use crossbeam_deque::protocol::{Join, Lesson, Outcome, Protocol, Split};
use crossbeam_deque::{Pass, Stealer, Worker};
use std::alloc::Global;
use std::collections::LinkedList;

/// The client's side of a lane's deque.
pub type Owner<W> = Worker<Job<W>, Global, Book<Job<W>>, Carriage>;

/// A worker's side of a lane's deque.
pub type Thief<W> = Stealer<Job<W>, Global, Book<Job<W>>, Carriage>;

/// What a worker knows of a lane's deque.
pub type Seat<W> = Pass<Job<W>, Book<Job<W>>>;

/// The book of one pass.
pub struct Book<T> {
    /// Whether it still takes part: 1, or 0.
    pub live: u64,
    /// How many passes were split off it and not yet joined.
    pub out: u64,
    /// What it put.
    pub put: LinkedList<T>,
    /// What it took.
    pub taken: LinkedList<T>,
}

/// The rule of a lane's deque.
pub struct Carriage;

impl<W: Drop> Protocol<Job<W>, Book<Job<W>>> for Carriage {
    ghost use Rattle.std.specs.Prelude.{[]};
    ghost use Rattle.lanes.specs.Books.{ticket_of};
    ghost use Rattle.lanes.specs.Books.{book, IsCarried};

    ghost holds = { IsCarried ticket_of };

    ghost first = { book 1 0 [] [] };

    ghost guest = { book 0 0 [] [] };
}

/// The owner splits a pass off for a worker.
pub struct ForWorker;

impl<W: Drop> Split<Book<Job<W>>> for ForWorker {
    ghost use Rattle.std.specs.Prelude.{[], ◌+◌};
    ghost use Rattle.lanes.specs.Books.{book};

    ghost left = { λ v. book v.live (v.out + 1) v.put v.taken };

    ghost right = { λ v. book 1 0 [] [] };
}

/// The owner takes a worker's pass in.
pub struct FromWorker;

impl<W: Drop> Join<Book<Job<W>>> for FromWorker {
    ghost use Rattle.std.specs.Prelude.{[], ◌-◌, ◌++◌};
    ghost use Rattle.lanes.specs.Books.{book};

    ghost both = { λ v w. book v.live (v.out - 1) v.put (v.taken ++ w.taken) };

    ghost spent = { book 0 0 [] [] };
}

/// The owner's push.
pub struct Puts;

impl<W: Drop> Outcome<Job<W>, Book<Job<W>>> for Puts {
    ghost use Rattle.std.specs.Prelude.{◌≡◌, ◌++◌};
    ghost use Rattle.lanes.specs.Books.{book};

    ghost then = { λ v xs w. w ≡ book v.live v.out (v.put ++ xs) v.taken };
}

/// A steal: the job joins what was taken, and the tickets of these rise.
pub struct Steals;

impl<W: Drop> Outcome<Job<W>, Book<Job<W>>> for Steals {
    ghost use Rattle.lanes.specs.Books.{ticket_of, TakesLast};

    ghost then = { TakesLast ticket_of };
}

/// The owner's pop. Where no pass is out, it ends when all that was put was taken.
pub struct Leaves;

impl<W: Drop> Outcome<Job<W>, Book<Job<W>>> for Leaves {
    ghost use Rattle.lanes.specs.Books.{LeavesLast, IsAllTaken};

    ghost then = { LeavesLast };

    ghost empty = { IsAllTaken };
}
