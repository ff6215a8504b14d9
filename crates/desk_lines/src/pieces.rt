//! What was read ahead, as its reader takes it.
ghost use Rattle.std.specs.Prelude.{◌≡◌, ◌<◌, ◌∷◌, [], ◌++◌, length, false, IfOk, IsTrue};
ghost use Rattle.std.specs.Io.{ReadsAtMost};
ghost use Rattle.std.specs.Io.KnownBytes.{IsAtEnd, ReadConsumes};
ghost use Rattle.rtrb.specs.Ring.{received, sent};
ghost use Rattle.desk_lines.specs.Ahead.{Follows, Reaches};
ghost use Rattle.desk_lines.specs.Stretch.{remaining_of};

use crate::given::{Given, Gives, Input, Piece};
use crate::reading::{LONGEST_SLEEP, ReadingEnd, read_once_begun};
use crate::stands::Stands;
use bell::{Bell, FrontBell};
use rtrb::{Consumer, Producer, RingBuffer};
use std::alloc::{AllocError, Global};
use std::io::{self, ErrorKind, Read};
use std::marker::Model;
use std::sync::{Arc, Wait};
use std::thread::Threads;
use std::{mem, thread};

/// How many pieces may be read ahead.
const PIECES: usize = 31;

/// What a reading thread hands over. Contracts see what is left.
#[derive(Drop)]
pub(crate) struct Pieces<J: Input> {
    given: Consumer<Given, Global, Gives<J>>,
    free: Producer<Piece>,
    begin: Producer<Arc<FrontBell>>,
    // What wakes the reading thread, and what wakes this one.
    more: Arc<Bell>,
    front: Arc<FrontBell>,
    // The piece that came last, and where what is left of it begins.
    piece: Piece,
    at: usize,
    stands: Stands,
}

impl<J: Input> Model for Pieces<J> {
    ghost use Rattle.std.specs.Prelude.{◌≤◌, slice_range};
    ghost use Rattle.rtrb.specs.Ring.{received};
    ghost use Rattle.desk_lines.specs.Ahead.{bytes_of};
    ghost use Rattle.desk_lines.specs.Stretch.{Stretch, left_after, IsEnded};

    ghost Value = { Stretch };

    ghost view = { λ p. record { waiting = slice_range p.piece.buffer.items p.at p.piece.end; left = left_after J.input (bytes_of (received p.given)); stands = p.stands } };

    ghost invariant = { λ p. (p.at ≤ p.piece.end) × IsEnded p.stands (left_after J.input (bytes_of (received p.given))) };
}

/// What comes next. Where nothing is there yet, it sleeps.
fn next_given<R: Wait, J: Input>(
    rt: &R,
    front: &FrontBell,
    ring: &mut Consumer<Given, Global, Gives<J>>,
) -> Given
    ensures received { received ring.new ≡ received ring.old ++ result ∷ [] }
    ensures follows { Follows J.input (received ring.old) result }
{
    for _ in rt.forever() {
        let seen = front.answers().count();
        if let Ok(given) = ring.pop() {
            return given;
        }
        front.sleep(rt, seen, LONGEST_SLEEP);
    }
    unreachable!()
}

/// Makes room for what is read ahead.
fn make_room(alloc: Global, free: &mut Producer<Piece>) -> Result<(), AllocError> {
    for _ in 0..PIECES {
        let _ = free.push(Piece::new(alloc)?);
    }
    Ok(())
}

impl<J: Input + Send + 'static> Pieces<J> {
    /// Starts a thread that reads the device once it is to begin, and drops its handle: nobody waits for its end.
    #[tactic(auto, using(crate::proofs::Reaching::reaches_start, crate::proofs::Left::whole_left))]
    pub(crate) fn start<R: Threads + Wait + Copy + Send + 'static, D: Read + Drop + Send + 'static>(
        rt: &R,
        alloc: Global,
        device: D,
    ) -> Result<Self, AllocError>
        requires { D.remaining device ≡ J.input }
        ensures { IfOk result (λ pieces. remaining_of pieces ≡ J.input) }
    {
        let piece = Piece::new(alloc)?;
        let front = Arc::new(alloc, FrontBell::new())?;
        let more = Arc::new(alloc, Bell::new())?;
        let theirs = Arc::try_clone(&more)?;
        let (free, their_free) = RingBuffer::new(alloc, PIECES + 1)?;
        let (begin, their_begin) = RingBuffer::new(alloc, 1)?;
        let (producer, given) = RingBuffer::with_protocol::<Global, Gives<J>>(alloc, PIECES + 2)?;
        let end = ReadingEnd {
            given: producer,
            free: their_free,
            begin: their_begin,
            more: theirs,
        };
        let own = *rt;
        let handle = thread::spawn(
            rt,
            move ||
                requires { Reaches J.input (D.remaining device) (sent end.given) }
            { read_once_begun(&own, device, end) },
        )?;
        drop(handle);
        Ok(Pieces {
            given,
            free,
            begin,
            more,
            front,
            piece,
            at: 0,
            stands: Stands::Reads,
        })
    }
}

impl<J: Input> Pieces<J> {
    /// The thread begins to read, and rings this bell.
    pub(crate) fn begin(&mut self, alloc: Global, front: &Arc<FrontBell>) -> Result<(), AllocError>
        ensures { self.new ≡ self.old }
    {
        make_room(alloc, &mut self.free)?;
        self.front = Arc::try_clone(front)?;
        let _ = self.begin.push(Arc::try_clone(front)?);
        self.more.add();
        self.more.wake_one();
        Ok(())
    }

    /// Whether some of the last piece is left.
    #[tactic(auto, using(crate::proofs::Left::none_waits, crate::proofs::Left::some_waits))]
    fn has_bytes(&self) -> bool
        ensures some { IsTrue result → 0 < length self.now.waiting }
        ensures none { result ≡ false → self.now.waiting ≡ [] }
    {
        self.at < self.piece.end
    }

    /// Whether a read would answer at once.
    pub(crate) fn is_at_hand(&mut self) -> bool
        ensures { self.new ≡ self.old }
    {
        if self.has_bytes() {
            return true;
        }
        if !matches!(self.stands, Stands::Reads) {
            return true;
        }
        !self.given.is_empty()
    }

    /// Takes the next piece, where nothing is left of the last. At the end there is none.
    #[tactic(auto, using(crate::proofs::Left::refilled, crate::proofs::Left::ended_there, crate::proofs::Left::none_left))]
    fn refill<R: Wait>(&mut self, rt: &R) -> io::Result<bool>
        requires nothing_waits { self.old.waiting ≡ [] }
        ensures same { remaining_of self.new ≡ remaining_of self.old }
        ensures some { IfOk result (λ more. IsTrue more → 0 < length self.new.waiting) }
        ensures end { IfOk result (λ more. more ≡ false → IsAtEnd (remaining_of self.new)) }
    {
        if matches!(self.stands, Stands::Failed) {
            return Err(io::Error::from(ErrorKind::Other));
        }
        if matches!(self.stands, Stands::AtEnd) {
            return Ok(false);
        }
        match next_given(rt, &self.front, &mut self.given) {
            Given::Bytes(piece) => {
                self.stands = Stands::Reads;
                self.at = 0;
                let read = mem::replace(&mut self.piece, piece);
                let _ = self.free.push(read);
                self.more.add();
                self.more.wake_one();
                Ok(true)
            }
            Given::End => {
                self.stands = Stands::AtEnd;
                Ok(false)
            }
            Given::Fault => {
                self.stands = Stands::Failed;
                Err(io::Error::from(ErrorKind::Other))
            }
        }
    }

    /// Reads of the last piece, of which some is left.
    #[tactic(auto, using(crate::proofs::Left::takes, crate::proofs::Left::kept))]
    fn take(&mut self, buf: &mut [u8]) -> io::Result<usize>
        requires some { 0 < length self.old.waiting }
        ensures bound { ReadsAtMost result buf.new }
        ensures bytes { ReadConsumes (remaining_of self.old) (remaining_of self.new) result buf.new }
    {
        let mut rest = &self.piece.buffer[self.at..self.piece.end];
        match rest.read(buf) {
            Ok(n) => {
                self.at += n;
                Ok(n)
            }
            Err(fault) => Err(fault),
        }
    }

    /// Reads as `std::io::Read::read` does. After a fault it fails, and after the end it reads nothing.
    #[tactic(auto, using(crate::proofs::Left::kept, crate::proofs::Left::none_taken))]
    pub(crate) fn read<R: Wait>(&mut self, rt: &R, buf: &mut [u8]) -> io::Result<usize>
        ensures bound { ReadsAtMost result buf.new }
        ensures bytes { ReadConsumes (remaining_of self.old) (remaining_of self.new) result buf.new }
    {
        if self.has_bytes() {
            return self.take(buf);
        }
        match self.refill(rt) {
            Ok(true) => self.take(buf),
            Ok(false) => Ok(0),
            Err(fault) => Err(fault),
        }
    }
}
