//! The thread that reads a device ahead.
ghost use Rattle.std.specs.Prelude.{◌≡◌, [], ◌∷◌, ◌++◌};
ghost use Rattle.std.specs.Io.KnownBytes.{Consumes};
ghost use Rattle.rtrb.specs.Ring.{sent};
ghost use Rattle.desk_lines.specs.Ahead.{bytes_in, Comes, Follows, Reaches};

use crate::given::{Given, Gives, Input, Piece};
use bell::{Bell, FrontBell};
use rtrb::{Consumer, Producer, PushError};
use std::alloc::Global;
use std::io::Read;
use std::sync::{Arc, Wait};
use std::thread;

/// The longest sleep in milliseconds. No wake-up is lost, as `Bell` says; this bounds what it would cost.
pub(crate) const LONGEST_SLEEP: u64 = 1_000;

/// What the reading thread has of the rings.
#[derive(Drop)]
pub(crate) struct ReadingEnd<J: Input> {
    pub(crate) given: Producer<Given, Global, Gives<J>>,
    pub(crate) free: Consumer<Piece>,
    pub(crate) begin: Consumer<Arc<FrontBell>>,
    /// Rung for each piece that comes free, and once it is to begin.
    pub(crate) more: Arc<Bell>,
}

/// What the next read of a device comes to.
fn read_piece<D: Read>(device: &mut D, piece: Piece) -> Given
    ensures taken { Consumes (D.remaining device.old) (D.remaining device.new) (bytes_in result) }
    ensures comes { Comes (D.remaining device.old) [] result }
{
    let mut piece = piece;
    match device.read(piece.buffer.as_mut_slice()) {
        Ok(0) => Given::End,
        Ok(n) => {
            piece.end = n;
            Given::Bytes(piece)
        }
        Err(_) => Given::Fault,
    }
}

/// Hands over what was given. There is room: for each piece a place, and one for the end.
fn put<R: Wait, J: Input>(rt: &R, ring: &mut Producer<Given, Global, Gives<J>>, given: Given)
    requires { Follows J.input (sent ring.old) given }
    ensures { sent ring.new ≡ sent ring.old ++ given ∷ [] }
{
    let mut item = given;
    for _ in rt.forever() {
        match ring.push(item) {
            Ok(()) => return,
            Err(PushError::Full(back)) => item = back,
        }
        thread::yield_now();
    }
    unreachable!()
}

/// What comes next through a ring, for which it waits; nothing once the other end is gone.
fn wait_for<R: Wait, T: Drop>(rt: &R, more: &Bell, ring: &mut Consumer<T>) -> Option<T> {
    for _ in rt.forever() {
        let seen = more.count();
        if let Ok(item) = ring.pop() {
            return Some(item);
        }
        if ring.is_abandoned() {
            return None;
        }
        more.add_sleeper();
        more.sleep(rt, seen, LONGEST_SLEEP);
    }
    unreachable!()
}

/// Reads a device to its end or its first fault, and calls the front after each read.
#[tactic(auto, using(crate::proofs::Reaching::follows_there, crate::proofs::Reaching::reaches_more))]
fn read_to_end<R: Wait, D: Read + Drop, J: Input>(
    rt: &R,
    device: D,
    front: &FrontBell,
    end: ReadingEnd<J>,
)
    requires { Reaches J.input (D.remaining device) (sent end.given) }
{
    let mut device = device;
    let ReadingEnd {
        mut given,
        mut free,
        begin: _,
        more,
    } = end;
    for _ in rt.forever() {
        let Some(piece) = wait_for(rt, &more, &mut free) else {
            return;
        };
        let next = read_piece(&mut device, piece);
        let is_last = !matches!(next, Given::Bytes(_));
        put(rt, &mut given, next);
        front.call();
        if is_last {
            return;
        }
    }
}

/// Reads a device ahead once it is given a bell.
pub(crate) fn read_once_begun<R: Wait, D: Read + Drop, J: Input>(
    rt: &R,
    device: D,
    end: ReadingEnd<J>,
)
    requires { Reaches J.input (D.remaining device) (sent end.given) }
{
    let mut end = end;
    if let Some(front) = wait_for(rt, &end.more, &mut end.begin) {
        read_to_end(rt, device, &front, end);
    }
}
