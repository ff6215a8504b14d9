//! A device that a thread of its own reads ahead.
ghost use Rattle.std.specs.Prelude.{◌≡◌, IfSome};
ghost use Rattle.desk_lines.specs.Stretch.{remaining_of};

use crate::device::{Counted, Source};
use crate::given::Input;
use crate::pieces::Pieces;
use bell::FrontBell;
use std::alloc::Global;
use std::io::{self, Read};
use std::marker::Model;
use std::sync::{Arc, Wait};
use std::thread::Threads;

/// A device, and what was read of it ahead. Contracts see the bytes that are left.
#[derive(Drop)]
pub(crate) struct Device<D: Read, R, J: Input> {
    rt: R,
    device: D,
    // Whether nothing was read of it.
    is_fresh: bool,
    // The thread that may read it, until it is to begin, and from then on.
    waiting: Option<Pieces<J>>,
    begun: Option<Pieces<J>>,
}

impl<D: Read, R, J: Input> Model for Device<D, R, J> {
    ghost use Rattle.std.specs.Prelude.{◌≡◌, ℕ, List, Option, None, IsTrue, IfSome};
    ghost use Rattle.desk_lines.specs.Stretch.{left_of, remaining_of};

    ghost Value = { Option (List ℕ) };

    ghost view = { λ d. left_of (D.remaining d.device) d.begun };

    ghost invariant = { λ d. IfSome d.waiting (λ pieces. remaining_of pieces ≡ J.input)
        × (IsTrue d.is_fresh → (D.remaining d.device ≡ J.input) × (d.begun ≡ None)) };
}

impl<D: Read, R: Wait, J: Input> Read for Device<D, R, J> {
    ghost remaining = { λ left. left };

    fn read(&mut self, buf: &mut [u8]) -> io::Result<usize> {
        self.is_fresh = false;
        if let Some(pieces) = &mut self.begun {
            return pieces.read(&self.rt, buf);
        }
        self.device.read(buf)
    }
}

/// A thread that waits to read the device, where one is wanted, and there are memory and a thread for it.
fn waiting_pieces<
    D: Read + Drop + Send + 'static,
    R: Threads + Wait + Copy + Send + 'static,
    J: Input + Send + 'static,
>(rt: &R, alloc: Global, device: D, is_wanted: bool) -> Option<Pieces<J>>
    requires { D.remaining device ≡ J.input }
    ensures { IfSome result (λ pieces. remaining_of pieces ≡ J.input) }
{
    if !is_wanted {
        return None;
    }
    match Pieces::<J>::start(rt, alloc, device) {
        Ok(pieces) => Some(pieces),
        Err(_) => None,
    }
}

impl<D: Read, R, J: Input> Device<D, R, J> {
    /// Has the thread begin, if one waits and nothing was read so far.
    fn begin(&mut self, alloc: Global, front: &Arc<FrontBell>)
        ensures { self.new ≡ self.old }
    {
        if !self.is_fresh {
            return;
        }
        let Some(mut pieces) = self.waiting.take() else {
            return;
        };
        if pieces.begin(alloc, front).is_err() {
            return;
        }
        self.is_fresh = false;
        self.begun = Some(pieces);
    }
}

impl<D: Read, R, J: Input> Device<D, R, J> {
    /// Whether a read would answer at once, where that is known.
    fn at_hand(&mut self) -> Option<bool>
        ensures { self.new ≡ self.old }
    {
        if let Some(pieces) = &mut self.begun {
            return Some(pieces.is_at_hand());
        }
        None
    }
}

/// A reader that counts its faults and, from when it is given a bell on, reads its device ahead in a thread of its own. That is
/// not joined. Without memory or a thread for that it reads on as any other.
#[derive(Drop)]
pub struct ReadAhead<D: Read, R, J: Input> {
    alloc: Global,
    counted: Counted<Device<D, R, J>>,
}

impl<
    D: Read + Copy + Drop + Send + 'static,
    R: Threads + Wait + Copy + Send + 'static,
    J: Input + Send + 'static,
> ReadAhead<D, R, J> {
    ghost use Rattle.std.specs.Prelude.{◌≡◌};
    ghost use Rattle.desk_lines.specs.Seen.{seen_of};

    /// The device with nothing read yet. Where it is not to be read ahead, no thread is made.
    pub fn new(rt: R, alloc: Global, device: D, is_ahead: bool) -> Self
        requires { D.remaining device ≡ J.input }
        ensures { seen_of result ≡ record { remaining = D.remaining device; faults = 0; came = 0 } }
    {
        let waiting = waiting_pieces::<D, R, J>(&rt, alloc, device, is_ahead);
        let device = Device {
            rt,
            device,
            is_fresh: true,
            waiting,
            begun: None,
        };
        ReadAhead {
            alloc,
            counted: Counted::new(device),
        }
    }
}

impl<D: Read, R: Wait, J: Input> Source for ReadAhead<D, R, J> {
    ghost use Rattle.desk_lines.specs.Seen.{seen_of};

    ghost seen = { seen_of };

    fn read(&mut self, buf: &mut [u8]) -> io::Result<usize> {
        self.counted.read(buf)
    }

    fn failures(&self) -> u64 {
        self.counted.failures()
    }

    fn ring(&mut self, bell: &Arc<FrontBell>) {
        self.counted.inner.begin(self.alloc, bell);
    }

    fn at_hand(&mut self) -> Option<bool> {
        self.counted.inner.at_hand()
    }
}
