//! What a device gives, read by read, on its way from the thread that reads it ahead.
ghost use Rattle.std.specs.Prelude.{◌≡◌, ◌≤◌, vec_len, IfOk};

use rtrb::Protocol;
use std::alloc::{AllocError, Global};
use std::marker::{Brand, PhantomData};

/// The most bytes that are read at once.
const PIECE: usize = 65_536;

/// Room for the bytes of one read, and how many came.
#[derive(Drop)]
pub(crate) struct Piece {
    pub(crate) buffer: Vec<u8>,
    pub(crate) end: usize,
    ghost room: { vec_len buffer ≡ 65536 },
    ghost within: { end ≤ vec_len buffer },
}

impl Piece {
    /// Room to which nothing came.
    pub(crate) fn new(alloc: Global) -> Result<Piece, AllocError>
        ensures { IfOk result (λ piece. piece.end ≡ 0) }
    {
        Ok(Piece {
            buffer: vec![in alloc; 0; PIECE]?,
            end: 0,
        })
    }
}

/// What one read came to.
#[derive(Drop)]
pub(crate) enum Given {
    /// These bytes, of which there are some.
    Bytes(Piece),
    /// The end of the input.
    End,
    /// A fault.
    Fault,
}

/// All that a device gives, where it is known. A caller of `ReadAhead` that knows it picks it for its call.
pub trait Input {
    ghost use Rattle.std.specs.Prelude.{ℕ, List, Option};

    ghost input: { Option (List ℕ) };
}

impl Input for Brand {
    ghost use Rattle.std.specs.Prelude.{None};

    ghost input = { None };
}

/// What is handed over is what the device gives, in order.
pub(crate) struct Gives<J: Input> {
    of: PhantomData<J>,
}

impl<J: Input> Protocol<Given> for Gives<J> {
    ghost use Rattle.desk_lines.specs.Ahead.{Follows};

    ghost allows = { λ before given. Follows J.input before given };
}
