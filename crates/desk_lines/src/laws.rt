//! What holds of a device that is read ahead, from its first byte to its end.
ghost use Rattle.std.specs.Prelude.{◌≡◌, ◌++◌, ℕ, List, OnOk, IfSome};
ghost use Rattle.std.specs.Io.KnownBytes.{Consumes, IsAtEnd};

use crate::device::Source;
use crate::given::Input;
use crate::read_ahead::ReadAhead;
use bell::FrontBell;
use std::alloc::Global;
use std::io::{self, ErrorKind, Read};
use std::marker::Brand;
use std::sync::{Arc, Wait};
use std::thread::Threads;

/// Appends what reads give, to the end.
fn read_out<R: Source>(reader: &mut R, into: &mut Vec<u8>) -> io::Result<()>
    ensures { OnOk result ((bytes : List ℕ) × Consumes (R.seen reader.old).remaining (R.seen reader.new).remaining bytes
        × IsAtEnd (R.seen reader.new).remaining × (into.new.items ≡ into.old.items ++ bytes)) }
{
    let mut piece = [0u8; 4096];
    for _ in 0..u64::MAX {
        let n = reader.read(&mut piece)?;
        if n == 0 {
            return Ok(());
        }
        into.extend_from_slice(&piece[..n])?;
    }
    Err(io::Error::from(ErrorKind::Other))
}

/// The same of a device that is read ahead.
fn read_all_by<
    J: Input + Send + 'static,
    R: Threads + Wait + Copy + Send + 'static,
    D: Read + Copy + Drop + Send + 'static,
>(rt: R, alloc: Global, device: D, bell: &Arc<FrontBell>, into: &mut Vec<u8>) -> io::Result<()>
    requires { D.remaining device ≡ J.input }
    ensures { OnOk result (IfSome (D.remaining device) (λ all. into.new.items ≡ into.old.items ++ all)) }
{
    let mut reader = ReadAhead::<D, R, J>::new(rt, alloc, device, true);
    reader.ring(bell);
    read_out(&mut reader, into)
}

/// Reads a device ahead to its end, and appends what it gave: all of it, in order, and nothing else.
pub fn read_all<R: Threads + Wait + Copy + Send + 'static, D: Read + Copy + Drop + Send + 'static>(
    rt: R,
    alloc: Global,
    device: D,
    bell: &Arc<FrontBell>,
    into: &mut Vec<u8>,
) -> io::Result<()>
    ensures { OnOk result (IfSome (D.remaining device) (λ all. into.new.items ≡ into.old.items ++ all)) }
{
    read_all_by::<Brand, R, D>(rt, alloc, device, bell, into)
}
