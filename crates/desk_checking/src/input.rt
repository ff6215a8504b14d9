//! A whole input.
ghost use Rattle.std.specs.Prelude.{◌≡◌, ◌≢◌, ◌++◌, ◌<◌, ◌≤◌, ◌-◌, ◌^◌, take, length, vec_len, Err, OnOk, IfOk, IfErr};
ghost use Rattle.std.specs.Io.KnownBytes.{Consumes, IsAtEnd};
ghost use Rattle.desk_checking.specs.Checked.{Overflows};
ghost use Rattle.desk_checking.specs.Input.{most_bytes};

use desk_lines::{FrontFault, Source};
use std::alloc::{AllocError, Global};

/// The most bytes of a model that is checked: 64 MiB.
const MOST_BYTES: usize = 1 << 26;

/// The most bytes that are read at once.
const PIECE: usize = 65_536;

/// Reads a piece to the front of the buffer.
fn read_piece<R: Source>(reader: &mut R, buffer: &mut [u8]) -> Result<usize, FrontFault>
    requires counts { (R.seen reader.old).faults < 2 ^ 64 - 1 }
    ensures bound { IfOk result (λ n. n ≤ length buffer.new) }
    ensures len { length buffer.new ≡ length buffer.old }
    ensures bytes { IfOk result (λ n.
        Consumes (R.seen reader.old).remaining (R.seen reader.new).remaining (take n buffer.new)) }
    ensures end { IfOk result (λ n. n ≡ 0 → 0 < length buffer.new → IsAtEnd (R.seen reader.new).remaining) }
    ensures fault { IfErr result (λ e. (e ≡ FrontFault.Read) × ((R.seen reader.old).faults < (R.seen reader.new).faults)) }
    ensures counts { OnOk result ((R.seen reader.new).faults ≡ (R.seen reader.old).faults) }
{
    match reader.read(buffer) {
        Ok(n) => Ok(n),
        Err(_) => Err(FrontFault::Read),
    }
}

/// Adds a piece at the end.
fn add(text: &mut Vec<u8>, piece: &[u8]) -> Result<(), AllocError>
    ensures { OnOk result (text.new.items ≡ text.old.items ++ piece.now) }
{
    text.extend_from_slice(piece)?;
    Ok(())
}

/// All bytes of the reader, at most 64 MiB: `Long` once more came.
pub(crate) fn read_whole<R: Source>(alloc: Global, reader: &mut R) -> Result<Vec<u8>, FrontFault>
    requires counts { (R.seen reader.old).faults < 2 ^ 64 - 1 }
    ensures whole { IfOk result (λ v.
        Consumes (R.seen reader.old).remaining (R.seen reader.new).remaining v.items
        × IsAtEnd (R.seen reader.new).remaining) }
    ensures small { IfOk result (λ v. vec_len v ≤ most_bytes) }
    ensures long { (result ≡ Err FrontFault.Long) → Overflows (R.seen reader.old) (R.seen reader.new) }
    ensures read { (result ≡ Err FrontFault.Read) → (R.seen reader.old).faults < (R.seen reader.new).faults }
    ensures only { IfErr result (λ e. e ≢ FrontFault.Write) }
    ensures counts { (result ≢ Err FrontFault.Read) → (R.seen reader.new).faults ≡ (R.seen reader.old).faults }
{
    let mut buffer = vec![in alloc; 0; PIECE]?;
    let mut text = Vec::new(alloc);
    loop {
        let n = read_piece(reader, &mut buffer)?;
        if n == 0 {
            return Ok(text);
        }
        if n > MOST_BYTES - text.len() {
            return Err(FrontFault::Long);
        }
        add(&mut text, &buffer[..n])?;
    }
}
