//! What is said, on its way to a writer.
ghost use Rattle.std.specs.Prelude.{◌≡◌, ◌≢◌, ◌<◌, ◌≤◌, ◌+◌, ◌-◌, ◌^◌, ◌↔◌, ℕ, [], List, length, IsTrue, OnOk, OnErr, IfErr, Err};
ghost use Rattle.desk_lines.specs.Gathers.{Gathers};
ghost use Rattle.desk_lines.specs.Told.{WritesAll};

use crate::device::Sink;
use crate::fault::FrontFault;
use std::alloc::Global;
use std::marker::Model;

/// The number of bytes from which on they are written.
const PIECE: usize = 65_536;

/// Writes the bytes. Where the writer fails a beginning of them is written, which may be empty. A call that takes nothing of
/// some bytes is a fault, and none is repeated.
pub fn write_all<W: Sink>(writer: &mut W, bytes: &[u8]) -> Result<(), FrontFault>
    requires counts { (W.seen writer.old).faults < 2 ^ 64 - 1 }
    ensures { WritesAll (W.seen writer.old) (W.seen writer.new) bytes.now result }
{
    let mut at = 0;
    'pieces: while at < bytes.len() {
        match writer.write(&bytes[at..]) {
            Ok(n) if n > 0 => at += n,
            _ => return Err(FrontFault::Write),
        }
    }
    Ok(())
}

/// What is said and not written yet: lines are gathered and written in large pieces.
#[derive(Drop)]
pub struct Unwritten {
    bytes: Vec<u8>,
}

impl Model for Unwritten {
    ghost Value = { List ℕ };

    ghost view = { λ unwritten. unwritten.bytes.items };
}

impl Unwritten {
    /// Nothing that waits.
    pub fn new(alloc: Global) -> Self
        ensures { result ≡ [] }
    {
        Unwritten {
            bytes: Vec::new(alloc),
        }
    }

    /// Whether nothing waits.
    pub fn is_empty(&self) -> bool
        ensures { IsTrue result ↔ (self.now ≡ []) }
    {
        self.bytes.is_empty()
    }

    /// Whether all that waits is written once a text is added.
    pub fn is_full_with(&self, text: &[u8]) -> bool
        ensures { IsTrue result ↔ (65536 ≤ length self.now + length text.now) }
    {
        text.len() >= PIECE.saturating_sub(self.bytes.len())
    }

    /// Writes all that waits.
    pub fn write_out<W: Sink>(&mut self, writer: &mut W) -> Result<(), FrontFault>
        requires counts { (W.seen writer.old).faults < 2 ^ 64 - 1 }
        ensures all { OnOk result (Gathers
            (W.seen writer.old).contents (W.seen writer.new).contents self.old [] self.new) }
        ensures nothing_waits { OnOk result (self.new ≡ []) }
        ensures part { OnErr result ((rest : List ℕ) × Gathers
            (W.seen writer.old).contents (W.seen writer.new).contents self.old [] rest) }
        ensures counts { OnOk result ((W.seen writer.new).faults ≡ (W.seen writer.old).faults) }
        ensures fault { IfErr result (λ e. (e ≡ FrontFault.Write) × ((W.seen writer.old).faults < (W.seen writer.new).faults)) }
    {
        write_all(writer, &self.bytes)?;
        self.bytes.clear();
        Ok(())
    }

    /// Adds a text to what waits, and writes all once that is a large piece.
    pub fn add<W: Sink>(&mut self, writer: &mut W, text: &[u8]) -> Result<(), FrontFault>
        requires counts { (W.seen writer.old).faults < 2 ^ 64 - 1 }
        ensures said { OnOk result (Gathers
            (W.seen writer.old).contents (W.seen writer.new).contents self.old text.now self.new) }
        ensures full { 65536 ≤ length self.old + length text.now → OnOk result (self.new ≡ []) }
        ensures part { (result ≡ Err FrontFault.Write) → (rest : List ℕ) × Gathers
            (W.seen writer.old).contents (W.seen writer.new).contents self.old text.now rest }
        ensures memory { (result ≡ Err FrontFault.Memory) → Gathers
            (W.seen writer.old).contents (W.seen writer.new).contents self.old [] self.new }
        ensures only { IfErr result (λ e. (e ≢ FrontFault.Read) × (e ≢ FrontFault.Long)) }
        ensures counts { (result ≢ Err FrontFault.Write) → (W.seen writer.new).faults ≡ (W.seen writer.old).faults }
        ensures fault { (result ≡ Err FrontFault.Write) → (W.seen writer.old).faults < (W.seen writer.new).faults }
    {
        self.bytes.extend_from_slice(text)?;
        if self.bytes.len() < PIECE {
            return Ok(());
        }
        self.write_out(writer)
    }

    /// Adds a text to what waits, as `add` does. Where the text is empty, all that waits is written.
    pub fn pass_on<W: Sink>(&mut self, writer: &mut W, text: &[u8]) -> Result<(), FrontFault>
        requires counts { (W.seen writer.old).faults < 2 ^ 64 - 1 }
        ensures said { OnOk result (Gathers
            (W.seen writer.old).contents (W.seen writer.new).contents self.old text.now self.new) }
        ensures out { text.now ≡ [] → OnOk result (self.new ≡ []) }
        ensures full { 65536 ≤ length self.old + length text.now → OnOk result (self.new ≡ []) }
        ensures part { (result ≡ Err FrontFault.Write) → (rest : List ℕ) × Gathers
            (W.seen writer.old).contents (W.seen writer.new).contents self.old text.now rest }
        ensures memory { (result ≡ Err FrontFault.Memory) → Gathers
            (W.seen writer.old).contents (W.seen writer.new).contents self.old [] self.new }
        ensures only { IfErr result (λ e. (e ≢ FrontFault.Read) × (e ≢ FrontFault.Long)) }
        ensures counts { (result ≢ Err FrontFault.Write) → (W.seen writer.new).faults ≡ (W.seen writer.old).faults }
        ensures fault { (result ≡ Err FrontFault.Write) → (W.seen writer.old).faults < (W.seen writer.new).faults }
    {
        if text.is_empty() {
            return self.write_out(writer);
        }
        self.add(writer, text)
    }
}
