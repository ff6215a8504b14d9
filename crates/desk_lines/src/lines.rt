//! Lines of a reader.
ghost use Rattle.std.specs.Prelude.{◌≡◌, ℕ, ◌+◌, ◌<◌, ◌≤◌, List, [], ◌∷◌, ◌++◌, take, length, Option, Some, None, option_map, OnOk, OnErr, IsOk, IfOk, IfErr, IfSome, IfNone, MatchResult, vec_len, unwrap_or, ◌==◌, ◌≢◌, ◌-◌, ◌^◌, min, nat_lt, false, IsTrue, Err, if◌then◌else◌, position};
ghost use Rattle.std.specs.Io.KnownBytes.{Consumes, IsAtEnd};
ghost use Rattle.desk_lines.specs.Device.{grown};
ghost use Rattle.desk_lines.specs.Lines.{newline, kept_line, longer, heard, max_line, max_input, IsOneLine};

use crate::device::Source;
use crate::fault::FrontFault;
use memchr::memchr;
use std::alloc::{AllocError, Global};
use std::marker::Model;

const NEWLINE: u8 = b'\n';

/// The most bytes of a line, without its newline.
const MAX_LINE: usize = 1_048_576;

/// The most bytes of an input.
const MAX_INPUT: u64 = 1 << 40;

/// The most bytes that are read at once.
const PIECE: usize = 65_536;

/// A line without its newline, or none of one that is too long.
#[derive(Drop)]
pub struct LineText {
    bytes: Vec<u8>,
    is_long: bool,
}

impl Model for LineText {
    ghost Value = { Option (List ℕ) };

    ghost view = { λ t. if t.is_long then None else Some t.bytes.items };

    ghost invariant = { λ t. vec_len t.bytes ≤ max_line };
}

impl LineText {
    /// An empty line.
    pub fn new(alloc: Global) -> Self
        ensures { result ≡ Some [] }
    {
        LineText {
            bytes: Vec::new(alloc),
            is_long: false,
        }
    }

    /// Makes it an empty line again.
    pub fn clear(&mut self)
        ensures { self.new ≡ Some [] }
    {
        self.bytes.clear();
        self.is_long = false;
    }

    /// Adds a piece at the end. Of a line that grew too long there is nothing to see.
    pub fn add(&mut self, piece: &[u8]) -> Result<(), AllocError>
        ensures added { OnOk result (self.new ≡ longer self.old piece.now) }
        ensures unchanged { OnErr result (self.new ≡ self.old) }
        ensures long { longer self.old piece.now ≡ None → IsOk result }
    {
        if piece.len() > MAX_LINE - self.bytes.len() {
            self.is_long = true;
        }
        if !self.is_long {
            self.bytes.extend_from_slice(piece)?;
        }
        Ok(())
    }

    /// Whether it has no byte; one that is too long has some.
    pub fn is_empty(&self) -> bool
        ensures { result ≡ unwrap_or (option_map (λ line. length line == 0) self.now) false }
    {
        !self.is_long && self.bytes.is_empty()
    }

    /// Its bytes; none of one that is too long.
    pub fn text(&self) -> Option<&[u8]>
        ensures { option_map (λ t. t.now) result ≡ self.now }
    {
        if self.is_long {
            None
        } else {
            Some(&self.bytes)
        }
    }
}

/// What comes next.
#[derive(Clone, Copy)]
pub enum Next {
    /// A line that its newline ended.
    Line,
    /// The last line, which has no newline.
    Last,
    /// Nothing more.
    End,
    /// Part of a line, and nothing more is at hand.
    Open,
}

/// Where the first newline is.
fn newline_at(bytes: &[u8]) -> Option<usize>
    ensures { result ≡ position (λ b. b == newline) bytes.now }
{
    memchr(NEWLINE, bytes)
}

/// Reads a piece of at most so many bytes to the front of the buffer.
fn read_piece<R: Source>(
    source: &mut R,
    buffer: &mut [u8],
    most: usize,
) -> Result<usize, FrontFault>
    requires counts { (R.seen source.old).faults < 2 ^ 64 - 1 }
    requires room { most ≤ length buffer.old }
    ensures bound { IfOk result (λ n. n ≤ most) }
    ensures bytes { IfOk result (λ n. Consumes (R.seen source.old).remaining (R.seen source.new).remaining (take n buffer.new)) }
    ensures end { IfOk result (λ n. n ≡ 0 → 0 < most → IsAtEnd (R.seen source.new).remaining) }
    ensures none { OnErr result (Consumes (R.seen source.old).remaining (R.seen source.new).remaining []) }
    ensures comes { IfOk result (λ n. (R.seen source.new).came ≡ grown (R.seen source.old).came n) }
    ensures stays { OnErr result ((R.seen source.new).came ≡ (R.seen source.old).came) }
    ensures fault { IfErr result (λ e. (e ≡ FrontFault.Read) × ((R.seen source.old).faults < (R.seen source.new).faults)) }
    ensures counts { OnOk result ((R.seen source.new).faults ≡ (R.seen source.old).faults) }
{
    match source.read(&mut buffer[..most]) {
        Ok(n) => Ok(n),
        Err(_) => Err(FrontFault::Read),
    }
}

/// The most bytes of the next piece, where so many may come.
fn piece_of(room: u64) -> usize
    ensures { result ≡ min room 65536 }
{
    if room < PIECE as u64 {
        room as usize
    } else {
        PIECE
    }
}

/// How many of the last n bytes that came are within the limit. At most one is past it.
fn kept_of(came: u64, n: usize) -> usize
    requires { max_input < came → 1 ≤ n }
    ensures { result ≡ (if nat_lt max_input came then n - 1 else n) }
{
    if came > MAX_INPUT { n - 1 } else { n }
}

/// Cuts what a reader gives into lines.
#[derive(Drop)]
pub struct LineReader {
    /// The last piece of the input that was read, and room for another.
    buffer: Vec<u8>,
    /// Where in the piece the next line begins.
    at: usize,
    /// Where the piece ends.
    end: usize,
    came: u64,
    ghost order: { at ≤ end },
    ghost within: { end ≤ vec_len buffer },
    ghost room: { vec_len buffer ≡ 65536 },
    ghost counted: { came ≤ max_input + 1 },
}

impl LineReader {
    ghost use Rattle.desk_lines.specs.LineReader.{has_newline, to_come, waiting, Comes, StaysInStep, Took};

    /// A reader to which nothing came yet.
    pub fn new(alloc: Global) -> Result<Self, AllocError>
        ensures waits { IfOk result (λ reader. waiting reader ≡ []) }
        ensures came { IfOk result (λ reader. reader.came ≡ 0) }
    {
        Ok(LineReader {
            buffer: vec![in alloc; 0; PIECE]?,
            at: 0,
            end: 0,
            came: 0,
        })
    }

    /// Whether a whole line waits.
    pub fn has_line(&self) -> bool
        ensures { result ≡ has_newline self.now }
    {
        newline_at(&self.buffer[self.at..self.end]).is_some()
    }

    /// Reads the next piece of the input. At the end there is none.
    fn fill<R: Source>(&mut self, source: &mut R) -> Result<bool, FrontFault>
        requires counts { (R.seen source.old).faults < 2 ^ 64 - 1 }
        ensures reads { (bytes : List ℕ)
            × Comes (R.seen source.old).remaining (R.seen source.new).remaining self.old.came self.new.came bytes
            × OnOk result (waiting self.new ≡ heard self.old.came bytes)
            × OnErr result (heard self.old.came bytes ≡ []) }
        ensures some { IfOk result (λ more. IsTrue more → 0 < length (waiting self.new)) }
        ensures end { IfOk result (λ more. more ≡ false →
            (waiting self.new ≡ []) × IsAtEnd (R.seen source.new).remaining × (self.new.came ≤ max_input)) }
        ensures read { (result ≡ Err FrontFault.Read) →
            ((R.seen source.old).faults < (R.seen source.new).faults) × (self.new.came ≤ max_input) }
        ensures long { (result ≡ Err FrontFault.Long) → max_input < self.new.came }
        ensures only { IfErr result (λ e. (e ≢ FrontFault.Write) × (e ≢ FrontFault.Memory)) }
        ensures counts { (result ≢ Err FrontFault.Read) → (R.seen source.new).faults ≡ (R.seen source.old).faults }
        ensures in_step { StaysInStep (R.seen source.old).came (R.seen source.new).came self.old.came self.new.came }
    {
        if self.came > MAX_INPUT {
            return Err(FrontFault::Long);
        }
        let room = MAX_INPUT + 1 - self.came;
        let n = read_piece(source, &mut self.buffer, piece_of(room))?;
        self.came += n as u64;
        let kept = kept_of(self.came, n);
        self.at = 0;
        self.end = kept;
        if kept == 0 && self.came > MAX_INPUT {
            return Err(FrontFault::Long);
        }
        Ok(kept > 0)
    }

    /// Reads on where nothing waits. At the end still nothing does.
    fn refill<R: Source>(&mut self, source: &mut R) -> Result<bool, FrontFault>
        requires counts { (R.seen source.old).faults < 2 ^ 64 - 1 }
        ensures reads { IfOk result (λ _. (bytes : List ℕ)
            × Comes (R.seen source.old).remaining (R.seen source.new).remaining self.old.came self.new.came bytes
            × (waiting self.new ≡ waiting self.old ++ heard self.old.came bytes)) }
        ensures lost { IfErr result (λ e. (bytes : List ℕ)
            × Comes (R.seen source.old).remaining (R.seen source.new).remaining self.old.came self.new.came bytes
            × (waiting self.old ≡ []) × (heard self.old.came bytes ≡ [])) }
        ensures some { IfOk result (λ more. IsTrue more → 0 < length (waiting self.new)) }
        ensures end { IfOk result (λ more. more ≡ false →
            (waiting self.new ≡ []) × IsAtEnd (R.seen source.new).remaining × (self.new.came ≤ max_input)) }
        ensures read { (result ≡ Err FrontFault.Read) →
            ((R.seen source.old).faults < (R.seen source.new).faults) × (self.new.came ≤ max_input) }
        ensures long { (result ≡ Err FrontFault.Long) → max_input < self.new.came }
        ensures only { IfErr result (λ e. (e ≢ FrontFault.Write) × (e ≢ FrontFault.Memory)) }
        ensures counts { (result ≢ Err FrontFault.Read) → (R.seen source.new).faults ≡ (R.seen source.old).faults }
        ensures in_step { StaysInStep (R.seen source.old).came (R.seen source.new).came self.old.came self.new.came }
    {
        if self.at < self.end {
            return Ok(true);
        }
        self.fill(source)
    }

    /// Moves what waits of a line to the line. Says whether the line's newline was there.
    fn take_piece(&mut self, line: &mut LineText) -> Result<bool, FrontFault>
        ensures ended { IfOk result (λ is_ended. IsTrue is_ended → (piece : List ℕ) × IsOneLine piece
            × (waiting self.old ≡ piece ++ newline ∷ waiting self.new) × (line.new ≡ longer line.old piece)) }
        ensures open { IfOk result (λ is_ended. is_ended ≡ false → IsOneLine (waiting self.old)
            × (waiting self.new ≡ []) × (line.new ≡ longer line.old (waiting self.old))) }
        ensures memory { IfErr result (λ e. e ≡ FrontFault.Memory) }
        ensures came { self.new.came ≡ self.old.came }
    {
        let piece = &self.buffer[self.at..self.end];
        match newline_at(piece) {
            Some(place) => {
                line.add(&piece[..place])?;
                self.at += place + 1;
                Ok(true)
            }
            None => {
                line.add(piece)?;
                self.at = self.end;
                Ok(false)
            }
        }
    }

    /// Reads the next line to the end of the line, which may have a beginning already. Where the source knows that no more is at
    /// hand, the line stays open.
    pub fn next_line<R: Source>(
        &mut self,
        source: &mut R,
        line: &mut LineText,
    ) -> Result<Next, FrontFault>
        requires counts { (R.seen source.old).faults < 2 ^ 64 - 1 }
        ensures took { IfOk result (λ next. (begun : List ℕ) → IsOneLine begun → line.old ≡ kept_line begun → (bytes : List ℕ)
            × Comes (R.seen source.old).remaining (R.seen source.new).remaining self.old.came self.new.came bytes
            × Took next ((begun ++ waiting self.old) ++ heard self.old.came bytes) (waiting self.new) line.new (R.seen source.new).remaining) }
        ensures within { IfOk result (λ next. next ≢ Next.Line → next ≢ Next.Open → self.new.came ≤ max_input) }
        ensures less { IfOk result (λ next. next ≢ Next.Last → next ≢ Next.End → to_come self.new < to_come self.old) }
        ensures lost { IfErr result (λ e. (begun : List ℕ) → IsOneLine begun → line.old ≡ kept_line begun → (bytes : List ℕ)
            × Comes (R.seen source.old).remaining (R.seen source.new).remaining self.old.came self.new.came bytes
            × (e ≢ FrontFault.Memory → IsOneLine ((begun ++ waiting self.old) ++ heard self.old.came bytes))) }
        ensures read { (result ≡ Err FrontFault.Read) →
            ((R.seen source.old).faults < (R.seen source.new).faults) × (self.new.came ≤ max_input) }
        ensures long { (result ≡ Err FrontFault.Long) → max_input < self.new.came }
        ensures never { result ≢ Err FrontFault.Write }
        ensures counts { (result ≢ Err FrontFault.Read) → (R.seen source.new).faults ≡ (R.seen source.old).faults }
        ensures in_step { StaysInStep (R.seen source.old).came (R.seen source.new).came self.old.came self.new.came }
    {
        'pieces: loop {
            if !self.refill(source)? {
                let next = if line.is_empty() {
                    Next::End
                } else {
                    Next::Last
                };
                return Ok(next);
            }
            if self.take_piece(line)? {
                return Ok(Next::Line);
            }
            if matches!(source.at_hand(), Some(false)) {
                return Ok(Next::Open);
            }
        }
    }
}
