//! Texts that are kept up to a bound.
ghost use Rattle.std.specs.Prelude.{◌≡◌, ℕ, ◌≤◌, List, [], ◌∷◌, Option, Some, None, option_map, OnOk, vec_len, decimal, if◌then◌else◌};
ghost use Rattle.std.specs.Option.{is_none};
ghost use Rattle.json.specs.Print.{quoted};
ghost use Rattle.json_writer.specs.Bounded.{longer, most_bytes};

use crate::text::{add_escaped, needs_escape};
use itoa::Buffer;
use std::alloc::{AllocError, Global};
use std::marker::Model;

/// The most bytes of a text that is kept: 64 MiB.
const MOST_BYTES: usize = 67_108_864;

/// A text that grows piece by piece, or none of one that grew past 64 MiB.
#[derive(Drop)]
pub struct BoundedText {
    bytes: Vec<u8>,
    is_long: bool,
}

impl Model for BoundedText {
    ghost Value = { Option (List ℕ) };

    ghost view = { λ t. if t.is_long then None else Some t.bytes.items };

    ghost invariant = { λ t. vec_len t.bytes ≤ most_bytes };
}

impl BoundedText {
    /// An empty text.
    pub fn new(alloc: Global) -> Self
        ensures { result ≡ Some [] }
    {
        BoundedText {
            bytes: Vec::new(alloc),
            is_long: false,
        }
    }

    /// Adds a piece. Of a text that grew too long there is nothing to see, and to it nothing is added.
    pub fn add(&mut self, piece: &[u8]) -> Result<(), AllocError>
        ensures { OnOk result (self.new ≡ longer self.old piece.now) }
    {
        if piece.len() > MOST_BYTES - self.bytes.len() {
            self.is_long = true;
        }
        if !self.is_long {
            self.bytes.extend_from_slice(piece)?;
        }
        Ok(())
    }

    /// Adds a byte.
    pub fn push(&mut self, byte: u8) -> Result<(), AllocError>
        ensures { OnOk result (self.new ≡ longer self.old (byte ∷ [])) }
    {
        self.add(&[byte])
    }

    /// Adds a text in quotes.
    #[tactic(auto, using(crate::proofs::Longer::quoted_added))]
    pub fn add_quoted(&mut self, alloc: Global, words: &str) -> Result<(), AllocError>
        ensures { OnOk result (self.new ≡ longer self.old (quoted words.now)) }
    {
        if needs_escape(words) {
            let mut piece = Vec::new(alloc);
            add_escaped(alloc, words, &mut piece)?;
            return self.add(&piece);
        }
        self.push(b'"')?;
        self.add(words.as_bytes())?;
        self.push(b'"')
    }

    /// Adds a number.
    pub fn add_number(&mut self, number: u64) -> Result<(), AllocError>
        ensures { OnOk result (self.new ≡ longer self.old (decimal number)) }
    {
        self.add(Buffer::new().format(number).as_bytes())
    }

    /// Whether it grew too long.
    pub fn is_long(&self) -> bool
        ensures { result ≡ is_none self.now }
    {
        self.is_long
    }

    /// Its bytes; none of one that is too long.
    pub fn text(&self) -> Option<&[u8]>
        ensures { option_map (λ t. t.now) result ≡ self.now }
    {
        if self.is_long {
            None
        } else {
            Some(&self.bytes)
        }
    }
}
