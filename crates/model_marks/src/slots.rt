//! The slots that numbers are of.
ghost use Rattle.std.specs.Prelude.{◌≡◌, []};

use boxcar::slot::{OnceSlot, SlotRule};
use boxcar::tag::{Names, Tag};
use std::alloc::{AllocError, Global};
use std::marker::Model;

/// How many texts get a number.
pub const MOST: usize = 4096;

/// Any text may have any number.
pub(crate) struct AnyText;

impl SlotRule<Tag> for AnyText {
    ghost use Rattle.std.specs.Prelude.{⊤};

    ghost holds = { λ _ _. ⊤ };
}

/// The bytes of a text.
pub(crate) struct Bytes;

impl<'a> Names<&'a [u8]> for Bytes {
    ghost numbers = { λ text. text.now };
}

/// Slots that no text is in. Contracts see what tells them from all others.
#[derive(Drop)]
pub struct Slots {
    pub(crate) slots: Vec<OnceSlot<Tag, AnyText>>,
}

impl Model for Slots {
    ghost use Rattle.std.specs.Prelude.{ℕ, List, map};

    ghost Value = { List ℕ };

    ghost view = { λ s. map (λ slot. slot.id) s.slots.items };
}

/// As many slots as texts get a number.
fn most_slots(alloc: Global) -> Result<Vec<OnceSlot<Tag, AnyText>>, AllocError> {
    let mut slots = Vec::with_capacity(alloc, MOST)?;
    for _ in 0..MOST {
        slots.push(OnceSlot::new(&Tag::empty()))?;
    }
    Ok(slots)
}

impl Slots {
    /// As many as texts get a number; none where memory is refused.
    pub fn new(alloc: Global) -> Slots {
        let slots = match most_slots(alloc) {
            Ok(slots) => slots,
            Err(_) => Vec::new(alloc),
        };
        Slots { slots }
    }

    /// None at all. They take no memory.
    pub fn none(alloc: Global) -> Slots
        ensures { result ≡ [] }
    {
        Slots {
            slots: Vec::new(alloc),
        }
    }
}
