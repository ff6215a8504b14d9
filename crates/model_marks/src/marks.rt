//! The numbers that are left.
ghost use Rattle.std.specs.Prelude.{◌≡◌, IfSome};

use crate::mark::{Catalog, Mark};
use crate::slots::{Bytes, Slots};
use boxcar::tag::Tag;
use std::marker::PhantomData;

/// The numbers that are left.
#[derive(Drop)]
pub struct Marks<C: Catalog> {
    slots: Slots,
    next: usize,
    of: PhantomData<C>,
    ghost named: { slots ≡ C.slots },
}

impl<C: Catalog> Marks<C> {
    /// The numbers of these slots.
    pub fn of(slots: Slots) -> Marks<C>
        requires { slots ≡ C.slots }
    {
        Marks {
            slots,
            next: 0,
            of: PhantomData,
        }
    }

    /// Gives a text the next number, if one is left.
    pub fn mark(&mut self, text: &[u8]) -> Option<Mark<C>>
        ensures { IfSome result (λ mark. mark ≡ text.now) }
    {
        let number = self.next;
        let slot = self.slots.slots.get(number)?;
        let tag = Tag::of::<&[u8], Bytes>(&text);
        let Ok(token) = slot.set_written(tag) else {
            return None;
        };
        self.next = number.wrapping_add(1);
        Some(Mark {
            number,
            token,
            of: PhantomData,
        })
    }
}
