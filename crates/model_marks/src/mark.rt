//! The number of a text.
ghost use Rattle.std.specs.Prelude.{◌≡◌, IsTrue};

use boxcar::slot::Written;
use boxcar::tag::Tag;
use std::marker::{Brand, Model, PhantomData};

/// Which slots the numbers of a run are of. A type stands for them, so marks of two runs are never compared.
pub trait Catalog {
    ghost use Rattle.std.specs.Prelude.{ℕ, List};

    ghost slots: { List ℕ };
}

impl Catalog for Brand {
    ghost use Rattle.std.specs.Prelude.{[]};

    ghost slots = { [] };
}

/// No slots: nothing has a number.
pub struct Unmarked;

impl Catalog for Unmarked {
    ghost use Rattle.std.specs.Prelude.{[]};

    ghost slots = { [] };
}

/// A number of a text. Contracts see the bytes of that text.
#[derive(Drop)]
pub struct Mark<C: Catalog> {
    pub(crate) number: usize,
    /// What shows which text has the number. It has no bytes.
    pub(crate) token: Written<Tag>,
    pub(crate) of: PhantomData<C>,
}

impl<C: Catalog> Model for Mark<C> {
    ghost use Rattle.std.specs.Prelude.{◌≡◌, ℕ, List, Some, slice_get};

    ghost Value = { List ℕ };

    ghost view = { λ mark. mark.token.value.numbers };

    ghost invariant = { λ mark. slice_get C.slots mark.number ≡ Some mark.token.of };
}

impl<C: Catalog> Mark<C> {
    /// The same mark once more. It takes no memory.
    pub fn again(&self) -> Mark<C>
        ensures { result ≡ self.now }
    {
        Mark {
            number: self.number,
            token: self.token.again(),
            of: PhantomData,
        }
    }

    /// Whether both have one number. Then they are of one text.
    pub fn is_same(&self, other: &Mark<C>) -> bool
        ensures { IsTrue result → self.now ≡ other.now }
    {
        if self.number != other.number {
            return false;
        }
        self.token.agrees(&other.token);
        true
    }
}
