//! Names as they stand in texts.
ghost use Rattle.std.specs.Prelude.{◌≡◌, IfOk};

use crate::name::Name;
use crate::needs::Needs;
use std::alloc::{AllocError, Global};
use std::fmt;

/// A name in a text, with the position that it has among the needed names under which the text was read. The position is a hint:
/// an environment looks there first, and compares the name.
#[derive(Drop)]
pub struct Reference {
    pub name: Name,
    pub position: Option<usize>,
}

impl Reference {
    /// The name as it stands in a text that is read under these needed names.
    pub(crate) fn under(alloc: Global, name: &str, needs: &Needs) -> Result<Reference, AllocError>
        ensures { IfOk result (λ r. r.name ≡ name.now) }
    {
        Ok(Reference {
            name: Name::of(String::from_str(alloc, name)?),
            position: needs.position(name),
        })
    }

    /// A copy.
    pub(crate) fn try_clone(&self) -> Result<Reference, AllocError>
        ensures { IfOk result (λ r. r.name ≡ self.now.name) }
    {
        Ok(Reference {
            name: self.name.try_clone()?,
            position: self.position,
        })
    }
}

/// It is shown as its name.
impl fmt::Debug for Reference {
    fn fmt<W: fmt::Write>(&self, f: &mut fmt::Formatter<W>) -> fmt::Result {
        self.name.fmt(f)
    }
}
