//! How large a value is.
ghost use Rattle.std.specs.Prelude.{◌≡◌, IfSome};
ghost use Rattle.feel_value.specs.Datum.{null};
ghost use Rattle.feel_value.specs.Sizes.{size as size_of_datum, grown as grown_of, IsKept};

use crate::limits::{MOST_DEPTH, MOST_NODES};

/// How many nodes a value has, and how deep it is. It takes four bytes.
#[derive(Clone, Copy)]
pub struct Size {
    pub nodes: u16,
    pub levels: u8,
}

impl Size {
    // That of a value with no parts.
    pub(crate) fn of_one_node() -> Size
        ensures { result ≡ size_of_datum null }
    {
        Size {
            nodes: 1,
            levels: 1,
        }
    }

    // The size of a list or a context of this size that takes a part of that one, where it is none too large and none too deep.
    pub(crate) fn grown(self, part: Size) -> Option<Size>
        ensures size { result ≡ grown_of self part }
        ensures kept { IfSome result IsKept }
    {
        let nodes = usize::from(self.nodes) + usize::from(part.nodes);
        let levels = 1 + usize::from(part.levels);
        if levels <= MOST_DEPTH && nodes <= MOST_NODES {
            Some(Size {
                nodes: nodes as u16,
                levels: self.levels.max(levels as u8),
            })
        } else {
            None
        }
    }
}
