//! How large values are.
ghost use Rattle.std.specs.Prelude.{◌≡◌};
ghost use Rattle.dmn_ranges.specs.Sizes.{no_size, any_size, more as more_of, larger as larger_of, capped as capped_of, beside as beside_of, times as times_of, fits as fits_of, around as around_of};

const MOST_NODES: u32 = 10_000;

const MOST_DEPTH: u32 = 100;

/// How many nodes a list or a context has at most, and how deep it is at most. A scalar has one node, and is 1 deep.
#[derive(Clone, Copy, Debug, PartialEq, Eq)]
pub struct Size {
    pub nodes: u32,
    pub depth: u32,
}

fn more(a: u32, b: u32) -> u32
    ensures { result ≡ more_of a b }
{
    if a < b { b } else { a }
}

// As many nodes as no list and no context can have inside are not told apart.
fn capped(nodes: u128) -> u32
    ensures { result ≡ capped_of nodes }
{
    if nodes < 10_000 {
        nodes as u32
    } else {
        MOST_NODES
    }
}

impl Size {
    /// Of no list and no context.
    pub fn none() -> Size
        ensures { result ≡ no_size }
    {
        Size { nodes: 0, depth: 0 }
    }

    /// Of any value.
    pub fn any() -> Size
        ensures { result ≡ any_size }
    {
        Size {
            nodes: MOST_NODES,
            depth: MOST_DEPTH,
        }
    }

    /// As large as both.
    pub(crate) fn larger(self, other: Size) -> Size
        ensures { result ≡ larger_of self other }
    {
        Size {
            nodes: more(self.nodes, other.nodes),
            depth: more(self.depth, other.depth),
        }
    }

    /// Of the parts of both.
    pub(crate) fn beside(self, other: Size) -> Size
        ensures { result ≡ beside_of self other }
    {
        Size {
            nodes: capped(u128::from(self.nodes) + u128::from(other.nodes)),
            depth: more(self.depth, other.depth),
        }
    }

    /// Of so many parts.
    pub(crate) fn times(self, parts: usize) -> Size
        ensures { result ≡ times_of parts self }
    {
        Size {
            nodes: capped(parts as u128 * u128::from(self.nodes)),
            depth: self.depth,
        }
    }

    /// Whether a list or a context of such parts keeps the limits of size.
    pub(crate) fn fits(self) -> bool
        ensures { result ≡ fits_of self }
    {
        self.nodes < MOST_NODES && self.depth < MOST_DEPTH
    }

    /// Of a list or a context of such parts, if it is a value.
    pub(crate) fn around(self) -> Size
        ensures { result ≡ around_of self }
    {
        if self.nodes < MOST_NODES && self.depth < MOST_DEPTH {
            Size {
                nodes: self.nodes + 1,
                depth: self.depth + 1,
            }
        } else {
            Size::any()
        }
    }
}
