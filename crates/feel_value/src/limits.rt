//! The limits that a value keeps.
ghost use Rattle.std.specs.Prelude.{◌≡◌};
ghost use Rattle.feel_value.specs.Limits.{in_range};

pub(crate) const MOST_NODES: usize = 10_000;

pub(crate) const MOST_DEPTH: usize = 100;

// Whether a number is in range: as far from 0 as `i64::MAX` at most.
pub(crate) fn is_in_range(n: i64) -> bool
    ensures { result ≡ in_range n }
{
    n != i64::MIN
}
