//! What unary tests answer of a value.

/// Whether a value meets unary tests. `No` also where that is unknown; `Limit` where an expression among the tests breaks a
/// limit.
#[derive(Clone, Copy, Debug, PartialEq, Eq)]
pub enum Held {
    Yes,
    No,
    Limit,
}
