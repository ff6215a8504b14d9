//! Why there are no lanes.
use thiserror::Error;

/// Why lanes are not made.
#[derive(Clone, Copy, Debug, PartialEq, Eq, Error)]
pub enum LaneFault {
    /// There are no clients or over 64, or no workers or over 8.
    #[error("there may be 1 to 64 clients and 1 to 8 workers")]
    Count,
    /// The capacity is 0 or over 4096.
    #[error("a client has room for 1 to 4096 requests")]
    Capacity,
    /// There is no memory.
    #[error("out of memory")]
    Memory,
}
