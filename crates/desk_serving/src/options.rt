//! How `serve` runs.

/// How `serve` runs.
#[derive(Clone, Copy, Debug, PartialEq, Eq)]
pub struct Options {
    /// How many clients may have a lane: 1 to 64.
    pub clients: u32,
    /// How many workers evaluate: 1 to 8.
    pub workers: u32,
    /// How many requests of one client may be outstanding before its next one waits: 1 to 4096.
    pub capacity: u32,
}
