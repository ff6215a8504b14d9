//! How `explain` runs.

/// How `explain` runs.
#[derive(Clone, Copy, Debug, PartialEq, Eq)]
pub struct ExplainOptions {
    /// How many clients may have a lane, as of `serve`: 1 to 64.
    pub clients: u32,
    /// Whether each rule that missed is told with the first column whose test was not met.
    pub misses: bool,
}
