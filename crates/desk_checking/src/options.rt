//! What `check` is asked for.

/// The options of `desk check`.
#[derive(Clone, Copy, Debug, PartialEq, Eq)]
pub struct CheckOptions {
    /// Behind the model, which is the first line, stand lines of requests.
    pub requests: bool,
    /// Of each decision table is told which values no rule hits, which rules overlap and which decide nothing.
    pub tables: bool,
    /// Such a table is a failure. Without `tables` it means nothing.
    pub strict: bool,
    /// Of each service and its decisions is told what they can give.
    pub gives: bool,
    /// That is told, and it is a failure where a service can give null or break a limit.
    pub strict_null: bool,
}
