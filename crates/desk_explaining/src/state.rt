//! What stands between the lines.
use desk_requests::Register;

/// What stands between the lines: the model in force with its sum, and the clients that have lanes.
#[derive(Drop)]
pub struct State {
    pub(crate) register: Register,
    /// The sum by which the model in force is named; empty where there is none.
    pub(crate) sum: String,
    /// Whether the rules that missed are told.
    pub(crate) misses: bool,
}
