//! `serve`: many clients at once. Each client's answers come in the order of its lines. None is kept back for another client's
//! slow request, unless too much waits.
#![tactic(auto)]

mod answering;
mod client_lane;
mod deciding;
mod ending;
mod lane_ends;
mod laws;
mod load;
mod named_lanes;
mod options;
mod resting;
mod run;
mod state;
mod until;
mod waiting;

pub use laws::own_lines_decide;
pub use options::Options;
pub use run::{serve, serve_marked};
