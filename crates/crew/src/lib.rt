//! Workers' ends run in threads of their own, beside a host that runs on the calling thread, and come back in order as
//! the ends that they were.
#![tactic(auto)]

mod crew;
mod host;
mod post;
mod promise;
mod scoped;
mod threads;

pub use crew::Crew;
pub use host::Host;
pub use scoped::beside;
