//! Lanes between clients and workers: each client submits requests to a lane of its own, any worker takes them, and
//! each client is handed the results in order. No call of an end waits for another thread.
#![tactic(auto)]

mod book;
mod client;
mod ending;
mod fault;
mod gate;
mod marks;
mod memory;
mod open;
mod places;
mod port;
mod settled;
mod settling;
mod signals;
mod worker;

pub use client::Client;
pub use fault::LaneFault;
pub use gate::{AtGate, Gate, OpenGate, Stepped, Watch};
pub use open::{MOST_CLIENTS, MOST_WORKERS, lanes};
pub use settled::Settled;
pub use settling::settle;
pub use signals::{Signals, Woken};
pub use worker::Worker;
