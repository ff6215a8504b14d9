//! Lines of a reader, each answered by a clerk, to a writer.
#![tactic(auto)]

mod at_once;
mod device;
mod fault;
mod given;
mod laws;
mod lines;
mod pieces;
mod read_ahead;
mod reading;
mod stands;
mod talk;
mod write;

pub use at_once::{Answerer, answer_at_once};
pub use device::{Counted, Sink, Source};
pub use fault::FrontFault;
pub use given::Input;
pub use laws::read_all;
pub use lines::LineText;
pub use read_ahead::ReadAhead;
pub use talk::{Clerk, answer_lines, is_cut};
pub use write::{Unwritten, write_all};
