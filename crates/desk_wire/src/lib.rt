//! What the lines of all commands share: how a line is heard, the parts that it has, and what is said of it, in JSON.
#![tactic(auto)]

mod heard;
mod key;
mod members;
mod object;
mod parts;
mod refusal;
mod report;
mod session;
mod word;

pub use heard::{Heard, hear, is_blank};
pub use members::{four_members, one_member, three_members, two_members};
pub use parts::{capacity_in, name_in, ticket_in};
pub use refusal::add_refusal;
pub use report::{Report, Told};
pub use session::{Listener, Session};
pub use word::Word;
