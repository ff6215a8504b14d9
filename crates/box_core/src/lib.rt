//! Mailboxes that hand each client the results of its accepted requests in the order of acceptance, each once, in
//! whatever order the answers come; and a broker of several such clients.
#![tactic(auto)]

mod broker;
mod event;
mod faults;
mod job;
mod mailbox;
mod standing;
mod work;

pub use broker::Broker;
pub use event::{Event, Report};
pub use faults::{AddRefusal, Answered, BoxFault, Refusal};
pub use job::Job;
pub use mailbox::{LARGEST_CAPACITY, Mailbox};
pub use standing::Standing;
pub use work::{Done, Reply, Work};
