//! Values of FEEL, their limits and their three-valued logic.
#![tactic(auto)]

mod by_name;
mod comparison;
mod context_entries;
mod copy;
mod fault;
mod feel;
mod json;
mod limits;
mod logic;
mod members;
mod names;
mod part;
mod reading;
mod size;
mod sizes;
mod value;

pub use comparison::{equal, less};
pub use context_entries::ContextEntries;
pub use fault::ValueFault;
pub use feel::{Feel, Outcome};
pub use logic::{Truth, and3, decided, not3, or3};
pub use members::Members;
pub use part::Part;
pub use reading::truth;
pub use value::{Value, ValueContext, ValueList};
