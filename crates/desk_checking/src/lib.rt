//! `desk check`: reads one model, and says whether it is lawful, or where it is wrong; and of its decision tables, whether they answer
//! every case. What it says are lines of JSON.
#![tactic(auto)]

mod answers;
mod cells;
mod constant;
mod cost;
mod cut;
mod deciding;
mod decision_inputs;
mod domain_lines;
mod domains;
mod fault_lines;
mod faults;
mod findings;
mod gives;
mod groups;
mod input;
mod laws;
mod long;
mod model_check;
mod model_line;
mod narrowed;
mod null_law;
mod options;
mod parts;
mod requests;
mod same_outputs;
mod same_tree;
mod subject;
mod table_lines;
mod tables;
mod trying;
mod undecided;
mod walk;

pub use findings::{CheckFault, CheckFindings};
pub use laws::strict_takes;
pub use model_check::check;
pub use null_law::strict_null_takes;
pub use options::CheckOptions;
// (what the findings are made of)
pub use desk_requests::RefusedLine;
pub use desk_wire::Word;
