//! Decision tables: rules that are matched against the values of input expressions, and a hit policy that makes one
//! result of the outputs of the rules that hit.
#![tactic(auto)]

mod collected;
mod columns;
mod deciders;
mod decision;
mod fault;
mod hit_policy;
mod hits;
mod listed;
mod may_hit;
mod misses;
mod numbers;
mod output;
mod policy;
mod priority;
mod table;

pub use deciders::deciding;
pub use decision::decide;
pub use fault::TableFault;
pub use hit_policy::HitPolicy;
pub use listed::{Listed, listed_places, lists_of};
pub use may_hit::MayHit;
pub use misses::first_miss;
pub use output::{evaluated, has_no_default};
pub use table::{Output, Rule, Table};
