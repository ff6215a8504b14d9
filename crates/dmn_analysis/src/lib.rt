//! What holds of a decision table whatever its input columns' values are: that some rule hits, that no two do, that a rule never
//! does; or values for which it is otherwise.
#![tactic(auto)]

mod always;
mod asked;
mod asking;
mod bounds;
mod broken;
mod cell;
mod choosing;
mod class;
mod constant;
mod cutting;
mod folded;
mod found;
mod gap_answers;
mod gaps;
mod grouping;
mod halving;
mod joined;
mod joining;
mod kinds;
mod laws;
mod listing;
mod members;
mod met;
mod on_class;
mod pair_answers;
mod pairing;
mod pairs;
mod pricing;
mod ranking;
mod row;
mod rule_on;
mod searching;
mod single_answers;
mod whole;
mod within;
mod witness;
mod words;

pub use always::{always_hits, never_two_hit};
pub use asked::{Asked, Numbers, Texts};
pub use cell::{Cell, Others, Words};
pub use found::{Gap, Gaps, Mask, Masks, Overlap, Overlaps};
pub use gap_answers::find_gaps;
pub use grouping::hit_in_one_group;
pub use kinds::{every_value, kinds_asked};
pub use laws::{complete_gives_no_default, every_value_is_asked, unique_gives_one_hit};
pub use pair_answers::find_overlaps;
pub use single_answers::{find_masked, never_met};
