//! The tests of `dmn_plan` through its public interface, for what no line of the program shows: a full heap, faults that have
//! one word there, and sizes past a line. What models answer stands in the program's stored run. They stand in a crate of their
//! own, so that the library's proofs are not made once more for them.
#![tactic(auto)]

#[cfg(test)]
mod models;
#[cfg(test)]
mod names;
