//! The tests of `desk_lines` through its public interface. They stand in a crate of their own, so that the library's proofs are
//! not made once more for them.
#![tactic(auto)]

#[cfg(test)]
mod ahead_tests;
