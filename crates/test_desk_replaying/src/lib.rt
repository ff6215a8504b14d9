//! The tests of `desk_replaying` through its public interface. They stand in a crate of their own, so that the library's proofs are
//! not made once more for them.
#![tactic(auto)]

#[cfg(test)]
mod device_tests;
#[cfg(test)]
mod growing_tests;
#[cfg(test)]
mod line_tests;
#[cfg(test)]
mod refused_tests;
#[cfg(test)]
mod script;
#[cfg(test)]
mod ticket_tests;
