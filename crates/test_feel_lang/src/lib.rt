//! The tests of `feel_lang` through its public interface, for what no line of the program shows: trees, bindings, texts of a
//! megabyte, tests that stand again and a full heap. What texts give, and which are none, stands in the program's stored
//! run. They stand in a crate of their own, so that the library's proofs are not made once more for them.
#![tactic(auto)]

#[cfg(test)]
mod env_tests;
#[cfg(test)]
mod reader_tests;
#[cfg(test)]
mod refused_readings;
#[cfg(test)]
mod refused_tests;
#[cfg(test)]
mod repeated_tests;
#[cfg(test)]
mod scope_tests;
#[cfg(test)]
mod value_tests;
