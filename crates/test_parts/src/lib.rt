//! The tests of `feel_value`, `dmn_table`, `dmn_form`, `dmn_names`, `dmn_graph` and `dmn_logic` through their public interfaces, for
//! what no line of the program shows: a full heap, the libraries' own types, and sizes and depths past a line. They stand in a crate of
//! their own, so that the libraries' proofs are not made once more for them.
#![tactic(auto)]

#[cfg(test)]
mod form;
#[cfg(test)]
mod graph;
#[cfg(test)]
mod logic;
#[cfg(test)]
mod names;
#[cfg(test)]
mod shared_names;
#[cfg(test)]
mod tables;
#[cfg(test)]
mod values;
