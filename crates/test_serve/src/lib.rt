//! The tests of `serve` of `desk_front` through its public interface: workers that a gate holds, devices that fail, memory
//! that is refused, and clients that wait for others. Whole inputs with their answers are tests of the program.
#![tactic(auto)]

#[cfg(test)]
mod ahead_tests;
#[cfg(test)]
mod fault_tests;
#[cfg(test)]
mod gate_tests;
#[cfg(test)]
mod growing_tests;
#[cfg(test)]
mod marked_runs;
#[cfg(test)]
mod models_tests;
#[cfg(test)]
mod runs;
#[cfg(test)]
mod starved_tests;
#[cfg(test)]
mod waits_tests;
