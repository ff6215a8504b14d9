//! Plans of decision services.
use dmn_logic::Logic;
use feel_lang::Needs;
use std::sync::ArcStr;

/// An input, or a decision with its logic and the places of what it needs. Its own place is its index in a list of items.
#[derive(Drop)]
pub struct Item {
    /// The name under which what needs it sees its value.
    pub name: ArcStr,
    /// The places of the inputs and decisions that it needs.
    pub needs: Vec<usize>,
    /// The same places, each under the name of what stands there.
    pub named: Needs,
    /// A hint, under which names the logic was read: those of `named`, and then those that entries of its boxed contexts bind. It is
    /// empty where there are no such entries.
    pub scope: Needs,
    /// None for an input.
    pub logic: Option<Logic>,
}

/// The way from the parameters of a decision service to its outputs, in places of items.
#[derive(Drop)]
pub struct ServicePlan {
    /// The name of the service.
    pub name: String,
    /// The input decisions, then the input data.
    pub parameters: Vec<usize>,
    /// The decisions to evaluate, each behind those that it needs.
    pub order: Vec<usize>,
    /// The decisions whose values are the result.
    pub outputs: Vec<usize>,
}
