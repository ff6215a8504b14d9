//! The form of a decision model in JSON: which keys and kinds a JSON value must have to be a model, and the model as it
//! is written, with its names and FEEL texts not looked into yet.
#![tactic(auto)]

mod fields;
mod form;
mod logic;
mod nesting;
mod table;
mod written;

pub use form::read_form;
pub use written::{
    WrittenColumn, WrittenDecision, WrittenLogic, WrittenModel, WrittenRule, WrittenService,
    WrittenTable,
};
