//! Reads JSON texts one after the other, as `serde_json` does, with memory that is kept from text to text.
//!
//! `serde_json::Value::from_str` takes and clears the memory of its scanner, 16 KiB and the length of the text, for each text.
//! For texts of a hundred bytes that is most of the time.
#![tactic(auto)]

mod listed;
mod members;
mod number;
mod reader;
mod value;

pub use listed::Listed;
pub use reader::JsonReader;
