//! What stands between the lines of `serve`.
use crate::named_lanes::Lanes;
use dmn_plan::MarkedPlan;
use json_reader::JsonReader;
use model_marks::{Catalog, Marks};

/// What stands between the lines of `serve`: the lanes, and the model in force. A model stays in force until another one is
/// read.
#[derive(Drop)]
pub struct State<'a, C: Catalog, R> {
    /// What waits where a mailbox is full.
    pub(crate) rt: &'a R,
    pub(crate) lanes: Lanes<C>,
    pub(crate) plan: Option<MarkedPlan<C>>,
    /// The marks that are left for later models.
    pub(crate) marks: Marks<C>,
    /// What reads the texts of the lines.
    pub(crate) texts: JsonReader,
}
