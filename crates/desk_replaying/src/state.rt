//! What stands between the lines of `replay`, and what becomes of a line.
ghost use Rattle.std.specs.Prelude.{◌≤◌, length};

use box_core::{Broker, Report};
use desk_wire::Word;
use dmn_plan::{MarkedPlan, ModelFault, Task};
use model_marks::{Catalog, Marks};

/// What stands between the lines: the broker, the opened names by their clients' numbers, and the model in force. A model
/// stays in force until another one is read.
#[derive(Drop)]
pub struct State<C: Catalog> {
    pub(crate) broker: Broker<Task<C>>,
    pub(crate) names: Vec<String>,
    pub(crate) plan: Option<MarkedPlan<C>>,
    /// The marks that are left for later models.
    pub(crate) marks: Marks<C>,
    /// Each name has its client.
    ghost counted: { length names.items ≤ length broker },
    ghost few: { length names.items ≤ 64 },
}

/// What becomes of a line that says something.
#[derive(Drop)]
pub enum Effect<C: Catalog> {
    /// The model on it is in force from the next line on.
    Loaded,
    /// The model on it has a fault.
    Faulty(ModelFault),
    /// The broker was asked, and reports.
    Reported(Report<Task<C>>),
    /// The line is refused, and the broker asked nothing.
    Refused(Word),
}
