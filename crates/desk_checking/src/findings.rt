//! What a check finds.

use desk_requests::RefusedLine;
use dmn_plan::ModelFault;

/// Why `serve` doesn't take a model.
#[derive(Clone, Copy, Debug, PartialEq, Eq)]
pub enum CheckFault {
    /// It has this fault.
    Model(ModelFault),
    /// It is lawful, and its line of compact text is longer than a line may be.
    Long,
    /// `serve` takes it, and what is declared of its inputs beside it can't be read.
    Domain,
}

/// What was found of a model.
#[derive(Debug, Drop)]
pub struct CheckFindings {
    /// Its first fault; none where `serve` takes it.
    pub fault: Option<CheckFault>,
    /// Whether it has no fault, its tables were looked through, and `strict` refuses one of them.
    pub is_strict_failure: bool,
    /// Whether it has no fault, and `strict_null` refuses what one of its services can give.
    pub is_null_failure: bool,
    /// Of the lines of requests behind it the first 1,000 that `serve` refuses where each client has a lane; none where it has a fault.
    pub refused: Vec<RefusedLine>,
}
