//! Why parts make no table.
use thiserror::Error;

/// Why texts and columns make no table.
#[derive(Clone, Copy, PartialEq, Eq, Debug, Error)]
pub enum TableFault {
    /// The text of the hit policy is none of the eleven.
    #[error("the hit policy is none of the eleven")]
    Hit,
    /// There is no output, two outputs have one name, or a rule has another number of entries than there are columns.
    #[error("the columns or the entries of a rule don't fit")]
    Columns,
    /// A hit policy that sums, picks or counts stands over more than one output.
    #[error("the hit policy makes one number, and there are several outputs")]
    Operator,
}
