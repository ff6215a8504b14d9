//! What is told of a fault.

use crate::finding::Finding;
use crate::notes::Notes;

/// The first places where a model has a fault, and how many there are.
#[derive(Debug, Drop)]
pub struct Told {
    /// The first 100 findings, in the order of the model.
    pub findings: Vec<Finding>,
    /// How many findings there are.
    pub count: usize,
}

impl Told {
    ghost use Rattle.std.specs.Prelude.{◌≡◌, List};
    ghost use Rattle.dmn_check.specs.Findings.{Finding as AFinding};
    ghost use Rattle.dmn_check.specs.Notes.{empty, with_all};
    ghost use Rattle.dmn_check.specs.NotesView.{notes_view};
    ghost use Rattle.dmn_check.specs.Told.{first_of};
    ghost use Rattle.dmn_check.specs.ToldView.{told_view};

    /// What was noted.
    pub(crate) fn of(notes: Notes) -> Told
        ensures { (fs : List AFinding) → with_all empty fs ≡ notes_view notes → told_view result ≡ first_of fs }
    {
        Told {
            findings: notes.findings,
            count: notes.count,
        }
    }
}
