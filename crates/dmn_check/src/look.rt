//! What is looked for in the parts of boxed expressions.
ghost use Rattle.std.specs.Prelude.{◌≡◌, OnOk, map, string_bytes};
ghost use Rattle.dmn_form.specs.FormView.{table_view};
ghost use Rattle.dmn_check.specs.Look as specs;
ghost use Rattle.dmn_check.specs.Notes.{with_all};
ghost use Rattle.dmn_check.specs.NotesView.{notes_view};

use crate::notes::Notes;
use dmn_form::{WrittenLogic, WrittenTable};
use std::alloc::{AllocError, Global};

/// What is looked for. Each part is asked in turn, and what is found there is noted.
pub(crate) trait Look {
    ghost look: { Self → specs.Look };

    /// Looks at a text outside of tables.
    fn text(&self, alloc: Global, notes: &mut Notes, text: &str) -> Result<(), AllocError>
        ensures { OnOk result (with_all (notes_view notes.old) ((look self.now).text text.now) ≡ notes_view notes.new) };

    /// Looks at a table.
    fn table(
        &self,
        alloc: Global,
        notes: &mut Notes,
        table: &WrittenTable,
    ) -> Result<(), AllocError>
        ensures { OnOk result (with_all (notes_view notes.old) ((look self.now).table (table_view table.now)) ≡ notes_view notes.new) };

    /// Looks at the names of the entries of a context.
    fn entries(
        &self,
        alloc: Global,
        notes: &mut Notes,
        entries: &[(String, WrittenLogic)],
    ) -> Result<(), AllocError>
        ensures { OnOk result (with_all (notes_view notes.old) ((look self.now).entries (map (λ e. string_bytes e.0) entries.now)) ≡ notes_view notes.new) };
}
