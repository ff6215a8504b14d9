//! Which names of a list have a fault.
ghost use Rattle.std.specs.Prelude.{◌≡◌, not, OnOk, IfOk, map, if◌then◌else◌};
ghost use Rattle.feel_text.specs.Lexical.{is_name as is_name_of};
ghost use Rattle.dmn_check.specs.declared.place.Step.TheVariants as step;
ghost use Rattle.dmn_check.specs.declared.place.Key.TheVariants as key;
ghost use Rattle.dmn_check.specs.Findings.{behind, here};
ghost use Rattle.dmn_check.specs.NameFaults.{mistake_of, marks, in_texts, in_named};
ghost use Rattle.dmn_check.specs.NameMarks.{is_in_text};
ghost use Rattle.dmn_check.specs.Notes.{with_all};
ghost use Rattle.dmn_check.specs.NotesView.{notes_view};

use crate::finding::Mistake;
use crate::notes::Notes;
use crate::place::{Key, Step};
use dmn_names::Named;
use feel_lang::is_name;
use std::alloc::{AllocError, Global};
use std::collections::BTreeSet;

/// What may be wrong with a text in the place of a name.
#[derive(Clone, Copy)]
pub(crate) enum NameFault {
    /// It is no name.
    Unlawful,
    /// It stands in its list before.
    Repeated,
}

impl NameFault {
    fn mistake(self) -> Mistake
        ensures { result ≡ mistake_of self }
    {
        match self {
            NameFault::Unlawful => Mistake::Name,
            NameFault::Repeated => Mistake::Twice,
        }
    }

    /// Whether a text has the fault, if it is known whether it is new in its list.
    fn is_in(self, text: &str, is_new: bool) -> bool
        ensures { result ≡ is_in_text self text.now is_new }
    {
        match self {
            NameFault::Unlawful => !is_name(text),
            NameFault::Repeated => !is_new,
        }
    }
}

/// For each of these whether its name has the fault. The steps are in proportion to how many there are, times the logarithm of
/// that.
pub(crate) fn marks_of<T: Named>(
    alloc: Global,
    fault: NameFault,
    items: &[T],
) -> Result<Vec<bool>, AllocError>
    ensures { IfOk result (λ v. v.items ≡ marks fault (map T.name_of items.now)) }
{
    let mut seen = BTreeSet::new(alloc);
    let mut marks = Vec::with_capacity(alloc, items.len())?;
    for item in items {
        let name = item.name();
        let is_new = seen.insert(name)?;
        marks.push(fault.is_in(name, is_new))?;
    }
    Ok(marks)
}

/// Notes the fault here, if there is one.
fn note_if(notes: &mut Notes, fault: NameFault, is_wrong: bool) -> Result<(), AllocError>
    ensures { OnOk result (with_all (notes_view notes.old) (here (mistake_of fault) is_wrong) ≡ notes_view notes.new) }
{
    if !is_wrong {
        return Ok(());
    }
    notes.note(fault.mistake())?;
    Ok(())
}

/// Notes the marked texts of the array that is here.
pub(crate) fn note_texts(
    notes: &mut Notes,
    fault: NameFault,
    marks: &[bool],
) -> Result<(), AllocError>
    ensures { OnOk result (with_all (notes_view notes.old) (in_texts fault marks.now) ≡ notes_view notes.new) }
{
    for (index, is_wrong) in marks.iter().enumerate() {
        notes.enter(Step::Index(index))?;
        note_if(notes, fault, *is_wrong)?;
        notes.leave();
    }
    Ok(())
}

/// Notes the fault at the name of the object that is here, if there is one.
fn note_name(notes: &mut Notes, fault: NameFault, is_wrong: bool) -> Result<(), AllocError>
    ensures { OnOk result (with_all (notes_view notes.old) (behind (step.Key key.Name) (here (mistake_of fault) is_wrong)) ≡ notes_view notes.new) }
{
    notes.enter(Step::Key(Key::Name))?;
    note_if(notes, fault, is_wrong)?;
    notes.leave();
    Ok(())
}

/// Notes the marked objects of the array that is here, each at its name.
pub(crate) fn note_named(
    notes: &mut Notes,
    fault: NameFault,
    marks: &[bool],
) -> Result<(), AllocError>
    ensures { OnOk result (with_all (notes_view notes.old) (in_named fault marks.now) ≡ notes_view notes.new) }
{
    for (index, is_wrong) in marks.iter().enumerate() {
        notes.enter(Step::Index(index))?;
        note_name(notes, fault, *is_wrong)?;
        notes.leave();
    }
    Ok(())
}
