//! Notes that are taken on a walk through a model.
ghost use Rattle.std.specs.Prelude.{◌≡◌, OnOk, IfOk};
ghost use Rattle.dmn_check.specs.Notes.{empty, into, out, kept, noted};
ghost use Rattle.dmn_check.specs.NotesView.{notes_view, findings_view};

use crate::finding::{Finding, Mistake};
use crate::place::{Place, Step};
use std::alloc::{AllocError, Global};

/// The most findings that are kept.
const MOST_FINDINGS: usize = 100;

/// The way from the whole model to where the walk is, and what was found so far.
#[derive(Drop)]
pub(crate) struct Notes {
    /// Where memory is taken from.
    pub(crate) alloc: Global,
    /// The way.
    pub(crate) path: Vec<Step>,
    /// The first findings.
    pub(crate) findings: Vec<Finding>,
    /// How many findings there are, with those that are not kept.
    pub(crate) count: usize,
}

impl Notes {
    /// No findings, at the whole model.
    pub(crate) fn new(alloc: Global) -> Notes
        ensures { notes_view result ≡ empty }
    {
        Notes {
            alloc,
            path: Vec::new(alloc),
            findings: Vec::new(alloc),
            count: 0,
        }
    }

    /// Goes to a part.
    pub(crate) fn enter(&mut self, step: Step) -> Result<(), AllocError>
        ensures { OnOk result (notes_view self.new ≡ into step (notes_view self.old)) }
    {
        self.path.push(step)?;
        Ok(())
    }

    /// Goes back from a part.
    pub(crate) fn leave(&mut self)
        ensures { notes_view self.new ≡ out (notes_view self.old) }
    {
        self.path.pop();
    }

    /// The place where the walk is.
    fn place(&self) -> Result<Place, AllocError>
        ensures { IfOk result (λ p. p.steps.items ≡ self.now.path.items) }
    {
        let mut steps = Vec::new(self.alloc);
        steps.extend_from_slice(&self.path)?;
        Ok(Place { steps })
    }

    /// Keeps a finding, unless there are enough.
    fn keep(&mut self, mistake: Mistake) -> Result<(), AllocError>
        ensures path { OnOk result (self.new.path.items ≡ self.old.path.items) }
        ensures findings { OnOk result (findings_view self.new.findings.items ≡ kept (findings_view self.old.findings.items) (record { place = self.old.path.items; mistake = mistake })) }
        ensures count { OnOk result (self.new.count ≡ self.old.count) }
    {
        if self.findings.len() >= MOST_FINDINGS {
            return Ok(());
        }
        let place = self.place()?;
        self.findings.push(Finding { place, mistake })?;
        Ok(())
    }

    /// Notes what is wrong here.
    pub(crate) fn note(&mut self, mistake: Mistake) -> Result<(), AllocError>
        ensures { OnOk result (notes_view self.new ≡ noted mistake (notes_view self.old)) }
    {
        self.keep(mistake)?;
        self.count = self.count.saturating_add(1);
        Ok(())
    }
}
