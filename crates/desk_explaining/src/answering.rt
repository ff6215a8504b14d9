//! What is answered to each line.
ghost use Rattle.std.specs.Prelude.{◌≡◌, OnOk, Some};
ghost use Rattle.desk_wire.specs.Reading.{Says};
ghost use Rattle.desk_requests.specs.Line.{line_view};
ghost use Rattle.desk_requests.specs.Register.{force_of};
ghost use Rattle.desk_explaining.specs.StateView.{Hears, Loads};

use crate::explanation::{add_explanation, add_loaded, sum_of};
use crate::state::State;
use desk_requests::{Answer, Line, line_heard};
use desk_wire::{Heard, Listener, Report, add_refusal};
use std::alloc::{AllocError, Global};

impl State {
    /// A model came in force: its sum is kept, and told with its text.
    fn tell_loaded(
        &mut self,
        alloc: Global,
        number: u64,
        text: &mut Vec<u8>,
    ) -> Result<(), AllocError>
        ensures same { (self.new.register ≡ self.old.register) × (self.new.misses ≡ self.old.misses) }
        ensures loads { OnOk result (Loads self.old number text.old.items text.new.items self.new) }
    {
        let Some(plan) = self.register.model() else {
            return Ok(());
        };
        let sum = sum_of(alloc, plan.text())?;
        add_loaded(alloc, number, plan.text(), sum.as_str(), text)?;
        self.sum = sum;
        Ok(())
    }

    /// Adds the answer to a line of one of the forms.
    fn answer_line(
        &mut self,
        alloc: Global,
        number: u64,
        says: &Line<'_>,
        text: &mut Vec<u8>,
    ) -> Result<(), AllocError>
        ensures misses { self.new.misses ≡ self.old.misses }
        ensures lanes { self.new.register.lanes ≡ self.old.register.lanes }
        ensures hears { OnOk result (Hears self.old number (Says (line_view says.now)) text.old.items text.new.items self.new) }
    {
        match self.register.answer(alloc, number, says)? {
            Answer::Asked(asked) => add_explanation(
                alloc,
                number,
                self.sum.as_str(),
                &asked,
                self.misses,
                text,
            ),
            Answer::Told(report) => match report {
                Report::Loaded(_) => self.tell_loaded(alloc, number, text),
                report => report.add_to(alloc, text),
            },
        }
    }
}

impl Listener for State {
    ghost use Rattle.desk_explaining.specs.Script.{Script};
    ghost use Rattle.desk_explaining.specs.StateView.{After};

    const ROOM: usize = 2_048;

    ghost Script = { λ state. Script state.misses state.register.lanes };

    ghost After = { After };

    fn answer_heard(
        &mut self,
        alloc: Global,
        number: u64,
        heard: &Heard<'_>,
        text: &mut Vec<u8>,
    ) -> Result<(), AllocError> {
        let Some(says) = line_heard(heard) else {
            return add_refusal(alloc, number, heard, text);
        };
        self.answer_line(alloc, number, &says, text)
    }

    ghost follows = { λ state lines said a. record { readings = a.readings; read = a.read; said = a.answered } };
}
