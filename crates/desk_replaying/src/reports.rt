//! What is said of a line.
ghost use Rattle.std.specs.Prelude.{◌≡◌};
ghost use Rattle.box_core.specs.Views.{report_of};
ghost use Rattle.desk_wire.specs.Reading.{Says};
ghost use Rattle.desk_wire.specs.ReportView.{report_view};
ghost use Rattle.desk_replaying.specs.Line.{line_view};
ghost use Rattle.desk_replaying.specs.Reports as reports;
ghost use Rattle.desk_replaying.specs.StateView.{told_of};

use crate::line::Line;
use crate::state::Effect;
use box_core::Report as BrokerReport;
use desk_wire::{Report, Told, Word};
use dmn_plan::Task;
use model_marks::Catalog;

/// The name on a line; a model line has none.
fn name_on<'a>(line: &Line<'a>) -> &'a str
    ensures { result.now ≡ reports.name_on (line_view line.now) }
{
    match line {
        Line::Model(_) => "",
        Line::Open(name, _) => name,
        Line::Submit(name, _, _) => name,
        Line::Take(name, _) => name,
        Line::Answer(name, _) => name,
        Line::AnswerWith(name, _, _, _) => name,
        Line::Release(name) => name,
        Line::Close(name) => name,
        Line::Resize(name, _) => name,
    }
}

/// The capacity that a line opens a name with.
fn capacity_on(line: &Line<'_>) -> u32
    ensures { result ≡ reports.capacity_on (line_view line.now) }
{
    match line {
        Line::Open(_, capacity) => *capacity,
        _ => 0,
    }
}

/// The ticket that a line answers.
fn ticket_on(line: &Line<'_>) -> u64
    ensures { result ≡ reports.ticket_on (line_view line.now) }
{
    match line {
        Line::Answer(_, ticket) => *ticket,
        Line::AnswerWith(_, ticket, _, _) => *ticket,
        _ => 0,
    }
}

/// A refusal, with the name where the line has one.
fn refused<'a>(number: u64, line: &Line<'a>, why: Word) -> Report<'a>
    ensures { report_view result ≡ reports.refused (Says (line_view line.now)) number why }
{
    match line {
        Line::Model(_) => Report::Refused(number, why),
        _ => Report::Of(name_on(line), number, Told::Refused(why)),
    }
}

/// The broker's report to a line.
fn reported<'a, C: Catalog>(
    number: u64,
    line: &Line<'a>,
    told: &'a BrokerReport<Task<C>>,
) -> Report<'a>
    ensures { report_view result ≡ reports.reported number (line_view line.now) (report_of told.now) }
{
    let told = match told {
        BrokerReport::Handed(reply) => {
            return Report::Reply(name_on(line), reply.ticket, &reply.outcome);
        }
        BrokerReport::Added(_) => Told::Opened(capacity_on(line)),
        BrokerReport::NotAdded(why) => Told::Refused(Word::of_unadded(*why)),
        BrokerReport::Accepted(ticket) => Told::Accepted(*ticket),
        BrokerReport::Taken(job) => Told::Taken(job.ticket()),
        BrokerReport::Kept => Told::Kept(ticket_on(line)),
        BrokerReport::Strange => Told::Refused(Word::Strange),
        BrokerReport::Repeated => Told::Refused(Word::Repeated),
        BrokerReport::Nothing => Told::Nothing,
        BrokerReport::Closed => Told::Closed,
        BrokerReport::Resized(capacity) => Told::Resized(*capacity),
        BrokerReport::Refused(why) => Told::Refused(Word::of_refusal(*why)),
    };
    Report::Of(name_on(line), number, told)
}

/// The report on a line, by what became of it.
pub fn report_on<'a, C: Catalog>(number: u64, line: &Line<'a>, effect: &'a Effect<C>) -> Report<'a>
    ensures { report_view result ≡ told_of number (line_view line.now) effect.now }
{
    match effect {
        Effect::Loaded => Report::Loaded(number),
        Effect::Faulty(fault) => Report::Faulty(number, Word::of_fault(*fault)),
        Effect::Reported(told) => reported(number, line, told),
        Effect::Refused(why) => refused(number, line, *why),
    }
}
