//! The logic of all decisions of a model together.
ghost use Rattle.std.specs.Prelude.{◌≡◌, Some, false, IfOk, IfErr, option_map, map};
ghost use Rattle.dmn_form.specs.ModelView.{decision_view};
ghost use Rattle.dmn_logic.specs.Due.{IsDue};
ghost use Rattle.dmn_logic.specs.Faults.{has_unread_text, has_refused_table};
ghost use Rattle.dmn_logic.specs.LogicView.{logic_view};
ghost use Rattle.dmn_logic.specs.ReadLogic.{read_decisions};

use crate::fault::LogicFault;
use crate::logic::Logic;
use crate::reading::{Reading, logics_of};
use dmn_form::WrittenDecision;
use feel_lang::Needs;
use std::alloc::Global;

/// The logic of each decision, in their order, or the first fault over all of them: `Expression` where some FEEL text of some
/// decision has no reading, otherwise `Table` where some table is refused.
///
/// Input expressions, output entries and defaults of a table are expressions, its input entries unary tests, its listed output
/// values literals. Each text is read once at most, a decision's under the names at its index: there a name in it is looked for
/// first when it is evaluated. Where `names` is too short nothing is known of them. It goes as deep as a boxed expression is.
pub fn read_decision_logic(
    alloc: Global,
    decisions: &[WrittenDecision],
    names: &[&Needs],
) -> Result<Vec<Logic>, LogicFault>
    ensures read { IfOk result (λ v. option_map (map (λ d. d.logic)) (read_decisions (map decision_view decisions.now)) ≡ Some (map logic_view v.items)) }
    ensures texts { IfOk result (λ _. has_unread_text (map decision_view decisions.now) ≡ false) }
    ensures tables { IfOk result (λ _. has_refused_table (map decision_view decisions.now) ≡ false) }
    ensures err { IfErr result (IsDue (map decision_view decisions.now)) }
{
    match logics_of(alloc, decisions, names)? {
        Reading::Found(logics) => Ok(logics),
        Reading::Refused => Err(LogicFault::Table),
        Reading::Unread => Err(LogicFault::Expression),
    }
}
