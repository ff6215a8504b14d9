//! What it means that `strict` refuses no table. The function does nothing: what counts is what it ensures.
ghost use Rattle.std.specs.Prelude.{◌≡◌, List, Option, false};
ghost use Rattle.dmn_table.specs.Table.{Table};
ghost use Rattle.dmn_analysis.specs.declared.asked.Asked.{Asked};
ghost use Rattle.desk_checking.specs.Answering.{IsFound, is_refused};
ghost use Rattle.desk_checking.specs.Strict.{IsTaken};
ghost use Rattle.desk_checking.specs.declared.answers.Answers.{Answers};

/// Where it doesn't refuse a table, the table has a default or some rule hits for all values of the kinds that are asked; under `U` no
/// two rules hit; under `A` all that hit give the same; and each rule can decide. Where it is known which values come to the table, some
/// rule hits for each of these, but in a column to which every value comes for those of the kinds that are asked; and for each of them no
/// two hit, or all that hit give the same.
pub fn strict_takes()
    ensures { (t : Table) (comes : Option (List Asked)) (a : Answers) → IsFound t comes a → is_refused t a ≡ false → IsTaken t comes }
{}
