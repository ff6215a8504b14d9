//! Decision tables and their parts.
ghost use Rattle.std.specs.Prelude.{◌≡◌, true, IsTrue, IfOk, IfErr, bytes_eq, length};
ghost use Rattle.std.specs.Arc.{arc_str_bytes};
ghost use Rattle.std.specs.List.{list_all, list_any};
ghost use Rattle.dmn_table.specs.Faults.{columns_fit as columns_fit_of, fits_columns};
ghost use Rattle.feel_value.specs.Distinct.{are_distinct};
ghost use Rattle.dmn_table.specs.Parts.{names_of, entry_counts, fault_of_parts, MakesTable};
ghost use Rattle.dmn_table.specs.Unbroken.{AllKeepLimits};
ghost use Rattle.table_classes.specs.Unbroken.{KeepLimits};

use crate::columns::are_kept;
use crate::fault::TableFault;
use crate::hit_policy::HitPolicy;
use crate::may_hit::{MayHit, may_hit};
use crate::output::one_or_context;
use feel_lang::{Expr, Tests};
use feel_value::{Feel, Outcome};
use std::alloc::{AllocError, Global};
use std::marker::Model;
use std::sync::ArcStr;
use table_classes::{ColumnClasses, HasTests, classes_of_columns};

/// The fewest rules that are worth the classes of their columns.
const FEWEST_RULES: usize = 64;

/// An output column: its name, its list of output values (empty where it has none) and its default.
#[derive(Drop)]
pub struct Output {
    /// Its name, under which a context has its value where there are several columns.
    pub name: ArcStr,
    /// Its output values, the highest in priority first; empty where it has none.
    pub values: Vec<Feel>,
    /// Its default, where no rule hits.
    pub fallback: Option<Expr>,
}

/// A rule: unary tests for each input column, and an expression for each output column.
#[derive(Drop)]
pub struct Rule {
    /// Its input entries, one for each input expression.
    pub tests: Vec<Tests>,
    /// Its output entries, one for each output column.
    pub gives: Vec<Expr>,
}

impl Output {
    fn is_named(&self, name: &str) -> bool
        ensures { result ≡ bytes_eq name.now (arc_str_bytes self.now.name) }
    {
        name == self.name.as_str()
    }
}

impl Rule {
    /// Whether there is an entry for each of these numbers of columns.
    fn fits(&self, inputs: usize, outputs: usize) -> bool
        ensures { result ≡ fits_columns inputs outputs (length self.now.tests.items, length self.now.gives.items) }
    {
        self.tests.len() == inputs && self.gives.len() == outputs
    }

    /// Whether each input entry is known to break no limit.
    pub(crate) fn keeps_limits(&self) -> bool
        ensures { IsTrue result → KeepLimits self.now.tests.items }
    {
        table_classes::keep_limits(&self.tests)
    }
}

impl HasTests for Rule {
    ghost tests_of = { λ r. r.tests.items };

    fn tests(&self) -> &[Tests] {
        &self.tests
    }
}

/// A decision table. Each rule has an entry for each column, and a policy that makes one number has one output column. Whether
/// all its input entries are known to break no limit is found once, when it is made; the classes of its columns where it is asked
/// to have them.
#[derive(Drop)]
pub struct Table {
    pub(crate) policy: HitPolicy,
    pub(crate) inputs: Vec<Expr>,
    pub(crate) outputs: Vec<Output>,
    pub(crate) rules: Vec<Rule>,
    pub(crate) entries_keep_limits: bool,
    pub(crate) classes: Option<Vec<ColumnClasses>>,
}

impl Model for Table {
    ghost use Rattle.std.specs.Prelude.{◌≡◌, true, IsTrue, IfSome, length};
    ghost use Rattle.dmn_table.specs.Table as specs;
    ghost use Rattle.dmn_table.specs.Code.{table_code};

    ghost Value = { specs.Table };

    ghost coded = { table_code };

    ghost use Rattle.table_classes.specs.Classes.{TellsColumns};
    ghost use Rattle.dmn_table.specs.Classes.{input_entries};
    ghost use Rattle.dmn_table.specs.Faults.{columns_fit, operator_fits};
    ghost use Rattle.dmn_table.specs.Parts.{table_of, names_of, entry_counts};
    ghost use Rattle.dmn_table.specs.Unbroken.{AllKeepLimits};

    ghost view = { λ t. table_of t.policy t.inputs.items t.outputs.items t.rules.items };

    ghost invariant = { λ t. (columns_fit (length t.inputs.items) (names_of t.outputs.items) (entry_counts t.rules.items) ≡ true) × (operator_fits t.policy (names_of t.outputs.items) ≡ true) × (IsTrue t.entries_keep_limits → AllKeepLimits t.rules.items) × IfSome t.classes (λ columns. TellsColumns (input_entries t.rules.items) columns.items) };
}

impl Table {
    ghost use Rattle.std.specs.Prelude.{map};
    ghost use Rattle.dmn_table.specs.Hits.{output_of};
    ghost use Rattle.dmn_table.specs.MayHit.{LeavesOutOf};
    ghost use Rattle.dmn_table.specs.Parts.{column_view, rule_view, have_entries};

    /// The table, or its first fault: of the text of the hit policy, of the columns, of an operator over several outputs. It
    /// takes no memory; the names of the output columns are compared each with each.
    pub fn new(
        hit: &str,
        inputs: Vec<Expr>,
        outputs: Vec<Output>,
        rules: Vec<Rule>,
    ) -> Result<Table, TableFault>
        ensures ok { IfOk result (MakesTable hit.now inputs.items outputs.items rules.items) }
        ensures err { IfErr result (λ f. fault_of_parts hit.now inputs.items outputs.items rules.items ≡ Some f) }
    {
        if !names_are_distinct(&outputs) {
            return match HitPolicy::from_text(hit) {
                Some(_) => Err(TableFault::Columns),
                None => Err(TableFault::Hit),
            };
        }
        Table::with_distinct_names(hit, inputs, outputs, rules)
    }

    /// The same of output columns whose names are known to be distinct: they are not compared.
    pub fn with_distinct_names(
        hit: &str,
        inputs: Vec<Expr>,
        outputs: Vec<Output>,
        rules: Vec<Rule>,
    ) -> Result<Table, TableFault>
        requires { are_distinct (names_of outputs.items) ≡ true }
        ensures ok { IfOk result (MakesTable hit.now inputs.items outputs.items rules.items) }
        ensures err { IfErr result (λ f. fault_of_parts hit.now inputs.items outputs.items rules.items ≡ Some f) }
    {
        let Some(policy) = HitPolicy::from_text(hit) else {
            return Err(TableFault::Hit);
        };
        if !columns_fit(inputs.len(), &outputs, &rules) {
            return Err(TableFault::Columns);
        }
        if policy.is_operator() && outputs.len() > 1 {
            return Err(TableFault::Operator);
        }
        let entries_keep_limits = keep_limits(&rules);
        Ok(Table {
            policy,
            inputs,
            outputs,
            rules,
            entries_keep_limits,
            classes: None,
        })
    }

    /// Its hit policy.
    pub fn policy(&self) -> HitPolicy
        ensures { result ≡ self.now.policy }
    {
        self.policy
    }

    /// Its input expressions, one for each input column.
    pub fn inputs(&self) -> &[Expr]
        ensures { result.now ≡ self.now.inputs }
    {
        &self.inputs
    }

    /// Its output columns.
    pub fn outputs(&self) -> &[Output]
        ensures { map column_view result.now ≡ self.now.outputs }
    {
        &self.outputs
    }

    /// Its rules, in their order.
    pub fn rules(&self) -> &[Rule]
        ensures rules { map rule_view result.now ≡ self.now.rules }
        ensures entries { have_entries (length self.now.outputs) self.now.rules ≡ true }
    {
        &self.rules
    }

    /// Which of its rules may hit for some values of its input columns, as far as that is known without asking them: what is left out
    /// misses. The time is in proportion to the columns times the rules, 64 of which take a step.
    pub fn may_hit(&self, alloc: Global, values: &[Feel]) -> Result<MayHit, AllocError>
        ensures { IfOk result (LeavesOutOf self.now.rules values.now) }
    {
        let some = may_hit(alloc, &self.rules, &self.classes, values)?;
        Ok(some)
    }

    /// The values of its output columns as one value: the only one itself, otherwise a context of them under the columns' names.
    /// `Limit` where that context would be no value.
    pub fn one_or_context(&self, alloc: Global, values: Vec<Feel>) -> Result<Outcome, AllocError>
        ensures { IfOk result (λ o. o ≡ output_of self.now.outputs values.items) }
    {
        one_or_context(alloc, &self.outputs, values)
    }

    /// The same table with the classes of its columns, by which a decision finds the rules that hit without asking each, where it
    /// has many rules and the values of its columns are kept together; otherwise it stays as it is. A rule an entry of which may
    /// break a limit is always asked. Its value is the same. On an error the table is let go.
    pub fn with_classes(mut self, alloc: Global) -> Result<Table, AllocError>
        ensures { IfOk result (λ t. t ≡ self) }
    {
        if self.rules.len() < FEWEST_RULES || !are_kept(&self.inputs) {
            return Ok(self);
        }
        if !self.rules.iter().any(|rule| rule.keeps_limits()) {
            return Ok(self);
        }
        let classes = classes_of_columns(alloc, &self.rules, self.inputs.len())?;
        self.classes = Some(classes);
        Ok(self)
    }
}

/// Whether there is an output column, and an entry for each column in each rule.
fn columns_fit(inputs: usize, outputs: &[Output], rules: &[Rule]) -> bool
    requires { are_distinct (names_of outputs.now) ≡ true }
    ensures { result ≡ columns_fit_of inputs (names_of outputs.now) (entry_counts rules.now) }
{
    if outputs.is_empty() {
        return false;
    }
    rules_fit(inputs, outputs.len(), rules)
}

fn rules_fit(inputs: usize, outputs: usize, rules: &[Rule]) -> bool
    ensures { result ≡ list_all (λ r. fits_columns inputs outputs (length r.tests.items, length r.gives.items)) rules.now }
{
    rules.iter().all(|rule| rule.fits(inputs, outputs))
}

fn names_are_distinct(outputs: &[Output]) -> bool
    ensures { result ≡ are_distinct (names_of outputs.now) }
{
    for (i, output) in outputs.iter().enumerate() {
        let later = &outputs[i + 1..];
        if is_among(output.name.as_str(), later) {
            return false;
        }
    }
    true
}

fn is_among(name: &str, outputs: &[Output]) -> bool
    ensures { result ≡ list_any (λ o. bytes_eq name.now (arc_str_bytes o.name)) outputs.now }
{
    outputs.iter().any(|output| output.is_named(name))
}

/// Whether each input entry of these rules is known to break no limit.
fn keep_limits(rules: &[Rule]) -> bool
    ensures { IsTrue result → AllKeepLimits rules.now }
{
    rules.iter().all(|rule| rule.keeps_limits())
}
