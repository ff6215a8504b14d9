//! A decision model as it is written.

/// A boxed expression as it is written.
#[derive(Debug, Drop)]
pub enum WrittenLogic {
    /// A FEEL text.
    Expression(String),
    /// A decision table.
    Table(WrittenTable),
    /// A list, member by member.
    List(Vec<WrittenLogic>),
    /// A context of named entries.
    Context(Vec<(String, WrittenLogic)>),
    /// A context of named entries with a result.
    ContextWith(Vec<(String, WrittenLogic)>, Box<WrittenLogic>),
}

/// An output column.
#[derive(Debug, Drop)]
pub struct WrittenColumn {
    /// Its name.
    pub name: String,
    /// Its output values, the highest in priority first; empty where it has none.
    pub values: Vec<String>,
    /// Its default.
    pub fallback: Option<String>,
}

/// A rule.
#[derive(Debug, Drop)]
pub struct WrittenRule {
    /// Unary tests, one text for each input column.
    pub tests: Vec<String>,
    /// Expressions, one for each output column.
    pub gives: Vec<String>,
}

/// A decision table.
#[derive(Debug, Drop)]
pub struct WrittenTable {
    /// Its hit policy.
    pub hit: String,
    /// The expressions of its input columns.
    pub inputs: Vec<String>,
    /// Its output columns.
    pub outputs: Vec<WrittenColumn>,
    /// Its rules, in their order.
    pub rules: Vec<WrittenRule>,
}

/// A decision.
#[derive(Debug, Drop)]
pub struct WrittenDecision {
    /// Its name.
    pub name: String,
    /// The inputs and decisions that it requires, by their names.
    pub needs: Vec<String>,
    /// Its logic, a boxed expression.
    pub logic: WrittenLogic,
}

/// A decision service.
#[derive(Debug, Drop)]
pub struct WrittenService {
    /// Its name.
    pub name: String,
    /// The decisions whose values it answers.
    pub outputs: Vec<String>,
    /// The decisions that it evaluates on the way.
    pub encapsulated: Vec<String>,
    /// The decisions whose values a request brings.
    pub input_decisions: Vec<String>,
    /// The inputs whose values a request brings.
    pub input_data: Vec<String>,
}

/// A decision model.
#[derive(Debug, Drop)]
pub struct WrittenModel {
    /// The names of its input data.
    pub inputs: Vec<String>,
    /// Its decisions, in their order.
    pub decisions: Vec<WrittenDecision>,
    /// Its decision services.
    pub services: Vec<WrittenService>,
}
