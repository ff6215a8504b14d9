//! The hit policies and their texts.
ghost use Rattle.std.specs.Prelude.{◌≡◌, Some};
ghost use Rattle.dmn_table.specs.Faults.{policy_of, policy_text, is_operator as makes_a_number, goes_by_priority as by_priority};

/// How the outputs of the rules that hit make one result.
#[derive(Clone, Copy)]
pub enum HitPolicy {
    /// `U`: the output of the only rule.
    Unique,
    /// `A`: the output that all rules have.
    Any,
    /// `P`: the output of the highest priority.
    Priority,
    /// `F`: the output of the first rule.
    First,
    /// `O`: the list of the outputs, the highest in priority first.
    OutputOrder,
    /// `R`: the list of the outputs, in the order of the rules.
    RuleOrder,
    /// `C`: the list of the outputs.
    Collect,
    /// `C+`: the sum of the outputs.
    Sum,
    /// `C<`: the least output.
    Least,
    /// `C>`: the greatest output.
    Greatest,
    /// `C#`: the number of the outputs.
    Count,
}

impl HitPolicy {
    /// The policy of a text, if it is one of the eleven.
    pub(crate) fn from_text(text: &str) -> Option<HitPolicy>
        ensures { result ≡ policy_of text.now }
    {
        match text {
            "U" => Some(HitPolicy::Unique),
            "A" => Some(HitPolicy::Any),
            "P" => Some(HitPolicy::Priority),
            "F" => Some(HitPolicy::First),
            "R" => Some(HitPolicy::RuleOrder),
            "O" => Some(HitPolicy::OutputOrder),
            "C" => Some(HitPolicy::Collect),
            "C+" => Some(HitPolicy::Sum),
            "C<" => Some(HitPolicy::Least),
            "C>" => Some(HitPolicy::Greatest),
            "C#" => Some(HitPolicy::Count),
            _ => None,
        }
    }

    /// Its text.
    pub fn text(self) -> &'static str
        ensures text { result.now ≡ policy_text self }
        ensures read { policy_of result.now ≡ Some self }
    {
        match self {
            HitPolicy::Unique => "U",
            HitPolicy::Any => "A",
            HitPolicy::Priority => "P",
            HitPolicy::First => "F",
            HitPolicy::OutputOrder => "O",
            HitPolicy::RuleOrder => "R",
            HitPolicy::Collect => "C",
            HitPolicy::Sum => "C+",
            HitPolicy::Least => "C<",
            HitPolicy::Greatest => "C>",
            HitPolicy::Count => "C#",
        }
    }

    /// Whether it makes one number of the outputs.
    pub(crate) fn is_operator(self) -> bool
        ensures { result ≡ makes_a_number self }
    {
        matches!(
            self,
            HitPolicy::Sum | HitPolicy::Least | HitPolicy::Greatest | HitPolicy::Count
        )
    }

    /// Whether it puts the rules that hit in the order of their output values.
    pub fn goes_by_priority(self) -> bool
        ensures { result ≡ by_priority self }
    {
        matches!(self, HitPolicy::Priority | HitPolicy::OutputOrder)
    }
}
