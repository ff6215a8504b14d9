//! Laws of reading, for every text. These functions do nothing: what counts is what they ensure.

ghost use Rattle.std.specs.Prelude.{◌≡◌, List, ℕ, Some};
ghost use Rattle.feel_value.specs.Datum.{Datum};
ghost use Rattle.feel_text.specs.Expr as expr_specs;
ghost use Rattle.feel_text.specs.Readings.{expr_of, tests_of, literal_of};
ghost use Rattle.feel_text.specs.Spells.{Spells, SpellsTests, SpellsLiteral};
ghost use Rattle.feel_text.specs.Tests as tests_specs;

/// The function `expr_of` gives an expression exactly where the grammar has the text spell it.
pub fn expressions_by_the_grammar()
    ensures given { (text : List ℕ) (e : expr_specs.Expr) → expr_of text ≡ Some e → Spells text e }
    ensures spelled { (text : List ℕ) (e : expr_specs.Expr) → Spells text e → expr_of text ≡ Some e }
{}

/// The function `tests_of` gives unary tests exactly where the grammar has the text spell them.
pub fn tests_by_the_grammar()
    ensures given { (text : List ℕ) (t : tests_specs.Tests) → tests_of text ≡ Some t → SpellsTests text t }
    ensures spelled { (text : List ℕ) (t : tests_specs.Tests) → SpellsTests text t → tests_of text ≡ Some t }
{}

/// The function `literal_of` gives a value exactly where the grammar has the text spell it.
pub fn literals_by_the_grammar()
    ensures given { (text : List ℕ) (d : Datum) → literal_of text ≡ Some d → SpellsLiteral text d }
    ensures spelled { (text : List ℕ) (d : Datum) → SpellsLiteral text d → literal_of text ≡ Some d }
{}
