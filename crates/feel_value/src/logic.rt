//! The three-valued logic.
ghost use Rattle.std.specs.Prelude.{◌≡◌};
ghost use Rattle.feel_value.specs.Logic.{decided as decided_of, and_of, or_of, not_of};

/// The three truth values. As values they are true, false and null.
#[derive(Clone, Copy, PartialEq, Eq, Debug)]
pub enum Truth {
    Yes,
    No,
    Unknown,
}

/// The answer of a test that is never unknown: `Yes` where it holds, otherwise `No`.
pub fn decided(holds: bool) -> Truth
    ensures { result ≡ decided_of holds }
{
    if holds { Truth::Yes } else { Truth::No }
}

/// `No` where one side is `No`, `Yes` where both are `Yes`, otherwise `Unknown`.
pub fn and3(p: Truth, q: Truth) -> Truth
    ensures { result ≡ and_of p q }
{
    match (p, q) {
        (Truth::No, _) | (_, Truth::No) => Truth::No,
        (Truth::Yes, Truth::Yes) => Truth::Yes,
        _ => Truth::Unknown,
    }
}

/// `Yes` where one side is `Yes`, `No` where both are `No`, otherwise `Unknown`.
pub fn or3(p: Truth, q: Truth) -> Truth
    ensures { result ≡ or_of p q }
{
    match (p, q) {
        (Truth::Yes, _) | (_, Truth::Yes) => Truth::Yes,
        (Truth::No, Truth::No) => Truth::No,
        _ => Truth::Unknown,
    }
}

/// `Yes` and `No` exchanged; `Unknown` stays.
pub fn not3(p: Truth) -> Truth
    ensures { result ≡ not_of p }
{
    match p {
        Truth::Yes => Truth::No,
        Truth::No => Truth::Yes,
        Truth::Unknown => Truth::Unknown,
    }
}
