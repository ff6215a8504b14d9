//! The parts of lines: names, capacities and tickets.
ghost use Rattle.std.specs.Prelude.{◌≡◌, ◌≢◌, ◌<◌, ◌^◌, ℕ, List, IfSome, IfNone};
ghost use Rattle.serde_json.specs.Data.{string, number, unsigned};
ghost use Rattle.serde_json.specs.View.{view};
ghost use Rattle.desk_wire.specs.Parts.{IsName, IsTicket};

use serde_json::Value;

/// The most bytes of a name.
const MAX_NAME: usize = 64;
/// The most that a ticket may be.
const MAX_TICKET: u64 = 9_223_372_036_854_775_807;

/// A name of 1 to 64 bytes.
pub fn name_in(value: &Value) -> Option<&str>
    ensures found { IfSome result (λ name. (view value.now ≡ string name.now) × IsName name.now) }
    ensures other { IfNone result ((name : List ℕ) → IsName name → view value.now ≢ string name) }
{
    let name = value.as_str()?;
    if name.is_empty() || name.len() > MAX_NAME {
        return None;
    }
    Some(name)
}

/// A capacity of 32 bits.
pub fn capacity_in(value: &Value) -> Option<u32>
    ensures found { IfSome result (λ n. (view value.now ≡ number (unsigned n)) × (n < 2 ^ 32)) }
    ensures other { IfNone result ((n : ℕ) → n < 2 ^ 32 → view value.now ≢ number (unsigned n)) }
{
    let capacity = value.as_u64()?;
    if capacity > u32::MAX as u64 {
        return None;
    }
    Some(capacity as u32)
}

/// A ticket of 63 bits.
pub fn ticket_in(value: &Value) -> Option<u64>
    ensures found { IfSome result (λ n. (view value.now ≡ number (unsigned n)) × IsTicket n) }
    ensures other { IfNone result ((n : ℕ) → IsTicket n → view value.now ≢ number (unsigned n)) }
{
    let ticket = value.as_u64()?;
    if ticket > MAX_TICKET {
        return None;
    }
    Some(ticket)
}
