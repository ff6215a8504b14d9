//! Names that are compared quickly.
ghost use Rattle.std.specs.Prelude.{◌≡◌, IfOk, IsTrue, true, bytes_eq, string_bytes};
ghost use Rattle.feel_text.specs.Packed.{IsPacked};

use std::alloc::AllocError;
use std::fmt;
use std::marker::Model;

/// A name. Two names of at most eight bytes are compared as two numbers.
#[derive(Drop)]
pub struct Name {
    text: String,
    // Its bytes as one number; zero where they are more than eight.
    packed: u64,
}

impl Model for Name {
    ghost use Rattle.std.specs.Prelude.{List, ℕ, string_bytes};
    ghost use Rattle.std.specs.Coded.{coded_list, coded_ℕ};

    ghost Value = { List ℕ };

    ghost coded = { coded_list coded_ℕ };

    ghost use Rattle.feel_text.specs.Packed.{IsPacked};

    ghost view = { λ n. string_bytes n.text };

    ghost invariant = { λ n. IsPacked n.packed (string_bytes n.text) };
}

impl Name {
    /// The name that a text is.
    pub(crate) fn of(text: String) -> Name
        ensures { result ≡ string_bytes text }
    {
        let packed = packed(text.as_bytes());
        Name { text, packed }
    }

    /// The text of the name.
    pub fn as_str(&self) -> &str
        ensures { result.now ≡ self.now }
    {
        self.text.as_str()
    }

    /// Whether it is the same as another.
    pub fn is(&self, other: &Name) -> bool
        ensures { result ≡ bytes_eq self.now other.now }
    {
        if self.is_at_once(other) {
            return true;
        }
        is_same_text(&self.text, &other.text)
    }

    /// Whether it is known to be the same as another with no look at their bytes. Of names of more than eight it is not.
    #[inline(always)]
    pub fn is_at_once(&self, other: &Name) -> bool
        ensures { IsTrue result → bytes_eq self.now other.now ≡ true }
    {
        self.packed != 0 && self.packed == other.packed && self.text.len() == other.text.len()
    }

    /// A copy.
    pub(crate) fn try_clone(&self) -> Result<Name, AllocError>
        ensures { IfOk result (λ n. n ≡ self.now) }
    {
        Ok(Name {
            text: self.text.clone()?,
            packed: self.packed,
        })
    }
}

/// It is shown as its text.
impl fmt::Debug for Name {
    fn fmt<W: fmt::Write>(&self, f: &mut fmt::Formatter<W>) -> fmt::Result {
        let name = self.text.as_str();
        write!(f, "{name:?}")
    }
}

// The bytes as one number; zero where they are more than eight.
fn packed(bytes: &[u8]) -> u64
    ensures { IsPacked result bytes.now }
{
    let mut number = 0;
    for &byte in bytes {
        if number >= 1 << 56 {
            return 0;
        }
        number = number * 256 + u64::from(byte);
    }
    number
}

// Longer names take this call.
#[inline(never)]
fn is_same_text(text: &String, other: &String) -> bool
    ensures { result ≡ bytes_eq (string_bytes text.now) (string_bytes other.now) }
{
    text.as_str() == other.as_str()
}
