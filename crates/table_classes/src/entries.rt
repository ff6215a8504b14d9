//! Rules, as far as their input entries go.
ghost use Rattle.std.specs.Prelude.{◌≡◌, List, IsTrue};
ghost use Rattle.feel_text.specs.Tests.{Tests as TestsData};
ghost use Rattle.table_classes.specs.Unbroken.{KeepLimits};

use feel_lang::Tests;

/// What has input entries: unary tests, one for each column.
pub trait HasTests {
    ghost tests_of: { Self → List TestsData };

    /// Its input entries.
    fn tests(&self) -> &[Tests]
        ensures { result.now ≡ tests_of self.now };
}

/// Whether each of these input entries is known to break no limit.
pub fn keep_limits(entries: &[Tests]) -> bool
    ensures { IsTrue result → KeepLimits entries.now }
{
    entries.iter().all(|tests| tests.keep_limits())
}
