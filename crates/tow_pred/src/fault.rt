//! Why the patterns of a tree are not built.

ghost use Rattle.std.specs.Prelude.{◌≡◌};

use std::alloc::AllocError;

/// Why the patterns of a tree are not built. A test is named by its number.
#[derive(Clone, Copy, Debug, PartialEq, Eq)]
pub enum PatternFault {
    /// The pattern of the test is not in the grammar of `regex`, or is nested deeper than that allows.
    BadPattern(u32),
    /// The pattern of the test is larger than the maker builds.
    LargePattern(u32),
    NoMemory,
}

impl From<AllocError> for PatternFault {
    ghost use Rattle.tow_pred.specs.declared.fault.PatternFault.{PatternFault};

    ghost from_gives = { λ _ fault. fault ≡ PatternFault.NoMemory };

    fn from(_error: AllocError) -> PatternFault {
        PatternFault::NoMemory
    }
}
