ghost use Rattle.std.specs.Prelude.{◌≡◌};

use std::alloc::AllocError;

/// Why a text has no tokens. A place is the offset of a byte, from 0 on.
#[derive(Clone, Copy, Debug, PartialEq, Eq)]
pub enum LexFault {
    /// The opening quote.
    UnclosedQuote(usize),
    /// The `%` or `$` before the brace.
    UnclosedBrace(usize),
    /// A byte that begins no token, or the first byte that begins no sequence of UTF-8.
    StrayByte(usize),
    /// More than 65,536 bytes.
    TooLong,
    NoMemory,
}

impl From<AllocError> for LexFault {
    ghost use Rattle.tow_lex.specs.declared.fault.LexFault.TheVariants.{NoMemory};

    ghost from_gives = { λ _ fault. fault ≡ NoMemory };

    fn from(_error: AllocError) -> LexFault {
        LexFault::NoMemory
    }
}
