ghost use Rattle.std.specs.Prelude.{◌≡◌};

use std::alloc::AllocError;

/// Why tokens are no tree. A place is the offset of a byte of the text, from 0 on.
#[derive(Clone, Copy, Debug, PartialEq, Eq)]
pub enum ParseFault {
    Unexpected(usize),
    TooDeep(usize),
    UnknownName(usize),
    BadParameter(usize),
    BadAttribute(usize),
    BadTarget(usize),
    TooManyLimits(usize),
    NoMemory,
}

impl From<AllocError> for ParseFault {
    ghost use Rattle.tow_fit.specs.declared.fault.ParseFault.TheVariants.{NoMemory};

    ghost from_gives = { λ _ fault. fault ≡ NoMemory };

    fn from(_error: AllocError) -> ParseFault {
        ParseFault::NoMemory
    }
}
