ghost use Rattle.std.specs.Prelude.{◌≡◌};

use std::alloc::AllocError;

/// Why a text is no template.
#[derive(Clone, Copy, Debug, PartialEq, Eq)]
pub enum TemplateFault {
    /// The offset of the `%` or `$` with which no attribute begins.
    BadAttribute(usize),
    NoMemory,
}

impl From<AllocError> for TemplateFault {
    ghost use Rattle.tow_attr.specs.declared.fault.TemplateFault.TheVariants.{NoMemory};

    ghost from_gives = { λ _ fault. fault ≡ NoMemory };

    fn from(_error: AllocError) -> TemplateFault {
        TemplateFault::NoMemory
    }
}
