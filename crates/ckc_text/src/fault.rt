// Why a source is refused.

ghost use Rattle.std.specs.Prelude.{◌≡◌};
ghost use Rattle.ckc_text.specs.Refusals.{not_built};

use crate::code::Code;
use crate::place::Span;
use std::alloc::{AllocError, AllocFailed};
use thiserror::Error;

/// Memory ran out.
#[derive(Clone, Copy, Debug, PartialEq, Eq)]
pub struct NoMemory;

impl From<AllocError> for NoMemory {
    fn from(_e: AllocError) -> NoMemory {
        NoMemory
    }
}

impl<T: Drop> From<AllocFailed<T>> for NoMemory {
    fn from(_e: AllocFailed<T>) -> NoMemory {
        NoMemory
    }
}

/// What is wrong with a source, and where.
#[derive(Clone, Copy, Debug, PartialEq, Eq)]
pub struct SourceFault {
    pub code: Code,
    pub span: Span,
}

/// Why the front end gave no answer.
#[derive(Debug, Drop, Error)]
pub enum Refused {
    #[error("the source is refused")]
    Source(SourceFault),
    #[error("out of memory")]
    NoMemory,
}

impl From<NoMemory> for Refused {
    ghost use Rattle.std.specs.Prelude.{◌≡◌};
    ghost use Rattle.ckc_text.specs.declared.fault.Refused.TheVariants.{NoMemory};

    ghost from_gives = { λ _ e. e ≡ NoMemory };

    fn from(_e: NoMemory) -> Refused {
        Refused::NoMemory
    }
}

impl From<AllocError> for Refused {
    ghost use Rattle.std.specs.Prelude.{◌≡◌};
    ghost use Rattle.ckc_text.specs.declared.fault.Refused.TheVariants.{NoMemory};

    ghost from_gives = { λ _ e. e ≡ NoMemory };

    fn from(_e: AllocError) -> Refused {
        Refused::NoMemory
    }
}

impl<T: Drop> From<AllocFailed<T>> for Refused {
    ghost use Rattle.std.specs.Prelude.{◌≡◌};
    ghost use Rattle.ckc_text.specs.declared.fault.Refused.TheVariants.{NoMemory};

    ghost from_gives = { λ _ e. e ≡ NoMemory };

    fn from(_e: AllocFailed<T>) -> Refused {
        Refused::NoMemory
    }
}

impl Refused {
    /// The refusal of a source by this code, at these bytes.
    pub fn at(code: Code, span: Span) -> Refused
        ensures { result ≡ Refused.Source (record { code = code; span = span }) }
    {
        Refused::Source(SourceFault { code, span })
    }

    /// The refusal of what stands outside the language: E09 at the start of the source.
    pub fn not_built() -> Refused
        ensures { result ≡ Refused.Source not_built }
    {
        Refused::at(Code::E09, Span { from: 0, to: 0 })
    }
}
