// Why a walk over a program ends early.

ghost use Rattle.std.specs.Prelude.{◌≡◌};
ghost use Rattle.region_typing_rules.specs.Verdicts.{Passes, needs as needs_in, meant as meant_in};
ghost use Rattle.region_typing_scope.specs.Answering.{Answers};

use ckc_text::code::Code;
use ckc_text::fault::{NoMemory, Refused, SourceFault};
use ckc_text::place::Span;
use std::alloc::{AllocError, AllocFailed};
use thiserror::Error;

/// Why a walk over a program ends early.
#[derive(Debug, Drop, Error)]
pub enum CheckError {
    #[error("a rule is broken")]
    Source(SourceFault),
    #[error("a name stands for nothing")]
    Unnamed,
    #[error("out of memory")]
    NoMemory,
}

impl From<NoMemory> for CheckError {
    ghost use Rattle.std.specs.Prelude.{◌≡◌};
    ghost use Rattle.region_typing_scope.specs.declared.refusals.CheckError.TheVariants.{NoMemory};

    ghost from_gives = { λ _ e. e ≡ NoMemory };

    fn from(_e: NoMemory) -> CheckError {
        CheckError::NoMemory
    }
}

impl From<AllocError> for CheckError {
    ghost use Rattle.std.specs.Prelude.{◌≡◌};
    ghost use Rattle.region_typing_scope.specs.declared.refusals.CheckError.TheVariants.{NoMemory};

    ghost from_gives = { λ _ e. e ≡ NoMemory };

    fn from(_e: AllocError) -> CheckError {
        CheckError::NoMemory
    }
}

impl<T: Drop> From<AllocFailed<T>> for CheckError {
    ghost use Rattle.std.specs.Prelude.{◌≡◌};
    ghost use Rattle.region_typing_scope.specs.declared.refusals.CheckError.TheVariants.{NoMemory};

    ghost from_gives = { λ _ e. e ≡ NoMemory };

    fn from(_e: AllocFailed<T>) -> CheckError {
        CheckError::NoMemory
    }
}

impl From<Refused> for CheckError {
    ghost use Rattle.std.specs.Prelude.{◌≡◌};
    ghost use Rattle.region_typing_scope.specs.Errors.{error_of};

    ghost from_gives = { λ refused e. e ≡ error_of refused };

    fn from(refused: Refused) -> CheckError {
        match refused {
            Refused::Source(fault) => CheckError::Source(fault),
            Refused::NoMemory => CheckError::NoMemory,
        }
    }
}

/// The refusal of what stands at a span.
pub fn refusal(code: Code, span: Span) -> CheckError
    ensures { result ≡ CheckError.Source (record { code = code; span = span }) }
{
    CheckError::Source(SourceFault { code, span })
}

/// Refuses what stands at a span where a test fails.
pub fn needs(test: bool, code: Code, span: Span) -> Result<(), CheckError>
    ensures { Answers (λ x. x) (needs_in test code span (Passes tt)) result }
{
    if test {
        Ok(())
    } else {
        Err(refusal(code, span))
    }
}

/// The number that a name stands for.
pub fn meant(number: Option<u32>) -> Result<u32, CheckError>
    ensures { Answers (λ n. n) (meant_in number) result }
{
    match number {
        Some(number) => Ok(number),
        None => Err(CheckError::Unnamed),
    }
}
