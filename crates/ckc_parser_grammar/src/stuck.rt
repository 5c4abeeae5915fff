// Why a form could not be read.

use ckc_text::fault::NoMemory;
use std::alloc::{AllocError, AllocFailed};

/// Why a form could not be read. Reading stopped before the tokens that are left then.
#[derive(Clone, Copy)]
pub enum Stuck {
    /// No form goes on with the first token that is left, or ends where none is.
    Unexpected,
    /// The node that starts at this byte has depth 201.
    TooDeep { start: u32 },
    NoMemory,
}

impl From<NoMemory> for Stuck {
    ghost use Rattle.std.specs.Prelude.{◌≡◌};
    ghost use Rattle.ckc_parser_grammar.specs.declared.stuck.Stuck.TheVariants.{NoMemory};

    ghost from_gives = { λ _ e. e ≡ NoMemory };

    fn from(_e: NoMemory) -> Stuck {
        Stuck::NoMemory
    }
}

impl From<AllocError> for Stuck {
    ghost use Rattle.std.specs.Prelude.{◌≡◌};
    ghost use Rattle.ckc_parser_grammar.specs.declared.stuck.Stuck.TheVariants.{NoMemory};

    ghost from_gives = { λ _ e. e ≡ NoMemory };

    fn from(_e: AllocError) -> Stuck {
        Stuck::NoMemory
    }
}

impl<T: Drop> From<AllocFailed<T>> for Stuck {
    ghost use Rattle.std.specs.Prelude.{◌≡◌};
    ghost use Rattle.ckc_parser_grammar.specs.declared.stuck.Stuck.TheVariants.{NoMemory};

    ghost from_gives = { λ _ e. e ≡ NoMemory };

    fn from(_e: AllocFailed<T>) -> Stuck {
        Stuck::NoMemory
    }
}
