// Why a run has no ending.

use ckc_text::code::Code;
use ckc_text::fault::NoMemory;
use thiserror::Error;

/// Why a run has no ending.
#[derive(Clone, Copy, Debug, Error)]
pub enum RunFault {
    /// The run needs an act whose line is refused: A1 to A5, at the line of this number, the first being 1.
    #[error("an act line is refused")]
    Line { line: u64, code: Code },
    /// The run needs an act from a file that isn't there.
    #[error("the file of acts is missing")]
    Missing,
    /// The shelf failed.
    #[error("the file of acts can't be read")]
    ShelfFailed,
    /// The sink failed.
    #[error("the output can't be written")]
    SinkFailed,
    /// Memory ran out.
    #[error("out of memory")]
    NoMemory,
}

impl From<NoMemory> for RunFault {
    ghost use Rattle.std.specs.Prelude.{◌≡◌};
    ghost use Rattle.run_core.specs.declared.fault.RunFault.TheVariants.{NoMemory};

    ghost from_gives = { λ _ e. e ≡ NoMemory };

    fn from(_e: NoMemory) -> RunFault {
        RunFault::NoMemory
    }
}
