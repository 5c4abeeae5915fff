// How a run ends.

use ckc_text::code::Code;
use ckc_text::place::Place;

/// How a run ends.
#[derive(Clone, Copy)]
pub enum Ending {
    /// `main` returned a number.
    Exit { value: i32 },
    /// A check failed, at a place of the source.
    Check { code: Code, place: Place },
    /// The run was stopped, some stops by the act of this number.
    Stop { code: Code, act: Option<u64> },
}
