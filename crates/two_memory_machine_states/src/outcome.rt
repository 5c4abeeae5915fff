// What an instruction did, where that is told in one word.

/// What an instruction did that neither writes nor waits for a number.
#[derive(Clone, Copy)]
pub enum Outcome {
    /// Nothing that can be seen.
    Ran,
    /// Its touch waits for an act.
    Asks,
    /// It ended the run, as the machine says.
    Ended,
}
