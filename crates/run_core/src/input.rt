// The input numbers of a run.

ghost use Rattle.run_core.specs.Inputs.{TakesInput};

/// The next input number, and those that are left behind it. Behind the last come zeros.
pub fn next_input(inputs: &[i32]) -> (i32, &[i32])
    ensures { TakesInput inputs.now result.0 result.1.now }
{
    match inputs {
        [] => (0, inputs),
        [number, left @ ..] => (*number, left),
    }
}
