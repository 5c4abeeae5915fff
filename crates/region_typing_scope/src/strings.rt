// The strings of a program.

ghost use Rattle.std.specs.Prelude.{◌≤◌};

use ckc_tree::text::Text;

/// The strings so far, with those of what is walked.
#[derive(Drop)]
pub struct Strings {
    pub texts: Vec<Text>,
    /// How many file-level variables the program has, behind whose blocks those of strings stand; no more than 4,096 are
    /// counted.
    pub variables: u32,
    /// The bytes that the blocks of variables take so far.
    pub taken: u32,
    ghost few_variables: { variables ≤ 4096 },
    ghost few_bytes: { taken ≤ 32768 },
}
