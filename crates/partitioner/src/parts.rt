// The two sides of a program.

/// The numbers of functions and of file-level variables on each side, and those of the functions that the sandbox may
/// call, all in the order of the source.
#[derive(Drop)]
pub struct Parts {
    pub trusted: Vec<usize>,
    pub sandbox: Vec<usize>,
    pub trusted_objects: Vec<usize>,
    pub sandbox_objects: Vec<usize>,
    pub callbacks: Vec<usize>,
}
