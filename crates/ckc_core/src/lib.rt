// Programs whose names and types are resolved, and what they mean.
#![tactic(auto)]

pub mod char_cells;
pub mod laws;
pub mod program;
