// The trusted memory: bytes at addresses, and blocks that are only ever added.
#![tactic(auto)]

pub mod laws;
pub mod memory;
