// The partition: which side each function and each file-level variable of a program stands on.
#![tactic(auto)]

pub mod laws;
pub mod parts;
pub mod split;
