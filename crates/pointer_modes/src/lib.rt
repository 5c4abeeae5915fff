// Types: pointers with their modes and kinds, structs with their members, and where cells lie.
#![tactic(auto)]

pub mod ctype;
pub mod laws;
pub mod layout;
pub mod structs;
