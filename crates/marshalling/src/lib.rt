// Words that cross between the sides: what they stand for, and which may cross.
#![tactic(auto)]

pub mod arguments;
pub mod ends;
pub mod fault;
pub mod kind;
pub mod reply;
pub mod signature;
