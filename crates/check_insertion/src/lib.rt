// A core with its checks: each access has those that it needs, as parts of the tree, and no pointer has bounds any more.
#![tactic(auto)]

pub mod checks;
pub mod copies;
pub mod erased;
pub mod expressions;
pub mod insert;
pub mod laws;
pub mod statements;
