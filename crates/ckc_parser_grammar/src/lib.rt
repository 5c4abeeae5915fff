// The grammar of the language: which tokens spell which tree, how far tokens begin one, and what holds of both.
#![tactic(auto)]

pub mod depth;
pub mod faults;
pub mod kinds;
pub mod laws;
pub mod operators;
pub mod spans;
pub mod stuck;
pub mod terminal;
pub mod tokens;
pub mod words;
