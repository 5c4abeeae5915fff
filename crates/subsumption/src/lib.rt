// Facts that say of two terms that the one is at most the other, and what follows from them.
#![tactic(auto)]

mod answers;
pub mod fact;
pub mod facts;
pub mod laws;
mod matrix;
mod numbers;
mod relaxation;
mod row;
pub mod search;
mod walks;
