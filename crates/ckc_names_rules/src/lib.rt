// What is said of names: the definitions, and the single rules that a walk over a program keeps them by.
#![tactic(auto)]

pub mod given;
pub mod meaning;
pub mod refusals;
