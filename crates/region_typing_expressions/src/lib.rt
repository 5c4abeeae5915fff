// What an expression or an assignment is by the rules of types, where the names around it are known.
#![tactic(auto)]

pub mod allocations;
pub mod argument_bounds;
pub mod assignments;
pub mod calls;
mod casts;
mod equality;
pub mod expressions;
mod members;
mod operand_tests;
mod operators;
mod places;
