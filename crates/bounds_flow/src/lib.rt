// What the checker knows at a point of a function: facts, and of each pointer its bounds in force.
#![tactic(auto)]

mod changes;
mod effects;
pub mod flow;
pub mod held;
pub mod laws;
mod lengths;
mod settling;
pub mod steps;
mod tables;
