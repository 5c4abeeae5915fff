// What is known behind conditions, assignments and the ends of scopes, and what is read off expressions for it.
#![tactic(auto)]

pub mod conditions;
pub mod counts;
pub mod readings;
pub mod sources;
pub mod steps;
