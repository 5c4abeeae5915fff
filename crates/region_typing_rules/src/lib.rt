// The rules of names, types and regions, and what holds of every program that keeps them.
#![tactic(auto)]

pub mod laws;
