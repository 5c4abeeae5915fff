// Code: instructions, functions and images.
#![tactic(auto)]

pub mod examples;
mod fits;
pub mod image;
pub mod laws;
pub mod op;
