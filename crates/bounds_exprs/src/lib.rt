// The bounds that are written for pointers, and the terms that their ends come to.
#![tactic(auto)]

pub mod changes;
pub mod expression;
pub mod form;
pub mod laws;
pub mod names;
pub mod normalize;
pub mod term;
