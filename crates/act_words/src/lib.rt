// What both sides of a run share: how it is set up, how it ends, what the sandbox does, and what is seen of it.
#![tactic(auto)]

pub mod act;
pub mod ending;
pub mod form;
pub mod laws;
pub mod operator;
pub mod reading;
pub mod row;
pub mod settings;
pub mod writing;
