// The call: words, files and an output to a status.
#![tactic(auto)]

pub mod call;
mod check;
mod exec;
pub mod front;
mod image;
pub mod laws;
mod listing;
pub mod process;
mod program;
mod run;
mod split;
mod words;
