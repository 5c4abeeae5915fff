// The words of the command line, and what answers them beside a run: a line, and the status.
#![tactic(auto)]

mod command_line;
mod inputs;
pub mod laws;
mod numbers;
pub mod output;
pub mod request;
pub mod status;
