// A whole run of an image: its machine, who acts in the sandbox, and the text that tells of it.
#![tactic(auto)]

mod ask;
mod dump;
pub mod fault;
mod finish;
mod input;
pub mod laws;
mod play;
pub mod run;
mod texts;
mod touch;
mod transcript;
