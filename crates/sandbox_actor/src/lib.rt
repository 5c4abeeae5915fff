// Who acts in the sandbox: what an actor is, the one that gives the acts of a file, and one that keeps the acts of another.
#![tactic(auto)]

pub mod actor;
pub mod laws;
mod lines;
pub mod list_actor;
pub mod recording_actor;
pub mod recording_laws;
