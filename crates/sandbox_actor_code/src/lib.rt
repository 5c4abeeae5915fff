// The sandbox's own code as an actor: it runs the functions of an image, of which loads, stores, callbacks and returns to the
// trusted side are acts.
#![tactic(auto)]

mod actor;
mod acts;
mod call_frame;
mod calls;
pub mod code_actor;
mod find;
pub mod laws;
mod operations;
mod running;
mod sights;
mod start;
mod waiting_calls;
