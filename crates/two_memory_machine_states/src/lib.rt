// The machine that runs an image: its memories, its open calls, and what single steps and acts do to them.
#![tactic(auto)]

pub mod acts;
mod ahead;
mod callbacks;
pub mod event;
pub mod outcome;
mod output;
pub mod running_image;
mod touches;
mod transfers;
