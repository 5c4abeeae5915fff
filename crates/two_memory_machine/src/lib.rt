// The machine that runs an image, as everything above it sees it.
#![tactic(auto)]

mod acts;
mod bounds;
mod families;
pub mod machine;
mod memory;
mod operations;
mod running;
mod stack;
mod together;
mod told;
mod touches;

pub use two_memory_machine_states::event;
