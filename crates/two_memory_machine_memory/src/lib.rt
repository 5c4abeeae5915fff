// What the machine computes with numbers and words, and what it keeps in memory: the frames of its open calls, and both
// memories at their start. Bounds and texts are checked here too, and what crosses into callbacks, without a machine's state.
#![tactic(auto)]

pub mod arithmetic;
pub mod blocks;
pub mod bounds;
pub mod callbacks;
pub mod calls;
pub mod limits;
pub mod memory;
pub mod texts;
