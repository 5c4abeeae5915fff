// Bytes of a flat memory, read and written as little-endian words, and the places of its blocks.
#![tactic(auto)]

pub mod blocks;
pub mod laws;
pub mod words;
