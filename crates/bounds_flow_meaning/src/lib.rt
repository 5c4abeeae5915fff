// What a flow says of a state of a run, and that each of its steps keeps it.
#![tactic(auto)]

pub mod laws;
