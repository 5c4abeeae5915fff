// The lines that are printed: of what was seen, written and released in a run, of its ending and its blocks, and of what
// kept a program from being run; and the acts of a run as a list, and as the lines of an act file.
#![tactic(auto)]

pub mod act_list;
pub mod diagnostics;
pub mod endings;
pub mod laws;
pub mod lines;
