// Where something stands in a source, and what each numbered answer is called.
#![tactic(auto)]

pub mod code;
pub mod fault;
pub mod line_index;
pub mod listed;
pub mod name;
pub mod on_heap;
pub mod place;
