// The rules of declarations and statements, and what these become.
#![tactic(auto)]

mod assigned;
mod bundles;
pub mod changes;
mod core_forms;
mod declarations;
mod heads;
mod initial_values;
pub mod local_arrays;
pub mod marks;
mod simple_statements;
pub mod statements;
mod zero_values;
