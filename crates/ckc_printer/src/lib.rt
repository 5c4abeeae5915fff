// A tree, printed as a source.
#![tactic(auto)]

mod assignments;
mod declarations;
mod expressions;
mod items;
pub mod laws;
pub mod operands;
pub mod operator_texts;
mod output;
pub mod program;
mod quoted;
mod signs;
mod statements;
mod types;
