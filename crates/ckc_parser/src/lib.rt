// From the tokens of a source to its tree.
#![tactic(auto)]

mod bounds;
mod build;
mod declarations;
mod expressions;
mod items;
mod operand;
pub mod parser;
mod primary;
mod statements;
mod types;
