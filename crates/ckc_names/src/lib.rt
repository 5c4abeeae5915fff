// Whether each name of a program is visible where it stands: a table of the visible names, and a walk over the tree.
#![tactic(auto)]

mod declarations;
mod expressions;
mod given_names;
mod items;
pub mod laws;
mod main_function;
mod mentions;
pub mod name_list;
pub mod named;
mod numbered_expressions;
mod numbered_items;
mod numbered_statements;
pub mod resolve;
mod resolver;
mod statements;
mod table;
