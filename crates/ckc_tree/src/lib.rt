// The syntax tree of a source.
#![tactic(auto)]

pub mod cursor;
pub mod expr;
pub mod expression_texts;
pub mod identifier;
pub mod item;
pub mod laws;
pub mod placement;
pub mod statement_texts;
pub mod stmt;
pub mod text;
pub mod type_form;
