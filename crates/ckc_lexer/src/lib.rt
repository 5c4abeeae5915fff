// From the bytes of a source to its tokens.
#![tactic(auto)]

mod definitions;
mod directive;
mod front;
pub mod keyword;
mod keywords;
pub mod laws;
pub mod lexer;
pub mod limits;
mod line;
mod mark;
mod number;
pub mod piece;
mod pieces;
mod quoted;
mod run;
pub mod token;
mod word;
