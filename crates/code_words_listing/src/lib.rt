// The listing of an image: a text of lines, and the image that a text spells.
#![tactic(auto)]

mod bytes;
mod drafts;
mod field;
mod instruction_words;
mod instructions;
pub mod laws;
mod line_words;
mod lines;
pub mod listing;
mod pace;
mod read_lines;
pub mod read_listing;
mod states;
mod words;
