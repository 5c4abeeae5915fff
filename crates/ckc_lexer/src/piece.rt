// What a source is made of: blanks, comments, tokens, directives, and what can't be read.

use crate::token::TokenKind;
use ckc_text::code::Code;
use ckc_text::name::Name;

/// What a name stands for: a number, with or without a minus before it.
#[derive(Drop)]
pub struct Definition {
    pub name: Name,
    pub negative: bool,
    pub value: u32,
}

/// The word of a `#pragma CHECKED_SCOPE`.
#[derive(Clone, Copy)]
pub enum ScopeWord {
    On,
    Off,
    Push,
    Pop,
}

/// What stands at the front of a text.
#[derive(Drop)]
pub enum Piece {
    /// A blank or a comment, and whether a line ends in it.
    Gap(bool),
    /// A token other than a name.
    Lexeme(TokenKind),
    /// A name, which may stand for a number.
    Named(Name),
    /// A line that is left out.
    Include,
    Define(Definition),
    Scope(ScopeWord),
    /// A comment that can't be read.
    CommentFault(Code),
    /// Something that holds a byte which may not stand there.
    Forbidden,
    /// Something else that can't be read.
    Fault(Code),
}
