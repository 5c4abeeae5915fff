// Tokens of a source.

use crate::keyword::Keyword;
use ckc_text::listed::Listed;
use ckc_text::name::Name;
use ckc_text::place::Span;

/// Whether the code behind a place stands in a checked scope.
#[derive(Clone, Copy)]
pub enum CheckedScope {
    On,
    Off,
}

/// What a token is: a keyword, something with a value, the scope that a directive leads to, or a mark.
#[derive(Drop)]
pub enum TokenKind {
    /// A keyword.
    Keyword(Keyword),
    /// The bytes of a name.
    Name(Name),
    /// The value of a number, at most 2,147,483,647.
    Number(u32),
    /// The byte of a character constant.
    Character(u8),
    /// The bytes of a string, without quotes and with escapes read.
    Text(Listed<u8>),
    /// The scope that stands from a `#pragma CHECKED_SCOPE` on.
    Scope(CheckedScope),
    OpenBrace,
    CloseBrace,
    OpenParen,
    CloseParen,
    OpenBracket,
    CloseBracket,
    Less,
    Greater,
    LessEqual,
    GreaterEqual,
    EqualEqual,
    NotEqual,
    Equal,
    PlusEqual,
    MinusEqual,
    PlusPlus,
    MinusMinus,
    Plus,
    Minus,
    Star,
    Slash,
    Percent,
    Ampersand,
    AndAnd,
    Bar,
    OrOr,
    Caret,
    Tilde,
    Not,
    ShiftLeft,
    Dot,
    Arrow,
    Comma,
    Semicolon,
    Colon,
}

/// A token and the bytes that spell it. Where a definition made it, these are the bytes of the name that is
/// used.
#[derive(Drop)]
pub struct Token {
    pub kind: TokenKind,
    pub span: Span,
}
