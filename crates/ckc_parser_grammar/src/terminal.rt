// Tokens that are always spelled the same.

ghost use Rattle.std.specs.Prelude.{◌≡◌};
ghost use Rattle.ckc_parser_grammar.specs.Terminals.{terminal_of, kind_of, is_terminal, Matches};
ghost use Rattle.ckc_parser_grammar.specs.Answers.{ReadsMark};

use crate::stuck::Stuck;
use ckc_lexer::keyword::Keyword;
use ckc_lexer::token::{Token, TokenKind};
use ckc_text::place::Span;

/// A mark or a word that the grammar asks for.
#[derive(Clone, Copy, PartialEq, Eq)]
pub enum Terminal {
    OpenParen,
    CloseParen,
    OpenBrace,
    CloseBrace,
    OpenBracket,
    CloseBracket,
    Less,
    Greater,
    Comma,
    Star,
    Semicolon,
    Colon,
    Equal,
    Minus,
    Else,
    Void,
    Struct,
}

/// The terminal that a token is, if it is one.
fn terminal_of(kind: &TokenKind) -> Option<Terminal>
    ensures { result ≡ terminal_of kind.now }
{
    match kind {
        TokenKind::OpenParen => Some(Terminal::OpenParen),
        TokenKind::CloseParen => Some(Terminal::CloseParen),
        TokenKind::OpenBrace => Some(Terminal::OpenBrace),
        TokenKind::CloseBrace => Some(Terminal::CloseBrace),
        TokenKind::OpenBracket => Some(Terminal::OpenBracket),
        TokenKind::CloseBracket => Some(Terminal::CloseBracket),
        TokenKind::Less => Some(Terminal::Less),
        TokenKind::Greater => Some(Terminal::Greater),
        TokenKind::Comma => Some(Terminal::Comma),
        TokenKind::Star => Some(Terminal::Star),
        TokenKind::Semicolon => Some(Terminal::Semicolon),
        TokenKind::Colon => Some(Terminal::Colon),
        TokenKind::Equal => Some(Terminal::Equal),
        TokenKind::Minus => Some(Terminal::Minus),
        TokenKind::Keyword(Keyword::Else) => Some(Terminal::Else),
        TokenKind::Keyword(Keyword::Void) => Some(Terminal::Void),
        TokenKind::Keyword(Keyword::Struct) => Some(Terminal::Struct),
        _ => None,
    }
}

/// Whether a token is this terminal.
fn matches(terminal: Terminal, kind: &TokenKind) -> bool
    ensures { Matches terminal kind.now result }
{
    match terminal_of(kind) {
        Some(found) => found == terminal,
        None => false,
    }
}

/// The span of a terminal, which stands next.
pub fn expect(terminal: Terminal, tokens: &mut &[Token]) -> Result<Span, Stuck>
    ensures { ReadsMark (kind_of terminal) (is_terminal terminal) tokens.old.now result tokens.new.now }
{
    match tokens.split_first() {
        Some((token, rest)) if matches(terminal, &token.kind) => {
            *tokens = rest;
            Ok(token.span)
        }
        _ => Err(Stuck::Unexpected),
    }
}
