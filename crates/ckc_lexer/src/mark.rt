// Marks of a source, and what is none.

ghost use Rattle.std.specs.Prelude.{◌≡◌};
ghost use Rattle.ckc_lexer.specs.Marks.{long_mark, short_mark, mark_piece};

use crate::front::is_forbidden;
use crate::piece::Piece;
use crate::token::TokenKind;
use ckc_text::code::Code;

/// The mark of two bytes that a text begins with.
pub fn long_mark(text: &[u8]) -> Option<TokenKind>
    ensures { result ≡ long_mark text.now }
{
    match text {
        [b'<', b'=', ..] => Some(TokenKind::LessEqual),
        [b'>', b'=', ..] => Some(TokenKind::GreaterEqual),
        [b'=', b'=', ..] => Some(TokenKind::EqualEqual),
        [b'!', b'=', ..] => Some(TokenKind::NotEqual),
        [b'+', b'=', ..] => Some(TokenKind::PlusEqual),
        [b'-', b'=', ..] => Some(TokenKind::MinusEqual),
        [b'+', b'+', ..] => Some(TokenKind::PlusPlus),
        [b'-', b'-', ..] => Some(TokenKind::MinusMinus),
        [b'&', b'&', ..] => Some(TokenKind::AndAnd),
        [b'|', b'|', ..] => Some(TokenKind::OrOr),
        [b'<', b'<', ..] => Some(TokenKind::ShiftLeft),
        [b'-', b'>', ..] => Some(TokenKind::Arrow),
        _ => None,
    }
}

/// The mark of one byte that a text begins with.
pub fn short_mark(text: &[u8]) -> Option<TokenKind>
    ensures { result ≡ short_mark text.now }
{
    match text {
        [b'{', ..] => Some(TokenKind::OpenBrace),
        [b'}', ..] => Some(TokenKind::CloseBrace),
        [b'(', ..] => Some(TokenKind::OpenParen),
        [b')', ..] => Some(TokenKind::CloseParen),
        [b'[', ..] => Some(TokenKind::OpenBracket),
        [b']', ..] => Some(TokenKind::CloseBracket),
        [b'<', ..] => Some(TokenKind::Less),
        [b'>', ..] => Some(TokenKind::Greater),
        [b'=', ..] => Some(TokenKind::Equal),
        [b'+', ..] => Some(TokenKind::Plus),
        [b'-', ..] => Some(TokenKind::Minus),
        [b'*', ..] => Some(TokenKind::Star),
        [b'/', ..] => Some(TokenKind::Slash),
        [b'%', ..] => Some(TokenKind::Percent),
        [b'&', ..] => Some(TokenKind::Ampersand),
        [b'|', ..] => Some(TokenKind::Bar),
        [b'^', ..] => Some(TokenKind::Caret),
        [b'~', ..] => Some(TokenKind::Tilde),
        [b'!', ..] => Some(TokenKind::Not),
        [b'.', ..] => Some(TokenKind::Dot),
        [b',', ..] => Some(TokenKind::Comma),
        [b';', ..] => Some(TokenKind::Semicolon),
        [b':', ..] => Some(TokenKind::Colon),
        _ => None,
    }
}

/// What stands at the front of a text where no blank, comment, word, quote or `#` does, and its length.
pub fn mark_piece(text: &[u8]) -> (Piece, usize)
    ensures { result ≡ mark_piece text.now }
{
    if let [b, ..] = text
        && is_forbidden(*b)
    {
        return (Piece::Forbidden, 1);
    }
    if let Some(kind) = long_mark(text) {
        return (Piece::Lexeme(kind), 2);
    }
    if let Some(kind) = short_mark(text) {
        return (Piece::Lexeme(kind), 1);
    }
    (Piece::Fault(Code::E02), 1)
}
