// Words of a source: keywords, names and numbers.

ghost use Rattle.std.specs.Prelude.{◌≡◌, true, IfOk, length, map};
ghost use Rattle.std.specs.List.{prefix_len};
ghost use Rattle.ckc_lexer.specs.Keywords.{spelled};
ghost use Rattle.ckc_text.specs.Names.{is_digit, is_word_byte, begins_with};
ghost use Rattle.ckc_lexer.specs.Words.{keywords, listed, number_of, number_piece, word_piece};

use crate::keyword::Keyword;
use crate::keywords::KEYWORDS;
use crate::number::number_of;
use crate::piece::Piece;
use crate::token::TokenKind;
use ckc_text::fault::NoMemory;
use ckc_text::name::Name;
use std::alloc::Global;

/// The keyword of a table that a word is.
fn listed(word: &[u8], table: &[(&[u8], Keyword)]) -> Option<Keyword>
    ensures { result ≡ listed word.now (map spelled table.now) }
{
    for (text, keyword) in table {
        if word == *text {
            return Some(*keyword);
        }
    }
    None
}

/// The keyword that a word is.
pub fn keyword(word: &[u8]) -> Option<Keyword>
    ensures { result ≡ listed word.now keywords }
{
    listed(word, &KEYWORDS)
}

fn number_piece(word: &[u8]) -> Piece
    ensures { result ≡ number_piece (number_of word.now) }
{
    match number_of(word) {
        Ok(value) => Piece::Lexeme(TokenKind::Number(value)),
        Err(code) => Piece::Fault(code),
    }
}

/// Whether a text begins with a digit.
pub fn begins_with_digit(text: &[u8]) -> bool
    ensures { result ≡ begins_with is_digit text.now }
{
    matches!(text, [b'0'..=b'9', ..])
}

/// What letters and digits are, taken to their end.
pub fn word_piece(alloc: Global, word: &[u8]) -> Result<Piece, NoMemory>
    requires starts { begins_with is_word_byte word.now ≡ true }
    requires whole { prefix_len is_word_byte word.now ≡ length word.now }
    ensures { IfOk result (λ piece. piece ≡ word_piece word.now) }
{
    if begins_with_digit(word) {
        return Ok(number_piece(word));
    }
    match keyword(word) {
        Some(keyword) => Ok(Piece::Lexeme(TokenKind::Keyword(keyword))),
        None => Ok(Piece::Named(Name::from_slice(alloc, word)?)),
    }
}
