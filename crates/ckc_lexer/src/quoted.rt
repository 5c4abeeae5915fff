// What stands between quotes.

ghost use Rattle.std.specs.Prelude.{◌≡◌, ◌+◌, ◌<◌, ◌≤◌, length, IfOk, IfSome};
ghost use Rattle.std.specs.Option.{option_map};
ghost use Rattle.std.specs.Prelude.{ℕ, List, Option, take};
ghost use Rattle.std.specs.List.{list_any};
ghost use Rattle.ckc_lexer.specs.Bytes.{is_hexadecimal_digit, is_control, is_forbidden};
ghost use Rattle.ckc_lexer.specs.Runs.{Extent};
ghost use Rattle.ckc_lexer.specs.declared.run.Run.TheVariants.{Quoted};
ghost use Rattle.ckc_lexer.specs.Pieces.{is_quote, IsString, IsCharacter};
ghost use Rattle.ckc_lexer.specs.Quoted.{simple_escape, hexadecimal_escape, escape, quoted_byte, IsContent, string_piece, one_byte, character_piece};

use crate::front::{is_control, is_forbidden};
use crate::number::digit_value;
use crate::piece::Piece;
use crate::run::{Run, extent};
use crate::token::TokenKind;
use ckc_text::code::Code;
use ckc_text::fault::NoMemory;
use ckc_text::listed::Listed;
use std::alloc::Global;

/// The byte that a backslash and this byte are, and how many bytes the escape takes.
fn simple_escape(b: u8) -> Option<(u8, usize)>
    ensures byte { result ≡ simple_escape b }
    ensures len { IfSome result (λ found. found.1 ≡ 2) }
{
    match b {
        b'n' => Some((b'\n', 2)),
        b't' => Some((b'\t', 2)),
        b'r' => Some((b'\r', 2)),
        b'0' => Some((0, 2)),
        b'\\' => Some((b'\\', 2)),
        b'\'' => Some((b'\'', 2)),
        b'"' => Some((b'"', 2)),
        _ => None,
    }
}

fn is_hexadecimal_digit(b: u8) -> bool
    ensures { result ≡ is_hexadecimal_digit b }
{
    b.is_ascii_hexdigit()
}

/// The escape by two hexadecimal digits, by what follows its `x`.
fn hexadecimal_escape(text: &[u8]) -> Option<(u8, usize)>
    ensures byte { result ≡ hexadecimal_escape text.now }
    ensures within { IfSome result (λ found. (found.1 ≡ 4) × (2 ≤ length text.now)) }
{
    match text {
        [high, low, ..] if is_hexadecimal_digit(*high) && is_hexadecimal_digit(*low) => {
            Some((16 * digit_value(*high) + digit_value(*low), 4))
        }
        _ => None,
    }
}

/// The escape, by what follows its backslash.
fn escape(text: &[u8]) -> Option<(u8, usize)>
    ensures byte { result ≡ escape text.now }
    ensures within { IfSome result (λ found. (0 < found.1) × (found.1 ≤ 1 + length text.now)) }
{
    match text {
        [b'x', rest @ ..] => hexadecimal_escape(rest),
        [b, ..] => simple_escape(*b),
        [] => None,
    }
}

/// The byte that stands first between quotes, itself or by an escape, and how many bytes it takes.
fn quoted_byte(text: &[u8]) -> Option<(u8, usize)>
    ensures byte { result ≡ quoted_byte text.now }
    ensures within { IfSome result (λ found. (0 < found.1) × (found.1 ≤ length text.now)) }
{
    match text {
        [b'\\', rest @ ..] => escape(rest),
        [b, ..] => Some((*b, 1)),
        [] => None,
    }
}

/// What a text between quotes means, if each escape in it is one.
fn content(alloc: Global, text: &[u8]) -> Result<Option<Vec<u8>>, NoMemory>
    ensures { IfOk result (λ content. IsContent text.now (option_map (λ bytes. bytes.items) content)) }
{
    let mut bytes = Vec::new(alloc);
    let mut at = 0;
    while at < text.len() {
        let Some((b, len)) = quoted_byte(&text[at..]) else {
            return Ok(None);
        };
        bytes.push(b)?;
        at += len;
    }
    Ok(Some(bytes))
}

/// What a string is, by whether it is closed on its line.
fn string_piece(forbidden: bool, content: Option<Vec<u8>>, closed: bool) -> Piece
    ensures { result ≡ string_piece forbidden (option_map (λ bytes. bytes.items) content) closed }
{
    match (forbidden, content) {
        (true, _) => Piece::Forbidden,
        (false, None) => Piece::Fault(Code::E02),
        (false, Some(bytes)) if closed => Piece::Lexeme(TokenKind::Text(Listed::from_vec(bytes))),
        (false, Some(_)) => Piece::Fault(Code::E03),
    }
}

/// What a closed character constant of these bytes is.
fn one_byte(bytes: &[u8]) -> Piece
    ensures { result ≡ one_byte bytes.now }
{
    match bytes {
        [b] => Piece::Lexeme(TokenKind::Character(*b)),
        _ => Piece::Fault(Code::E02),
    }
}

/// What a character constant is, by whether it is closed on its line.
fn character_piece(forbidden: bool, content: Option<Vec<u8>>, closed: bool) -> Piece
    ensures { result ≡ character_piece forbidden (option_map (λ bytes. bytes.items) content) closed }
{
    match (forbidden, content) {
        (true, _) => Piece::Forbidden,
        (false, None) => Piece::Fault(Code::E02),
        (false, Some(bytes)) if closed => one_byte(&bytes),
        (false, Some(_)) => Piece::Fault(Code::E03),
    }
}

/// Whether a text begins with this quote.
fn is_quote(quote: u8, text: &[u8]) -> bool
    ensures { result ≡ is_quote quote text.now }
{
    matches!(text, [b, ..] if *b == quote)
}

pub fn has_control(bytes: &[u8]) -> bool
    ensures { result ≡ list_any is_control bytes.now }
{
    for b in bytes {
        if is_control(*b) {
            return true;
        }
    }
    false
}

/// What stands at a string's quote, by the text behind it, and its length.
pub fn string(alloc: Global, inner: &[u8]) -> Result<(Piece, usize), NoMemory>
    ensures { IfOk result (λ found. (m : ℕ) × Extent (Quoted 34) inner.now m × (content : Option (List ℕ))
        × IsContent (take m inner.now) content × IsString inner.now m content found.0 found.1) }
{
    let len = extent(Run::Quoted(b'"'), inner);
    let (body, rest) = inner.split_at(len);
    let closed = is_quote(b'"', rest);
    let piece = string_piece(has_control(body), content(alloc, body)?, closed);
    Ok((piece, 1 + (len + usize::from(closed))))
}

pub fn has_forbidden(bytes: &[u8]) -> bool
    ensures { result ≡ list_any is_forbidden bytes.now }
{
    for b in bytes {
        if is_forbidden(*b) {
            return true;
        }
    }
    false
}

/// What stands at a character constant's quote, by the text behind it, and its length.
pub fn character(alloc: Global, inner: &[u8]) -> Result<(Piece, usize), NoMemory>
    ensures { IfOk result (λ found. (m : ℕ) × Extent (Quoted 39) inner.now m × (content : Option (List ℕ))
        × IsContent (take m inner.now) content × IsCharacter inner.now m content found.0 found.1) }
{
    let len = extent(Run::Quoted(b'\''), inner);
    let (body, rest) = inner.split_at(len);
    let closed = is_quote(b'\'', rest);
    let piece = character_piece(has_forbidden(body), content(alloc, body)?, closed);
    Ok((piece, 1 + (len + usize::from(closed))))
}
