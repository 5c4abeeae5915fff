// The piece at the front of a text.

ghost use Rattle.std.specs.Prelude.{◌≡◌, ℕ, ◌<◌, length, IfOk};
ghost use Rattle.std.specs.List.{list_any};
ghost use Rattle.ckc_lexer.specs.Bytes.{is_line_feed};
ghost use Rattle.ckc_lexer.specs.Runs.{Extent};
ghost use Rattle.ckc_lexer.specs.Pieces.{front_of, comment_piece, is_closing, IsBlankByte, IsLineComment, IsBlockComment, IsWord, Stands};
ghost use Rattle.ckc_lexer.specs.declared.front.Front.TheVariants.{Word};
ghost use Rattle.ckc_lexer.specs.declared.run.Run.TheVariants.{Comment};

use crate::directive::{hash, line_len, word_len};
use crate::front::{Front, front_of};
use crate::mark::mark_piece;
use crate::piece::Piece;
use crate::quoted::{character, has_control, string};
use crate::run::{Run, extent};
use crate::word::word_piece;
use ckc_text::code::Code;
use ckc_text::fault::NoMemory;
use std::alloc::Global;

fn has_line_feed(bytes: &[u8]) -> bool
    ensures { result ≡ list_any is_line_feed bytes.now }
{
    for b in bytes {
        if *b == b'\n' {
            return true;
        }
    }
    false
}

/// What a comment is, by what stands in it and by whether it is closed.
fn comment_piece(body: &[u8], closed: bool) -> Piece
    ensures { result ≡ comment_piece body.now closed }
{
    if has_control(body) {
        Piece::CommentFault(Code::E01)
    } else if closed {
        Piece::Gap(has_line_feed(body))
    } else {
        Piece::CommentFault(Code::E03)
    }
}

fn blank_byte(text: &[u8]) -> (Piece, usize)
    ensures { IsBlankByte text.now result.0 result.1 }
{
    (Piece::Gap(matches!(text, [b'\n', ..])), 1)
}

/// A comment to the end of its line, by the text behind its slashes.
fn line_comment(inner: &[u8]) -> (Piece, usize)
    ensures { IsLineComment inner.now result.0 result.1 }
{
    let len = line_len(inner);
    (comment_piece(&inner[..len], true), 2 + len)
}

/// Whether a comment ends at a text.
fn is_closing(text: &[u8]) -> bool
    ensures { result ≡ is_closing text.now }
{
    matches!(text, [b'*', b'/', ..])
}

/// A comment to the next `*/`, by the text behind its beginning.
fn block_comment(inner: &[u8]) -> (Piece, usize)
    ensures { (m : ℕ) × Extent Comment inner.now m × IsBlockComment inner.now m result.0 result.1 }
{
    let len = extent(Run::Comment, inner);
    let (body, rest) = inner.split_at(len);
    let closed = is_closing(rest);
    let closing = if closed { 2 } else { 0 };
    (comment_piece(body, closed), 2 + (len + closing))
}

/// Letters and digits, taken to their end.
fn word(alloc: Global, text: &[u8]) -> Result<(Piece, usize), NoMemory>
    requires { front_of text.now ≡ Word }
    ensures { IfOk result (λ found. IsWord text.now found.0 found.1) }
{
    let len = word_len(text);
    Ok((word_piece(alloc, &text[..len])?, len))
}

/// The piece at the front of a text, and its length, by whether it would be the first mark of its line.
pub fn piece_at(alloc: Global, first: bool, text: &[u8]) -> Result<(Piece, usize), NoMemory>
    requires { 0 < length text.now }
    ensures { IfOk result (λ found. Stands first text.now found.0 found.1) }
{
    match front_of(text) {
        Front::BlankByte => Ok(blank_byte(text)),
        Front::LineComment => Ok(line_comment(&text[2..])),
        Front::BlockComment => Ok(block_comment(&text[2..])),
        Front::StringQuote => string(alloc, &text[1..]),
        Front::CharacterQuote => character(alloc, &text[1..]),
        Front::Word => word(alloc, text),
        Front::Hash => hash(alloc, first, &text[1..]),
        Front::Mark => Ok(mark_piece(text)),
    }
}
