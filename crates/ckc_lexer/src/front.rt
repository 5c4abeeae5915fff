// What a text begins with.

ghost use Rattle.std.specs.Prelude.{◌≡◌, ◌≤◌, length};
ghost use Rattle.ckc_text.specs.Names.{is_word_byte};
ghost use Rattle.ckc_lexer.specs.Bytes.{is_blank, is_control, is_forbidden};
ghost use Rattle.ckc_lexer.specs.Pieces.{front_of, front_len};

/// What the first bytes of a text begin.
#[derive(Clone, Copy)]
pub enum Front {
    BlankByte,
    LineComment,
    BlockComment,
    StringQuote,
    CharacterQuote,
    Word,
    Hash,
    Mark,
}

/// Whether a byte stands between tokens.
pub fn is_blank(b: u8) -> bool
    ensures { result ≡ is_blank b }
{
    matches!(b, b' ' | b'\t' | b'\r' | b'\n')
}

/// Whether a word goes on with a byte.
pub fn is_word_byte(b: u8) -> bool
    ensures { result ≡ is_word_byte b }
{
    b.is_ascii_alphanumeric() || b == b'_'
}

/// Whether a byte may stand nowhere.
pub fn is_control(b: u8) -> bool
    ensures { result ≡ is_control b }
{
    (b < 32 && !is_blank(b)) || b == 127
}

/// Whether a byte may stand in comments, strings and `#include` lines at most.
pub fn is_forbidden(b: u8) -> bool
    ensures { result ≡ is_forbidden b }
{
    is_control(b) || b >= 128
}

/// What a text begins with.
pub fn front_of(text: &[u8]) -> Front
    ensures front { result ≡ front_of text.now }
    ensures within { front_len result ≤ length text.now }
{
    match text {
        [b, ..] if is_blank(*b) => Front::BlankByte,
        [b, ..] if is_word_byte(*b) => Front::Word,
        [b'/', b'/', ..] => Front::LineComment,
        [b'/', b'*', ..] => Front::BlockComment,
        [b'"', ..] => Front::StringQuote,
        [b'\'', ..] => Front::CharacterQuote,
        [b'#', ..] => Front::Hash,
        _ => Front::Mark,
    }
}
