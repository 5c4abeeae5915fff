// Spans of bytes, and places as a reader counts them.

ghost use Rattle.std.specs.Prelude.{◌≡◌, ◌≤◌, length};
ghost use Rattle.ckc_text.specs.Places.{place_at};

/// A range of bytes of a source: from the first to just past the last.
#[derive(Clone, Copy, Debug, PartialEq, Eq)]
pub struct Span {
    pub from: u32,
    pub to: u32,
}

/// A line and a column, both from 1. A column counts bytes.
#[derive(Clone, Copy, PartialEq, Eq)]
pub struct Place {
    pub line: u32,
    pub col: u32,
}

/// The place of the byte at `at`: the line is 1 and the line feeds before it, the column 1 and the bytes
/// since the last of these.
pub fn place_of(src: &[u8], at: usize) -> Place
    requires within { at ≤ length src.now }
    requires small { at ≤ 1048577 }
    ensures { result ≡ place_at src.now at }
{
    let mut line = 1;
    let mut col = 1;
    for b in &src[..at] {
        if *b == b'\n' {
            line += 1;
            col = 1;
        } else {
            col += 1;
        }
    }
    Place { line, col }
}
