// Names as they stand in a source.

use ckc_text::name::Name;
use ckc_text::place::Span;

/// A name, its number among the names of its program, and the bytes that it stands on. Before a program is named, its names
/// have the number 0.
#[derive(Drop)]
pub struct Identifier {
    pub name: Name,
    pub number: usize,
    pub span: Span,
}
