// Where a line stands.

/// What a line has before a place.
#[derive(Clone, Copy)]
pub enum Line {
    /// Blanks and comments alone.
    Fresh,
    /// A mark that begins no directive.
    Marked,
    /// A directive that begins at this byte of the source, and behind it blanks and comments.
    Behind(u32),
}
