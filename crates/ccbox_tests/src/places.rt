// The places of a text, in both ways that they are found.

ghost use Rattle.std.specs.Prelude.{◌≤◌, length};

use ckc_text::line_index::LineIndex;
use ckc_text::place::{Place, place_of};
use std::alloc::Global;

// Whether the place of a byte is found in both ways.
fn is_at(src: &[u8], index: &LineIndex, at: usize, line: u32, col: u32) -> bool
    requires within { at ≤ length src.now }
    requires small { at ≤ 1048577 }
{
    let place = Place { line, col };
    place_of(src, at) == place && index.place(at as u32) == place
}

// Whether places of a text are found.
fn has_all(src: &[u8; 5], index: &LineIndex) -> bool {
    is_at(src, index, 0, 1, 1)
        && is_at(src, index, 1, 1, 2)
        && is_at(src, index, 2, 1, 3)
        && is_at(src, index, 3, 2, 1)
        && is_at(src, index, 4, 3, 1)
}

/// Whether the places of a text with three lines are found.
pub fn has_places(alloc: Global) -> bool {
    let src = b"ab\n\nc";
    match LineIndex::new(alloc, src) {
        Ok(index) => has_all(src, &index),
        Err(_) => false,
    }
}
