// Strings.

ghost use Rattle.std.specs.Prelude.{◌≡◌, ◌++◌, ◌∷◌, [], map, IfOk};
ghost use Rattle.ckc_tree.specs.Texts.{text};

use ckc_text::fault::NoMemory;
use ckc_text::on_heap::push;
use ckc_text::place::Span;
use std::alloc::Global;

/// A string: its bytes, without the zero that ends it, and those that it stands on in its source.
#[derive(Drop)]
pub struct Text {
    pub bytes: Vec<u8>,
    pub span: Span,
}

/// Puts a copy of a string behind others.
pub fn push_text(
    alloc: Global,
    bytes: &[u8],
    span: Span,
    texts: &mut Vec<Text>,
) -> Result<(), NoMemory>
    ensures { IfOk result (λ _. map text texts.new.items ≡ map text texts.old.items ++ record { bytes = bytes.now; span = span } ∷ []) }
{
    let bytes = Vec::from_slice(alloc, bytes)?;
    push(texts, Text { bytes, span })
}
