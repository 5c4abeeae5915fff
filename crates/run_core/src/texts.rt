// The lines of a run.

ghost use Rattle.std.specs.Prelude.{◌≡◌, ◌∷◌, [], if◌then◌else◌, OnOk};
ghost use Rattle.run_core.specs.Texts.{missing_feed, with_last_line};

use ckc_text::fault::NoMemory;
use std::alloc::Global;

/// Adds a line to a text, and before it the line feed that the text lacks.
pub fn add_last_line(text: &mut Vec<u8>, last: &[u8]) -> Result<(), NoMemory>
    ensures { OnOk result (text.new.items ≡ with_last_line text.old.items last.now) }
{
    if lacks_feed(text.as_slice()) {
        text.push(b'\n')?;
    }
    text.extend_from_slice(last)?;
    Ok(())
}

// Whether a text has a last line that no line feed ends.
fn lacks_feed(text: &[u8]) -> bool
    ensures { missing_feed text.now ≡ (if result then 10 ∷ [] else []) }
{
    match text {
        [] => false,
        [.., last] => *last != b'\n',
    }
}
