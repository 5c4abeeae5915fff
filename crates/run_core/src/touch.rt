// Telling of touches.

ghost use Rattle.std.specs.Prelude.{◌≡◌, ◌++◌, OnOk, option_map};
ghost use Rattle.act_words.specs.Acts.{seen_view};
ghost use Rattle.run_core.specs.Texts.{events_text};
ghost use Rattle.run_core.specs.Touched.{last_of, touched};

use crate::transcript;
use act_words::act::{Release, Seen};
use act_words::settings::Settings;
use ckc_text::fault::NoMemory;
use std::alloc::Global;

/// Tells of a touch: what it released, and then what the sandbox was shown of it, if it is shown.
pub fn touch(
    alloc: Global,
    settings: &Settings,
    release: &Release,
    seen: &Option<Seen>,
    text: &mut Vec<u8>,
    last: &mut Option<Seen>,
) -> Result<(), NoMemory>
    ensures text { OnOk result (text.new.items
        ≡ text.old.items ++ events_text settings.now (touched release.now seen.now)) }
    ensures last { OnOk result (option_map seen_view last.new
        ≡ last_of (option_map seen_view last.old) (touched release.now seen.now)) }
{
    transcript::release(alloc, settings, release, text)?;
    match seen {
        Some(seen) => transcript::show(alloc, settings, seen, text, last),
        None => Ok(()),
    }
}
