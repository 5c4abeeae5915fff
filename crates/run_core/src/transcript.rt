// What happens in a run, as text: what the program writes, what is released, and what the sandbox is shown.

ghost use Rattle.std.specs.Prelude.{◌≡◌, ◌++◌, OnOk};
ghost use Rattle.act_words.specs.Acts.{seen_view, release_view};
ghost use Rattle.act_words.specs.World.{Output, Released, Showed};
ghost use Rattle.run_core.specs.Texts.{event_text};

use act_recorder::lines::{output_line, release_line, seen_line};
use act_words::act::{Release, Seen};
use act_words::row::Octets;
use act_words::settings::Settings;
use ckc_text::fault::NoMemory;
use std::alloc::Global;

/// Tells of what the program wrote: as it is, or as a line where lines are asked for.
pub fn write(
    alloc: Global,
    settings: &Settings,
    bytes: &Octets,
    text: &mut Vec<u8>,
) -> Result<(), NoMemory>
    ensures { OnOk result (text.new.items
        ≡ text.old.items ++ event_text settings.now (Output bytes.now)) }
{
    if settings.view || settings.releases {
        text.extend_from_slice(&output_line(alloc, bytes.as_slice())?)?;
    } else {
        text.extend_from_slice(bytes.as_slice())?;
    }
    Ok(())
}

/// Tells of a release: its line, where releases are asked for.
pub fn release(
    alloc: Global,
    settings: &Settings,
    release: &Release,
    text: &mut Vec<u8>,
) -> Result<(), NoMemory>
    ensures { OnOk result (text.new.items
        ≡ text.old.items ++ event_text settings.now (Released (release_view release.now))) }
{
    if settings.releases {
        text.extend_from_slice(&release_line(alloc, release)?)?;
    }
    Ok(())
}

/// Tells of what the sandbox was shown, and keeps it: its line, where such lines are asked for.
pub fn show(
    alloc: Global,
    settings: &Settings,
    seen: &Seen,
    text: &mut Vec<u8>,
    last: &mut Option<Seen>,
) -> Result<(), NoMemory>
    ensures last { last.new ≡ Some seen.now }
    ensures text { OnOk result (text.new.items
        ≡ text.old.items ++ event_text settings.now (Showed (seen_view seen.now))) }
{
    *last = Some(*seen);
    if settings.view {
        text.extend_from_slice(&seen_line(alloc, seen)?)?;
    }
    Ok(())
}
