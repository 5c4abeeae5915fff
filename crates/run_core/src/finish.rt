// Writing the text of a run that has come to its end, or to an act that can't be given.

ghost use Rattle.std.specs.Prelude.{◌≡◌, ◌++◌, List, IfOk, Ok, Err};
ghost use Rattle.act_words.specs.declared.settings.Settings.{Settings as SettingsData};
ghost use Rattle.act_words.specs.Shown.{Shown};
ghost use Rattle.act_recorder.specs.Endings.{ending_text};
ghost use Rattle.run_core.specs.Texts.{with_last_line};
ghost use Rattle.run_core.specs.Finishes.{Finish, Finishes};

use crate::fault::RunFault;
use crate::texts::add_last_line;
use act_recorder::endings::answer_text;
use act_words::ending::Ending;
use ckc_io::sink::{Sink, SinkFault};
use ckc_io::whole::write_whole;
use ckc_text::fault::NoMemory;
use std::alloc::Global;

/// Writes the text of a run that has ended: what it told, the line of its ending, and the lines of its last blocks.
///
/// # Errors
///
/// `SinkFailed` where the sink failed, which then holds a front of the text, and `NoMemory`, where nothing was written.
pub fn write_end<K: Sink>(
    alloc: Global,
    text: &mut Vec<u8>,
    ending: Ending,
    blocks: &[u8],
    sink: &mut K,
) -> Result<Ending, RunFault>
    ensures { Finish (with_last_line text.old.items (ending_text ending ++ blocks.now)) (Ok ending)
        (K.written sink.old) (K.written sink.new) (K.faults sink.old) (K.faults sink.new) result }
{
    let last = last_lines(alloc, &ending, blocks)?;
    write_text(text, last.as_slice(), Ok(ending), sink)
}

// The line of an ending, and lines behind it.
fn last_lines(alloc: Global, ending: &Ending, blocks: &[u8]) -> Result<Vec<u8>, NoMemory>
    ensures { IfOk result (λ text. text.items ≡ ending_text ending.now ++ blocks.now) }
{
    let mut text = answer_text(alloc, ending)?;
    text.extend_from_slice(blocks)?;
    Ok(text)
}

/// Writes the text of a run that stopped, where it needed an act that can't be given, and nothing after another fault.
///
/// # Errors
///
/// The fault itself, or `SinkFailed` or `NoMemory` as above.
pub fn write_front<K: Sink>(
    text: &mut Vec<u8>,
    fault: RunFault,
    sink: &mut K,
) -> Result<Ending, RunFault>
    ensures { (settings : SettingsData) (blocks : List Shown) → Finishes text.old.items settings blocks (Err fault)
        (K.written sink.old) (K.written sink.new) (K.faults sink.old) (K.faults sink.new) result }
{
    match fault {
        RunFault::Line { line: _, code: _ } | RunFault::Missing => {
            write_text(text, &[], Err(fault), sink)
        }
        RunFault::ShelfFailed | RunFault::SinkFailed | RunFault::NoMemory => Err(fault),
    }
}

// Writes a text and a last line behind it, and answers the outcome unless that fails.
fn write_text<K: Sink>(
    text: &mut Vec<u8>,
    last: &[u8],
    outcome: Result<Ending, RunFault>,
    sink: &mut K,
) -> Result<Ending, RunFault>
    ensures { Finish (with_last_line text.old.items last.now) outcome
        (K.written sink.old) (K.written sink.new) (K.faults sink.old) (K.faults sink.new) result }
{
    add_last_line(text, last)?;
    match write_whole(sink, text.as_slice()) {
        Ok(()) => outcome,
        Err(SinkFault::Failed) => Err(RunFault::SinkFailed),
    }
}
