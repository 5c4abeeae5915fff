// Writing one line, or a listing, and the status behind it.

ghost use Rattle.std.specs.Prelude.{◌≡◌, ℕ, List, IfOk};
ghost use Rattle.ccbox_call_words.specs.Given.{TextGiven, LineGiven, OutcomeGiven};
ghost use Rattle.ccbox_call_words.specs.Statuses.{number_of};
ghost use Rattle.act_recorder.specs.Diagnostics.{accepted_text, refused_text, act_refused_text, missing_text, listing_refused_text, unfit_text, usage_text};

use crate::status::{Status, status_of};
use act_recorder::diagnostics::{
    accepted_line, act_refused_line, listing_refused_line, missing_line, refused_line, unfit_line,
    usage_line,
};
use act_words::ending::Ending;
use ckc_io::sink::{Sink, SinkFault};
use ckc_io::whole::write_whole;
use ckc_text::code::Code;
use ckc_text::fault::NoMemory;
use ckc_text::place::Place;
use run_core::fault::RunFault;
use std::alloc::Global;

/// Writes the line that a run leaves to its caller, where the run needs a line of the acts that is refused, and answers the
/// status of what the run came to.
pub fn give_outcome<K: Sink>(
    alloc: Global,
    outcome: Result<Ending, RunFault>,
    sink: &mut K,
) -> Status
    ensures { OutcomeGiven outcome (K.written sink.old) (K.written sink.new) (K.faults sink.old) (K.faults sink.new) (number_of result) }
{
    match outcome {
        Ok(ending) => status_of(&ending),
        Err(RunFault::Line { line, code }) => give_act_refused(alloc, line, code, sink),
        Err(RunFault::Missing) => Status::FileMissing,
        Err(RunFault::ShelfFailed) => Status::FilesFailed,
        Err(RunFault::SinkFailed) => Status::OutputFailed,
        Err(RunFault::NoMemory) => Status::NoMemory,
    }
}

/// Writes the line of an accepted source, and answers its status, or that of a failed output or of want of memory.
pub fn give_accepted<K: Sink>(alloc: Global, sink: &mut K) -> Status
    ensures { LineGiven accepted_text 0 (K.written sink.old) (K.written sink.new) (K.faults sink.old) (K.faults sink.new) (number_of result) }
{
    give_line(sink, accepted_line(alloc), Status::Success)
}

/// The same of a listing.
pub fn give_listing<K: Sink>(sink: &mut K, listing: &[u8]) -> Status
    ensures { TextGiven listing.now 0 (K.written sink.old) (K.written sink.new) (K.faults sink.old) (K.faults sink.new) (number_of result) }
{
    give(sink, listing, Status::Success)
}

/// The same of a refused source.
pub fn give_refused<K: Sink>(alloc: Global, code: Code, place: Place, sink: &mut K) -> Status
    ensures { LineGiven (refused_text code place) 1 (K.written sink.old) (K.written sink.new) (K.faults sink.old) (K.faults sink.new) (number_of result) }
{
    give_line(
        sink,
        refused_line(alloc, code, place),
        Status::SourceRefused,
    )
}

// The same of a refused line of acts, which has this number.
fn give_act_refused<K: Sink>(alloc: Global, line: u64, code: Code, sink: &mut K) -> Status
    ensures { LineGiven (act_refused_text line code) 8 (K.written sink.old) (K.written sink.new) (K.faults sink.old) (K.faults sink.new) (number_of result) }
{
    give_line(
        sink,
        act_refused_line(alloc, line, code),
        Status::LineRefused,
    )
}

/// The same of a file that isn't there.
pub fn give_missing<K: Sink>(alloc: Global, name: &str, sink: &mut K) -> Status
    ensures { LineGiven (missing_text name.now) 3 (K.written sink.old) (K.written sink.new) (K.faults sink.old) (K.faults sink.new) (number_of result) }
{
    give_line(sink, missing_line(alloc, name), Status::FileMissing)
}

/// The same of a listing that is refused at the line of this number.
pub fn give_listing_refused<K: Sink>(alloc: Global, line: u32, sink: &mut K) -> Status
    ensures { LineGiven (listing_refused_text line) 11 (K.written sink.old) (K.written sink.new) (K.faults sink.old) (K.faults sink.new) (number_of result) }
{
    give_line(
        sink,
        listing_refused_line(alloc, line),
        Status::ListingRefused,
    )
}

/// The same of a listing whose image doesn't fit the settings.
pub fn give_unfit<K: Sink>(alloc: Global, sink: &mut K) -> Status
    ensures { LineGiven unfit_text 11 (K.written sink.old) (K.written sink.new) (K.faults sink.old) (K.faults sink.new) (number_of result) }
{
    give_line(sink, unfit_line(alloc), Status::ListingRefused)
}

/// The same of words that spell no request.
pub fn give_usage<K: Sink>(alloc: Global, sink: &mut K) -> Status
    ensures { LineGiven usage_text 2 (K.written sink.old) (K.written sink.new) (K.faults sink.old) (K.faults sink.new) (number_of result) }
{
    give_line(sink, usage_line(alloc), Status::Usage)
}

// Writes a line that was made, unless memory ran out before.
fn give_line<K: Sink>(sink: &mut K, line: Result<Vec<u8>, NoMemory>, status: Status) -> Status
    ensures { (text : List ℕ) → IfOk line (λ made. made.items ≡ text)
        → LineGiven text (number_of status) (K.written sink.old) (K.written sink.new) (K.faults sink.old) (K.faults sink.new) (number_of result) }
{
    match line {
        Ok(line) => give(sink, line.as_slice(), status),
        Err(NoMemory) => Status::NoMemory,
    }
}

// Writes a text, and answers this status, or that of a failed output.
fn give<K: Sink>(sink: &mut K, text: &[u8], status: Status) -> Status
    ensures { TextGiven text.now (number_of status) (K.written sink.old) (K.written sink.new) (K.faults sink.old) (K.faults sink.new) (number_of result) }
{
    match write_whole(sink, text) {
        Ok(()) => status,
        Err(SinkFault::Failed) => Status::OutputFailed,
    }
}
