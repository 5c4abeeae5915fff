// From the file of a program to its core, or to the line that says why it has none.

ghost use Rattle.std.specs.Prelude.{◌≡◌};
ghost use Rattle.ckc_text.specs.Places.{place_at};
ghost use Rattle.ccbox_call.specs.Acceptance.{IsRefused};
ghost use Rattle.ccbox_call.specs.Calls.{SourceRead, ProgramRead};

use crate::front::front;
use ccbox_call_words::output::{give_missing, give_refused};
use ccbox_call_words::status::Status;
use ckc_core::program::Core;
use ckc_io::shelf::Shelf;
use ckc_io::sink::Sink;
use ckc_io::whole::{ReadFault, read_whole};
use ckc_lexer::limits::MAX_SOURCE;
use ckc_text::fault::{Refused, SourceFault};
use ckc_text::place::{Place, place_of};
use std::alloc::Global;

/// The core of the program of a file.
///
/// # Errors
///
/// The status behind the line that says why there is none, which is written; or that of files or an output that failed, or
/// of want of memory.
pub fn read_program<F: Shelf, K: Sink>(
    alloc: Global,
    file: &str,
    shelf: &mut F,
    sink: &mut K,
) -> Result<Core, Status>
    ensures files { F.files shelf.new ≡ F.files shelf.old }
    ensures program { ProgramRead (F.files shelf.old) file.now (K.written sink.old) (K.written sink.new)
        (record { misses = F.misses shelf.old; faults = F.faults shelf.old; sink = K.faults sink.old })
        (record { misses = F.misses shelf.new; faults = F.faults shelf.new; sink = K.faults sink.new }) result }
{
    match read_whole(alloc, shelf, file, MAX_SOURCE + 1) {
        Ok(src) => core_of(alloc, src.as_slice(), sink),
        Err(ReadFault::Missing) => Err(give_missing(alloc, file, sink)),
        Err(ReadFault::Failed) => Err(Status::FilesFailed),
        Err(ReadFault::NoMemory) => Err(Status::NoMemory),
    }
}

// The same of a source.
fn core_of<K: Sink>(alloc: Global, src: &[u8], sink: &mut K) -> Result<Core, Status>
    ensures { SourceRead src.now (K.written sink.old) (K.written sink.new) (K.faults sink.old) (K.faults sink.new) result }
{
    match front(alloc, src) {
        Ok(program) => Ok(program),
        Err(Refused::Source(fault)) => {
            let place = place_of_fault(src, &fault);
            Err(give_refused(alloc, fault.code, place, sink))
        }
        Err(Refused::NoMemory) => Err(Status::NoMemory),
    }
}

// The place of a fault: where its span starts.
fn place_of_fault(src: &[u8], fault: &SourceFault) -> Place
    requires { IsRefused src.now fault.now }
    ensures { result ≡ place_at src.now fault.now.span.from }
{
    // Behind the last byte every place is the same.
    let at = (fault.span.from as usize).min(src.len());
    place_of(src, at)
}
