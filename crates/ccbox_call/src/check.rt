// Checking the program of a file.

ghost use Rattle.ccbox_call.specs.Calls.{Gives, IsGiven};
ghost use Rattle.ccbox_call_words.specs.Requests.{Check};
ghost use Rattle.ccbox_call_words.specs.Statuses.{number_of};

use crate::program::read_program;
use ccbox_call_words::output::give_accepted;
use ccbox_call_words::status::Status;
use ckc_io::shelf::Shelf;
use ckc_io::sink::Sink;
use std::alloc::Global;

/// Checks the program of a file.
pub fn check_file<F: Shelf, K: Sink>(
    alloc: Global,
    file: &str,
    shelf: &mut F,
    sink: &mut K,
) -> Status
    ensures { Gives (IsGiven (F.files shelf.old) (Check file.now))
        (K.written sink.old) (K.written sink.new)
        (record { misses = F.misses shelf.old; faults = F.faults shelf.old; sink = K.faults sink.old })
        (record { misses = F.misses shelf.new; faults = F.faults shelf.new; sink = K.faults sink.new }) (number_of result) }
{
    match read_program(alloc, file, shelf, sink) {
        Ok(_program) => give_accepted(alloc, sink),
        Err(status) => status,
    }
}
