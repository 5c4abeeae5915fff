// The top call: words, files and an output to a status.

ghost use Rattle.std.specs.Prelude.{◌≡◌, ◌⊎◌, map, None};
ghost use Rattle.ckc_io.specs.Files.{Told};
ghost use Rattle.ccbox_call_words.specs.Requests.{request_of};
ghost use Rattle.ccbox_call.specs.Answers.{GivesFront, GivesWhole, IsCutShort, IsFailure, IsStatus, Exactly, Tells, SourceIsRefused, FileIsMissing, Succeeds, CheckFails, RunStops, LineIsRefused, ListingFails, PrintedRun, PrintedImageRun, PrintedAccepted, IsComplete, IsQuiet, IsUntouched};
ghost use Rattle.ccbox_call.specs.PrintedCode.{PrintedCode};
ghost use Rattle.ccbox_call_words.specs.Given.{LineGiven};
ghost use Rattle.ccbox_call_words.specs.Statuses.{number_of};
ghost use Rattle.act_recorder.specs.Diagnostics.{usage_text};
ghost use Rattle.ccbox_call.specs.Calls.{CallEnds};

use crate::check::check_file;
use crate::exec::exec_file;
use crate::run::run_file;
use crate::split::split_file;
use ccbox_call_words::output::give_usage;
use ccbox_call_words::request::{Request, request_from};
use ccbox_call_words::status::Status;
use ckc_io::shelf::Shelf;
use ckc_io::sink::Sink;
use ckc_text::fault::NoMemory;
use std::alloc::Global;

/// Does what the words after the program's name ask for, with the files of a shelf, and writes to a sink.
///
/// What is written is the Answer of the words over the files, or a front of it where the status is 4, 5 or 9.
pub fn ccbox<F: Shelf, K: Sink>(
    alloc: Global,
    words: &[&str],
    shelf: &mut F,
    sink: &mut K,
) -> Status
    // What was written is a front of the Answer's text, and all of it unless something failed.
    ensures front { Told (F.files shelf.old) (λ files. GivesFront files (map (λ word. word.now) words.now) (K.written sink.old) (K.written sink.new)) }
    ensures whole { Told (F.files shelf.old) (λ files.
        GivesWhole files (map (λ word. word.now) words.now) (K.written sink.old) (K.written sink.new) (number_of result) ⊎ IsFailure (number_of result)) }

    // Behind a fault of the files, and where memory ran out, the text isn't whole.
    ensures cut_short { Told (F.files shelf.old) (λ files. (number_of result ≡ 4) ⊎ (number_of result ≡ 9)
        → IsCutShort files (map (λ word. word.now) words.now) (K.written sink.old) (K.written sink.new)) }

    // An accepted source is never stuck, its run is printed, and what the sandbox is shown is determined by its starting
    // memory, the acts that were taken, and the releases.
    ensures printed_run { Told (F.files shelf.old) (λ files.
        PrintedRun files (map (λ word. word.now) words.now) (K.written sink.old) (K.written sink.new) (number_of result)) }

    // Whoever wrote it, the run of a listing whose image fits the settings ends and is printed, and what the sandbox is shown is
    // determined by its starting memory, the acts that were taken, and the releases.
    ensures printed_image_run { Told (F.files shelf.old) (λ files.
        PrintedImageRun files (map (λ word. word.now) words.now) (K.written sink.old) (K.written sink.new) (number_of result)) }

    // Where the words ask whether a source is accepted, and it is, the line that says so is printed.
    ensures accepted { Told (F.files shelf.old) (λ files.
        PrintedAccepted files (map (λ word. word.now) words.now) (K.written sink.old) (K.written sink.new) (number_of result)) }

    // Where they ask for the code of an accepted source, the listing of an image is printed that has the source's parts and
    // does what the source means, at every base address.
    ensures printed_code { Told (F.files shelf.old) (λ files.
        PrintedCode files (map (λ word. word.now) words.now) (K.written sink.old) (K.written sink.new) (number_of result)) }

    // Where no failure of the files and of the output is counted, the Answer is given whole, unless memory ran out.
    ensures complete { Told (F.files shelf.old) (λ files.
        IsQuiet (F.faults shelf.old) (F.faults shelf.new) → IsQuiet (K.faults sink.old) (K.faults sink.new) →
        IsComplete files (map (λ word. word.now) words.now) (K.written sink.old) (K.written sink.new) (number_of result)) }

    // Where each status comes.
    ensures status { IsStatus (number_of result) }
    ensures succeeds { Told (F.files shelf.old) (λ files. Exactly 0 (number_of result) (Succeeds files (map (λ word. word.now) words.now))) }
    ensures refused { Told (F.files shelf.old) (λ files. Exactly 1 (number_of result) (SourceIsRefused files (map (λ word. word.now) words.now))) }
    ensures usage { Exactly 2 (number_of result) (request_of (map (λ word. word.now) words.now) ≡ None) }
    ensures usage_line { request_of (map (λ word. word.now) words.now) ≡ None
        → LineGiven usage_text 2 (K.written sink.old) (K.written sink.new) (K.faults sink.old) (K.faults sink.new) (number_of result) }
    ensures missing { Told (F.files shelf.old) (λ files. Exactly 3 (number_of result) (FileIsMissing files (map (λ word. word.now) words.now))) }
    ensures checks { Told (F.files shelf.old) (λ files. Exactly 6 (number_of result) (CheckFails files (map (λ word. word.now) words.now))) }
    ensures stops { Told (F.files shelf.old) (λ files. Exactly 7 (number_of result) (RunStops files (map (λ word. word.now) words.now))) }
    ensures acts_refused { Told (F.files shelf.old) (λ files. Exactly 8 (number_of result) (LineIsRefused files (map (λ word. word.now) words.now))) }

    ensures listing_refused { Told (F.files shelf.old) (λ files. Exactly 11 (number_of result) (ListingFails files (map (λ word. word.now) words.now))) }

    // Words that spell no request touch no file.
    ensures untouched { request_of (map (λ word. word.now) words.now) ≡ None
        → IsUntouched (F.misses shelf.old) (F.misses shelf.new) (F.faults shelf.old) (F.faults shelf.new) }

    // A failure is counted.
    ensures misses { Tells (number_of result) 3 (F.misses shelf.old) (F.misses shelf.new)
        ((number_of result ≡ 3) ⊎ ((number_of result ≡ 5) ⊎ (number_of result ≡ 9))) }
    ensures shelf_faults { Tells (number_of result) 4 (F.faults shelf.old) (F.faults shelf.new) (number_of result ≡ 4) }
    ensures sink_faults { Tells (number_of result) 5 (K.faults sink.old) (K.faults sink.new) (number_of result ≡ 5) }
{
    status_of_call(alloc, words, shelf, sink)
}

/// The status of a call.
pub(crate) fn status_of_call<F: Shelf, K: Sink>(
    alloc: Global,
    words: &[&str],
    shelf: &mut F,
    sink: &mut K,
) -> Status
    ensures { CallEnds (map (λ word. word.now) words.now) (F.files shelf.old) (K.written sink.old) (K.written sink.new)
        (record { misses = F.misses shelf.old; faults = F.faults shelf.old; sink = K.faults sink.old })
        (record { misses = F.misses shelf.new; faults = F.faults shelf.new; sink = K.faults sink.new }) (number_of result) }
{
    match request_from(alloc, words) {
        Ok(Some(Request::Check { file })) => check_file(alloc, file, shelf, sink),
        Ok(Some(Request::Split { file })) => split_file(alloc, file, shelf, sink),
        Ok(Some(Request::Run { file, options })) => run_file(alloc, file, &options, shelf, sink),
        Ok(Some(Request::Exec { file, options })) => exec_file(alloc, file, &options, shelf, sink),
        Ok(None) => give_usage(alloc, sink),
        Err(NoMemory) => Status::NoMemory,
    }
}
