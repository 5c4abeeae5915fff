// Printing the code of the program of a file.

ghost use Rattle.std.specs.Prelude.{◌≡◌, ℕ, IfOk};
ghost use Rattle.ckc_core.specs.Core.{core};
ghost use Rattle.check_insertion.specs.Insert.{inserted};
ghost use Rattle.lowering.specs.Images.{image_of};
ghost use Rattle.code_words_listing.specs.Listings.{listing, InFormat};
ghost use Rattle.ccbox_call.specs.Acceptance.{IsAcceptedCore};
ghost use Rattle.ccbox_call.specs.Answers.{SplitAnswer};
ghost use Rattle.ccbox_call.specs.Calls.{Gives, IsGiven};
ghost use Rattle.ccbox_call_words.specs.Requests.{Split};
ghost use Rattle.ccbox_call_words.specs.Statuses.{number_of};

use crate::image::image_of;
use crate::program::read_program;
use crate::words::fits_words;
use ccbox_call_words::output::give_listing;
use ccbox_call_words::status::Status;
use ckc_core::program::Core;
use ckc_io::shelf::Shelf;
use ckc_io::sink::Sink;
use ckc_text::fault::NoMemory;
use code_words_listing::listing::list;
use std::alloc::Global;

/// Prints the code of the program of a file.
pub fn split_file<F: Shelf, K: Sink>(
    alloc: Global,
    file: &str,
    shelf: &mut F,
    sink: &mut K,
) -> Status
    ensures { Gives (IsGiven (F.files shelf.old) (Split file.now))
        (K.written sink.old) (K.written sink.new)
        (record { misses = F.misses shelf.old; faults = F.faults shelf.old; sink = K.faults sink.old })
        (record { misses = F.misses shelf.new; faults = F.faults shelf.new; sink = K.faults sink.new }) (number_of result) }
{
    match read_program(alloc, file, shelf, sink) {
        Ok(program) => print_code(alloc, &program, sink),
        Err(status) => status,
    }
}

// Prints the listing of the code of a program.
fn print_code<K: Sink>(alloc: Global, program: &Core, sink: &mut K) -> Status
    requires accepted { IsAcceptedCore (core program.now) }
    ensures { (misses faults : ℕ) → Gives (λ text status. SplitAnswer (core program.now) text status × InFormat (image_of (inserted (core program.now))))
        (K.written sink.old) (K.written sink.new) (record { misses = misses; faults = faults; sink = K.faults sink.old })
        (record { misses = misses; faults = faults; sink = K.faults sink.new }) (number_of result) }
{
    match listing_of(alloc, program) {
        Ok(listing) => give_listing(sink, listing.as_slice()),
        Err(NoMemory) => Status::NoMemory,
    }
}

// The listing of the code of a program.
fn listing_of(alloc: Global, program: &Core) -> Result<Vec<u8>, NoMemory>
    requires accepted { IsAcceptedCore (core program.now) }
    ensures listing { IfOk result (λ text. text.items ≡ listing (image_of (inserted (core program.now)))) }
    ensures format { IfOk result (λ _. InFormat (image_of (inserted (core program.now)))) }
{
    let image = image_of(alloc, program)?;
    fits_words(&image);
    list(alloc, &image)
}
