// Running the listing of a file.

ghost use Rattle.std.specs.Prelude.{IsTrue};
ghost use Rattle.ckc_io.specs.Files.{Told};
ghost use Rattle.code_words.specs.Paced.{is_paced};
ghost use Rattle.ccbox_call.specs.Answers.{ExecAnswer};
ghost use Rattle.ccbox_call_words.specs.Requests.{Exec};
ghost use Rattle.ccbox_call_words.specs.Statuses.{number_of};
ghost use Rattle.ccbox_call_words.specs.Requested.{options as options_view};
ghost use Rattle.ccbox_call.specs.Calls.{MayRun, Gives, IsGiven};

use crate::listing::read_image;
use crate::run::run_image;
use ccbox_call_words::output::give_unfit;
use ccbox_call_words::request::Options;
use ccbox_call_words::status::Status;
use ckc_io::shelf::Shelf;
use ckc_io::sink::Sink;
use code_words::image::Image;
use std::alloc::Global;

/// Runs the listing of a file.
pub fn exec_file<F: Shelf, K: Sink>(
    alloc: Global,
    file: &str,
    options: &Options,
    shelf: &mut F,
    sink: &mut K,
) -> Status
    requires { MayRun (options_view options.now) }
    ensures { Gives (IsGiven (F.files shelf.old) (Exec file.now (options_view options.now)))
        (K.written sink.old) (K.written sink.new)
        (record { misses = F.misses shelf.old; faults = F.faults shelf.old; sink = K.faults sink.old })
        (record { misses = F.misses shelf.new; faults = F.faults shelf.new; sink = K.faults sink.new }) (number_of result) }
{
    match read_image(alloc, file, shelf, sink) {
        Ok(image) => exec_image(alloc, &image, options, shelf, sink),
        Err(status) => status,
    }
}

// Runs an image, if it fits the settings.
fn exec_image<F: Shelf, K: Sink>(
    alloc: Global,
    image: &Image,
    options: &Options,
    shelf: &mut F,
    sink: &mut K,
) -> Status
    requires allowed { MayRun (options_view options.now) }
    requires paced { IsTrue (is_paced image.now) }
    ensures { Gives (λ text status. Told (F.files shelf.old) (λ files. ExecAnswer files (options_view options.now) image.now text status))
        (K.written sink.old) (K.written sink.new)
        (record { misses = F.misses shelf.old; faults = F.faults shelf.old; sink = K.faults sink.old })
        (record { misses = F.misses shelf.new; faults = F.faults shelf.new; sink = K.faults sink.new }) (number_of result) }
{
    if image.fits(&options.settings()) {
        run_image(alloc, image, options, shelf, sink)
    } else {
        give_unfit(alloc, sink)
    }
}
