// Running the program of a file, and any image.

ghost use Rattle.std.specs.Prelude.{◌≡◌, false, IsTrue};
ghost use Rattle.ckc_io.specs.Files.{Told};
ghost use Rattle.ckc_core.specs.Core.{core};
ghost use Rattle.ccbox_call.specs.Acceptance.{IsAcceptedCore};
ghost use Rattle.code_words.specs.Fitting.{Fits};
ghost use Rattle.code_words.specs.Paced.{is_paced};
ghost use Rattle.ccbox_call.specs.Answers.{SupplyAnswer, RunAnswer};
ghost use Rattle.ccbox_call.specs.Supplies.{Listed, Own};
ghost use Rattle.ccbox_call.specs.Programs.{Meant, Coded};
ghost use Rattle.ccbox_call_words.specs.Requests.{Run, settings_of};
ghost use Rattle.ccbox_call_words.specs.Statuses.{number_of};
ghost use Rattle.ccbox_call_words.specs.Requested.{options as options_view};
ghost use Rattle.ccbox_call.specs.Calls.{MayRun, Gives, IsGiven};

use crate::image::image_of;
use crate::program::read_program;
use act_words::settings::Settings;
use ccbox_call_words::output::{give_missing, give_outcome};
use ccbox_call_words::request::Options;
use ccbox_call_words::status::Status;
use ckc_core::program::Core;
use ckc_io::shelf::Shelf;
use ckc_io::sink::Sink;
use ckc_text::fault::NoMemory;
use code_words::image::Image;
use run_core::run::run;
use sandbox_actor::actor::ActorFault;
use sandbox_actor::list_actor::ListActor;
use sandbox_actor_code::code_actor::CodeActor;
use std::alloc::Global;

/// Runs the program of a file.
pub fn run_file<F: Shelf, K: Sink>(
    alloc: Global,
    file: &str,
    options: &Options,
    shelf: &mut F,
    sink: &mut K,
) -> Status
    requires { MayRun (options_view options.now) }
    ensures { Gives (IsGiven (F.files shelf.old) (Run file.now (options_view options.now)))
        (K.written sink.old) (K.written sink.new)
        (record { misses = F.misses shelf.old; faults = F.faults shelf.old; sink = K.faults sink.old })
        (record { misses = F.misses shelf.new; faults = F.faults shelf.new; sink = K.faults sink.new }) (number_of result) }
{
    match read_program(alloc, file, shelf, sink) {
        Ok(program) => run_program(alloc, &program, options, shelf, sink),
        Err(status) => status,
    }
}

// Runs the code of a program.
fn run_program<F: Shelf, K: Sink>(
    alloc: Global,
    program: &Core,
    options: &Options,
    shelf: &mut F,
    sink: &mut K,
) -> Status
    requires allowed { MayRun (options_view options.now) }
    requires accepted { IsAcceptedCore (core program.now) }
    ensures { Gives (λ text status. Told (F.files shelf.old) (λ files. RunAnswer files (options_view options.now) (Meant (core program.now)) text status))
        (K.written sink.old) (K.written sink.new)
        (record { misses = F.misses shelf.old; faults = F.faults shelf.old; sink = K.faults sink.old })
        (record { misses = F.misses shelf.new; faults = F.faults shelf.new; sink = K.faults sink.new }) (number_of result) }
{
    match image_of(alloc, program) {
        Ok(image) => run_image(alloc, &image, options, shelf, sink),
        Err(NoMemory) => Status::NoMemory,
    }
}

/// Runs an image with the acts that the options ask for: those of a file, or of the sandbox's own code.
pub fn run_image<F: Shelf, K: Sink>(
    alloc: Global,
    image: &Image,
    options: &Options,
    shelf: &mut F,
    sink: &mut K,
) -> Status
    requires allowed { MayRun (options_view options.now) }
    requires fits { Fits image.now (settings_of (options_view options.now)) }
    requires paced { IsTrue (is_paced image.now) }
    ensures { Gives (λ text status. Told (F.files shelf.old) (λ files. RunAnswer files (options_view options.now) (Coded image.now) text status))
        (K.written sink.old) (K.written sink.new)
        (record { misses = F.misses shelf.old; faults = F.faults shelf.old; sink = K.faults sink.old })
        (record { misses = F.misses shelf.new; faults = F.faults shelf.new; sink = K.faults sink.new }) (number_of result) }
{
    let settings = options.settings();
    let Ok(inputs) = options.inputs(alloc) else {
        return Status::NoMemory;
    };
    let inputs = inputs.as_slice();
    let Some(name) = options.acts else {
        return run_own(alloc, image, &settings, inputs, shelf, sink);
    };
    match ListActor::start(alloc, shelf, name) {
        Ok(mut actor) => run_listed(alloc, image, &settings, inputs, &mut actor, shelf, sink),
        Err(ActorFault::Missing) => give_missing(alloc, name, sink),
        Err(ActorFault::Failed) => Status::FilesFailed,
        Err(ActorFault::NoMemory) => Status::NoMemory,
        // No act is asked for yet.
        Err(ActorFault::Ended | ActorFault::Line { line: _, code: _ }) => unreachable!(),
    }
}

// Runs an image with the acts of a list.
fn run_listed<F: Shelf, K: Sink>(
    alloc: Global,
    image: &Image,
    settings: &Settings,
    inputs: &[i32],
    actor: &mut ListActor,
    shelf: &mut F,
    sink: &mut K,
) -> Status
    requires fits { Fits image.now settings.now }
    requires plain { settings.now.code ≡ false }
    requires paced { IsTrue (is_paced image.now) }
    ensures { Gives (SupplyAnswer (Coded image.now) settings.now inputs.now (Listed actor.old))
        (K.written sink.old) (K.written sink.new)
        (record { misses = F.misses shelf.old; faults = F.faults shelf.old; sink = K.faults sink.old })
        (record { misses = F.misses shelf.new; faults = F.faults shelf.new; sink = K.faults sink.new }) (number_of result) }
{
    let outcome = run(alloc, image, settings, inputs, actor, shelf, sink);
    give_outcome(alloc, outcome, sink)
}

// Runs an image with the sandbox's own code.
fn run_own<F: Shelf, K: Sink>(
    alloc: Global,
    image: &Image,
    settings: &Settings,
    inputs: &[i32],
    shelf: &mut F,
    sink: &mut K,
) -> Status
    requires fits { Fits image.now settings.now }
    requires plain { settings.now.code ≡ false }
    ensures { Gives (SupplyAnswer (Coded image.now) settings.now inputs.now Own)
        (K.written sink.old) (K.written sink.new)
        (record { misses = F.misses shelf.old; faults = F.faults shelf.old; sink = K.faults sink.old })
        (record { misses = F.misses shelf.new; faults = F.faults shelf.new; sink = K.faults sink.new }) (number_of result) }
{
    match CodeActor::start(alloc, image, settings.budget) {
        Ok(mut actor) => {
            let outcome = run(alloc, image, settings, inputs, &mut actor, shelf, sink);
            give_outcome(alloc, outcome, sink)
        }
        Err(NoMemory) => Status::NoMemory,
    }
}
