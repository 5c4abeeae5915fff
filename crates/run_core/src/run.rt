// Running an image with an actor.

ghost use Rattle.std.specs.Prelude.{◌≡◌, false};
ghost use Rattle.code_words.specs.Fitting.{Fits};
ghost use Rattle.run_core.specs.Runs.{RunWrites, RunCounts};
ghost use Rattle.run_core.specs.Finishes.{Finishes};
ghost use Rattle.run_core.specs.Progress.{blocks_of};

use crate::fault::RunFault;
use crate::finish::{write_end, write_front};
use crate::play::Play;
use act_words::ending::Ending;
use act_words::settings::Settings;
use ckc_io::shelf::Shelf;
use ckc_io::sink::Sink;
use code_words::image::Image;
use sandbox_actor::actor::Actor;
use std::alloc::Global;

/// Runs an image to its end, with these input numbers and the sandbox's acts from an actor, and writes the text of the
/// run: what the settings ask for of what happened, the line of the ending, and the last blocks of trusted memory, where
/// they are asked for. Behind the last input number come zeros. The shelf is lent to the actor at each act.
///
/// # Errors
///
/// `Line` and `Missing` where the run needs an act and the actor answers so. The text up to there was written, and the
/// line feed that it lacks; the line that names the fault is left to the caller. `ShelfFailed` where the actor answers
/// that the shelf failed, and `SinkFailed` where the sink failed, which then holds a front of the text.
pub fn run<A: Actor, F: Shelf, K: Sink>(
    alloc: Global,
    image: &Image,
    settings: &Settings,
    inputs: &[i32],
    actor: &mut A,
    shelf: &mut F,
    sink: &mut K,
) -> Result<Ending, RunFault>
    requires fits { Fits image.now settings.now }
    requires plain { settings.now.code ≡ false }
    ensures writes { RunWrites A.answers (F.files shelf.old) image.now settings.now inputs.now (A.state_of actor.old) (A.state_of actor.new)
        (K.written sink.old) (K.written sink.new) result }
    ensures files { F.files shelf.new ≡ F.files shelf.old }
    ensures counts { RunCounts result
        (record { misses = F.misses shelf.old; faults = F.faults shelf.old; sink = K.faults sink.old })
        (record { misses = F.misses shelf.new; faults = F.faults shelf.new; sink = K.faults sink.new }) }
{
    let mut play = Play::start(alloc, image, settings, inputs)?;
    let outcome = play.to_end(alloc, actor, shelf);
    finish(alloc, &mut play, outcome, sink)
}

// Writes the text of a run that has come to its end, or to an act that can't be given, and nothing else.
fn finish<K: Sink>(
    alloc: Global,
    play: &mut Play,
    outcome: Result<Ending, RunFault>,
    sink: &mut K,
) -> Result<Ending, RunFault>
    ensures { Finishes play.old.text.items play.old.settings (blocks_of play.old.machine) outcome
        (K.written sink.old) (K.written sink.new) (K.faults sink.old) (K.faults sink.new) result }
{
    match outcome {
        Ok(ending) => {
            let blocks = play.last_blocks(alloc)?;
            write_end(alloc, &mut play.text, ending, blocks.as_slice(), sink)
        }
        Err(fault) => write_front(&mut play.text, fault, sink),
    }
}
