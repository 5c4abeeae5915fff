// Asking an actor for its acts.

ghost use Rattle.std.specs.Prelude.{◌≡◌};
ghost use Rattle.sandbox_actor.specs.Answers.{moment_of};
ghost use Rattle.run_core.specs.Asked.{AskAnswers, AskLowers, PlayCounts};

use crate::fault::RunFault;
use act_words::act::Act;
use ckc_io::shelf::Shelf;
use sandbox_actor::actor::{Actor, ActorFault, Now};

/// Asks an actor for its next act, unless it has ended. `None` says that no act is left.
///
/// # Errors
///
/// `Line`, `Missing` and `ShelfFailed` where the actor answers so.
pub fn ask<A: Actor, F: Shelf>(
    actor: &mut A,
    shelf: &mut F,
    ended: bool,
    now: &Now,
) -> Result<Option<Act>, RunFault>
    ensures answer { AskAnswers A.answers (F.files shelf.old) (moment_of now.now) ended
        (A.state_of actor.old) (A.state_of actor.new) result }
    ensures lowers { AskLowers now.now.turn result (A.measure actor.old) (A.measure actor.new) }
    ensures files { F.files shelf.new ≡ F.files shelf.old }
    ensures counts { PlayCounts result
        (F.misses shelf.old) (F.misses shelf.new) (F.faults shelf.old) (F.faults shelf.new) }
{
    if ended {
        return Ok(None);
    }
    match actor.next(shelf, now) {
        Ok(act) => Ok(Some(act)),
        Err(ActorFault::Ended) => Ok(None),
        Err(ActorFault::Line { line, code }) => Err(RunFault::Line { line, code }),
        Err(ActorFault::Missing) => Err(RunFault::Missing),
        Err(ActorFault::Failed) => Err(RunFault::ShelfFailed),
        Err(ActorFault::NoMemory) => Err(RunFault::NoMemory),
    }
}
