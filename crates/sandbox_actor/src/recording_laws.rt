// What holds of an actor that keeps the acts of another one, whichever that is.

ghost use Rattle.std.specs.Prelude.{◌≡◌, ◌++◌, List};
ghost use Rattle.act_words.specs.Acts.{Act};
ghost use Rattle.sandbox_actor.specs.Recordings.{Gave, HasOneAnswer};

use crate::actor::Actor;
use crate::recording_actor::RecordingActor;

/// From a state where the other actor has at most one answer at each moment, with one state behind it, so has this one.
pub fn one_answer<A: Actor>()
    ensures { (before : A.State × List Act) → HasOneAnswer A.answers before.0 → HasOneAnswer ⟦<RecordingActor<A> as Actor>⟧.answers before }
{}

/// Acts that are answered one after another are acts of the other actor, and they are kept: all, in order, and each once,
/// behind those that were kept before.
pub fn kept_in_order<A: Actor>()
    ensures { (first last : A.State × List Act) (acts : List Act) → Gave ⟦<RecordingActor<A> as Actor>⟧.answers first acts last
        → Gave A.answers first.0 acts last.0 × (last.1 ≡ first.1 ++ acts) }
{}
