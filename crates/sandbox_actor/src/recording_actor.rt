// Keeps the acts of another actor.

ghost use Rattle.std.specs.Prelude.{◌≡◌, ◌++◌, ◌∷◌, [], List, IfErr, OnOk};
ghost use Rattle.act_words.specs.Acts.{Act as ActData, act_view};
ghost use Rattle.sandbox_actor.specs.declared.actor.ActorFault.TheVariants as faults;
ghost use Rattle.sandbox_actor.specs.Recordings.{RecordingAnswers};

use crate::actor::{Actor, ActorFault, Now};
use act_recorder::act_list::ActList;
use act_words::act::Act;
use ckc_io::shelf::Shelf;
use ckc_text::fault::NoMemory;
use std::alloc::Global;
use std::marker::Model;

/// Answers what another actor answers, and keeps the acts in order.
#[derive(Drop)]
pub struct RecordingActor<A: Actor> {
    actor: A,
    list: ActList,
}

impl<A: Actor> Model for RecordingActor<A> {
    ghost use Rattle.std.specs.Prelude.{List};
    ghost use Rattle.act_words.specs.Acts.{Act};

    ghost Value = { A × List Act };

    ghost view = { λ r. (r.actor, r.list) };
}

impl<A: Actor> RecordingActor<A> {
    /// Keeps the acts of an actor from now on. It takes no memory.
    pub fn over(alloc: Global, actor: A) -> RecordingActor<A>
        ensures { result ≡ (actor, []) }
    {
        RecordingActor {
            actor,
            list: ActList::new(alloc),
        }
    }

    /// The acts that were answered, in order.
    pub fn acts(&self) -> &ActList
        ensures { result.now ≡ self.now.1 }
    {
        &self.list
    }

    // Puts an act behind those that are kept.
    fn keep(&mut self, act: &Act) -> Result<(), ActorFault>
        ensures kept { OnOk result (self.new ≡ (self.old.0, self.old.1 ++ act_view act.now ∷ [])) }
        ensures memory { IfErr result (λ fault. fault ≡ faults.NoMemory) }
    {
        match self.list.push(*act) {
            Ok(()) => Ok(()),
            Err(NoMemory) => Err(ActorFault::NoMemory),
        }
    }
}

impl<A: Actor> Actor for RecordingActor<A> {
    ghost State = { A.State × List ActData };

    ghost state_of = { λ actor. (A.state_of actor.0, actor.1) };

    ghost measure = { λ actor. A.measure actor.0 };

    ghost answers = { RecordingAnswers A.answers };

    // An act for which there is no memory isn't answered.
    fn next<F: Shelf>(&mut self, shelf: &mut F, now: &Now) -> Result<Act, ActorFault> {
        let act = self.actor.next(shelf, now)?;
        self.keep(&act)?;
        Ok(act)
    }
}
