// The actor that gives the acts of a file.

ghost use Rattle.std.specs.Prelude.{◌≡◌, length, IfOk, IfErr};
ghost use Rattle.std.specs.List.{All};
ghost use Rattle.act_words.specs.Acts.{IsAct};
ghost use Rattle.ckc_io.specs.Files.{Told};
ghost use Rattle.sandbox_actor.specs.ActLists.{ActList, no_acts, ListAnswers};
ghost use Rattle.sandbox_actor.specs.Answers.{ActorCounts};
ghost use Rattle.sandbox_actor.specs.ListActors.{StartAnswers, IsReadFault};

use crate::actor::{Actor, ActorFault, Now};
use crate::lines::{TEXT_LIMIT, act_at, next_line};
use act_words::act::Act;
use ckc_io::shelf::Shelf;
use ckc_io::whole::{ReadFault, read_whole};
use std::alloc::Global;
use std::marker::Model;

/// Gives the acts of a file, which is read when the actor is made.
#[derive(Drop)]
pub struct ListActor {
    alloc: Global,
    text: Vec<u8>,
    // The number of the next line, and where it begins.
    number: u64,
    at: usize,
}

impl Model for ListActor {
    ghost use Rattle.std.specs.Prelude.{◌≤◌, length};
    ghost use Rattle.sandbox_actor.specs.ActLists.{ActList};
    ghost use Rattle.sandbox_actor.specs.Lines.{acts_at};

    ghost Value = { ActList };

    ghost view = { λ a. acts_at a.text.items a.number a.at };

    ghost invariant = { λ a. a.at ≤ length a.text.items };
}

impl ListActor {
    /// An actor without acts.
    pub fn empty(alloc: Global) -> ListActor
        ensures { result ≡ no_acts }
    {
        ListActor {
            alloc,
            text: Vec::new(alloc),
            number: 1,
            at: 0,
        }
    }

    /// Reads the file of a name, up to one byte more than its lines may have.
    pub fn start<F: Shelf>(
        alloc: Global,
        shelf: &mut F,
        name: &str,
    ) -> Result<ListActor, ActorFault>
        ensures content { Told (F.files shelf.old) (λ m. StartAnswers m name.now result) }

        ensures acts { IfOk result (λ actor. All IsAct actor.acts) }

        // No line is read yet.
        ensures fault { IfErr result IsReadFault }
        ensures files { F.files shelf.new ≡ F.files shelf.old }
        ensures counts { ActorCounts result
            (F.misses shelf.old) (F.misses shelf.new) (F.faults shelf.old) (F.faults shelf.new) }
    {
        match read_whole(alloc, shelf, name, TEXT_LIMIT + 1) {
            Ok(text) => Ok(ListActor {
                alloc,
                text,
                number: 1,
                at: 0,
            }),
            Err(ReadFault::Missing) => Err(ActorFault::Missing),
            Err(ReadFault::Failed) => Err(ActorFault::Failed),
            Err(ReadFault::NoMemory) => Err(ActorFault::NoMemory),
        }
    }
}

impl Actor for ListActor {
    ghost State = { ActList };

    ghost state_of = { λ actor. actor };

    ghost measure = { λ actor. length actor.acts };

    ghost answers = { λ before _ _ answer after. ListAnswers before answer after };

    fn next<F: Shelf>(&mut self, _shelf: &mut F, _now: &Now) -> Result<Act, ActorFault> {
        let text = self.text.as_slice();
        let Some(line) = next_line(text, self.number, self.at) else {
            return Err(ActorFault::Ended);
        };
        let act = act_at(self.alloc, text, &line)?;
        self.number = line.number + 1;
        self.at = line.end;
        Ok(act)
    }
}
