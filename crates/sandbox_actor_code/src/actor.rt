// The sandbox's code, asked for one act at a time.

ghost use Rattle.sandbox_actor_code.specs.Answering.{CodeState, CodeAnswers};
ghost use Rattle.sandbox_actor_code.specs.Codes.{code_left, code_state};

use crate::code_actor::CodeActor;
use act_words::act::{Act, Turn};
use ckc_io::shelf::Shelf;
use sandbox_actor::actor::{Actor, ActorFault, Now};

impl<'a> Actor for CodeActor<'a> {
    ghost State = { CodeState };

    ghost state_of = { λ actor. code_state actor };

    ghost measure = { λ actor. code_left actor };

    ghost answers = { λ before _ now answer after. CodeAnswers before now answer after };

    // The code lets touches through, and acts in its own turn.
    fn next<F: Shelf>(&mut self, _shelf: &mut F, now: &Now) -> Result<Act, ActorFault> {
        match now.turn {
            Turn::Trusted => Ok(Act::Go),
            Turn::Sandbox => Ok(self.answer(&now.last)),
        }
    }
}
