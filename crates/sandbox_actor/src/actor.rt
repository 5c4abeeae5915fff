// What an actor is asked, and what it answers.

ghost use Rattle.std.specs.Prelude.{◌≡◌, ℕ, IfOk, Option};
ghost use Rattle.act_words.specs.Acts.{act_view};
ghost use Rattle.ckc_io.specs.Files.{Files};
ghost use Rattle.sandbox_actor.specs.Answers.{Answer, Moment, moment_of, Answered, Stays, Lowers, ActorCounts};

use act_words::act::{Act, Seen, Turn};
use ckc_io::shelf::Shelf;
use ckc_text::code::Code;
use thiserror::Error;

/// What an actor is told when it is asked for an act.
#[derive(Clone, Copy)]
pub struct Now {
    /// Whose turn it is.
    pub turn: Turn,
    /// What the sandbox was shown last, if it was shown anything.
    pub last: Option<Seen>,
}

/// Why an actor gave no act.
#[derive(Debug, Drop, Error)]
pub enum ActorFault {
    /// No act is left.
    #[error("the acts have ended")]
    Ended,
    /// The line of this number is refused, the first being 1: A1 to A5.
    #[error("an act line is refused")]
    Line { line: u64, code: Code },
    /// No file has the name.
    #[error("the file of acts is missing")]
    Missing,
    /// The device failed.
    #[error("the file of acts can't be read")]
    Failed,
    #[error("out of memory")]
    NoMemory,
}

/// Gives the sandbox's acts, one by one.
pub trait Actor {
    /// What the relation sees of an actor.
    ghost State: { Type 0 };

    /// What it sees of this one.
    ghost state_of: { Self → State };

    /// Falls at each act that leaves the turn, and the program's place, as they were: so a run ends.
    ghost measure: { Self → ℕ };

    /// The relation: from a state, over files that may be told, and at a moment, this may be the answer, and this the
    /// state behind it.
    ghost answers: { State → Option Files → Moment → Answer → State → Type 0 };

    /// The next act. The shelf is lent for this call, for an actor that reads its acts as they are needed.
    fn next<F: Shelf>(&mut self, shelf: &mut F, now: &Now) -> Result<Act, ActorFault>
        ensures answer { Answered
            (λ answer after. answers (state_of self.old) (F.files shelf.old) (moment_of now.now) answer after)
            (state_of self.new) result }

        // A line that is refused, a file that isn't there and a device that failed leave what the relation sees.
        ensures stays { Stays result (state_of self.old) (state_of self.new) }
        ensures lowers { IfOk result
            (λ act. Lowers now.now.turn (act_view act) (measure self.old) (measure self.new)) }
        ensures files { F.files shelf.new ≡ F.files shelf.old }
        ensures counts { ActorCounts result
            (F.misses shelf.old) (F.misses shelf.new) (F.faults shelf.old) (F.faults shelf.new) };
}
