// What a machine waits for, and what its calls did.

use act_words::act::{Release, Seen};
use act_words::ending::Ending;
use act_words::row::Octets;

/// What a machine waits for.
#[derive(Clone, Copy)]
pub enum Waiting {
    /// For its next step.
    Runs,
    /// For an act of the sandbox.
    Act,
    /// For an input number.
    Number,
    /// For nothing: the run is over.
    Over,
}

/// What a step, an act or a number did.
#[derive(Clone, Copy)]
pub enum Event {
    /// Nothing that can be seen.
    Ran,
    /// The instruction's touch waits for an act.
    Asks,
    /// The instruction waits for an input number.
    Input,
    /// The program wrote bytes.
    Out {
        bytes: Octets,
    },
    /// The sandbox was shown something.
    Showed {
        seen: Seen,
    },
    /// A touch was made, and what it gave away was shown to the sandbox, if it is shown.
    Touched {
        release: Release,
        seen: Option<Seen>,
    },
    /// It ended the run.
    Ended {
        ending: Ending,
    },
}

impl Event {
    ghost use Rattle.std.specs.Prelude.{◌≡◌};
    ghost use Rattle.two_memory_machine_states.specs.Machines.{ending_given};

    /// The ending that the event gave the run, if it ended it.
    pub fn ending(&self) -> Option<Ending>
        ensures { result ≡ ending_given self.now }
    {
        match self {
            Event::Ended { ending } => Some(*ending),
            _ => None,
        }
    }
}
