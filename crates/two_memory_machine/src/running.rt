// Many steps at once.

ghost use Rattle.std.specs.Prelude.{◌≡◌, ◌<◌};
ghost use Rattle.two_memory_machine_states.specs.Machines.{Steps, waiting_of, ending_given, moves_left, TellsSomething};
ghost use Rattle.two_memory_machine.specs.Running.{StepsOn, TriesStep};
ghost use Rattle.two_memory_machine.specs.Together.{TriesSteps};

use crate::families;
use crate::told::told_step;
use code_words::op::Op;
use two_memory_machine_states::event::{Event, Waiting};
use two_memory_machine_states::outcome::Outcome;
use two_memory_machine_states::running_image::RunningImage;

/// Makes the next step.
#[inline(never)]
pub fn step(machine: &mut RunningImage) -> Event
    requires { waiting_of machine.old ≡ Waiting.Runs }
    ensures steps { Steps machine.old result machine.new }
    ensures over { machine.new.over ≡ ending_given result }
    ensures sooner { moves_left machine.new < moves_left machine.old }
{
    match try_step(machine) {
        Some(outcome) => machine.event(outcome),
        None => told_step(machine),
    }
}

/// Makes steps up to one that has to be told.
#[inline(never)]
pub fn run_on(machine: &mut RunningImage) -> Event
    requires { waiting_of machine.old ≡ Waiting.Runs }
    ensures steps { StepsOn machine.old result machine.new }
    ensures over { machine.new.over ≡ ending_given result }
    ensures told { TellsSomething result }
    ensures sooner { moves_left machine.new < moves_left machine.old }
{
    'steps: loop {
        match try_steps(machine) {
            Some(Outcome::Ran) => {}
            Some(Outcome::Asks) => return Event::Asks,
            Some(Outcome::Ended) => return machine.event(Outcome::Ended),
            None => match told_step(machine) {
                Event::Ran => {}
                event => return event,
            },
        }
    }
}

// Makes the next step, unless it writes or takes an input number. An `Outcome` goes from hand to hand in a register.
#[inline(always)]
fn try_step(machine: &mut RunningImage) -> Option<Outcome>
    requires { waiting_of machine.old ≡ Waiting.Runs }
    ensures { TriesStep machine.old result machine.new }
{
    let Some(op) = machine.op() else {
        return Some(machine.end_wild());
    };
    match op {
        Op::NextInput => None,
        _ => families::perform_one(machine, op),
    }
}

// Makes the next step, and some with it where it leads, unless it writes or takes an input number.
#[inline(always)]
fn try_steps(machine: &mut RunningImage) -> Option<Outcome>
    requires { waiting_of machine.old ≡ Waiting.Runs }
    ensures { TriesSteps machine.old result machine.new }
{
    let Some(op) = machine.op() else {
        return Some(machine.end_wild());
    };
    match op {
        Op::NextInput => None,
        _ => families::perform(machine, op),
    }
}
