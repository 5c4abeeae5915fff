// Instructions that write, or take an input number.

ghost use Rattle.std.specs.Prelude.{◌≡◌, ◌<◌, Some};
ghost use Rattle.two_memory_machine_states.specs.Machines.{Running, Steps, waiting_of, next_op_of, ending_given, moves_left, TellsSomething};
ghost use Rattle.two_memory_machine_states.specs.Steps.{IsReady, Tells};
ghost use Rattle.two_memory_machine.specs.Told.{Writes, IsTold};

use code_words::op::Op;
use two_memory_machine_states::event::{Event, Waiting};
use two_memory_machine_states::running_image::RunningImage;

/// Makes the next step, which writes, or takes a number or waits for one.
#[inline(never)]
pub fn told_step(machine: &mut RunningImage) -> Event
    requires runs { waiting_of machine.old ≡ Waiting.Runs }
    requires told { IsTold (next_op_of machine.old) }
    ensures steps { Steps machine.old result machine.new }
    ensures over { machine.new.over ≡ ending_given result }
    ensures told { machine.old.doing ≡ Running → TellsSomething result }
    ensures sooner { moves_left machine.new < moves_left machine.old }
{
    let Some(op) = machine.op() else {
        unreachable!();
    };
    match op {
        Op::NextInput => machine.next_input(),
        _ => write(machine, op),
    }
}

// Does what an instruction says that writes.
fn write(machine: &mut RunningImage, op: &Op) -> Event
    requires ready { IsReady machine.old }
    requires writes { Writes op.now }
    ensures line { Tells op.now machine.old result machine.new }
    ensures told { TellsSomething result }
{
    match op {
        Op::Print => machine.print(),
        Op::PutByte => machine.put_byte(),
        _ => unreachable!(),
    }
}
