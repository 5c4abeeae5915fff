// Instructions that reach memory, make blocks in it, or return.

ghost use Rattle.two_memory_machine_states.specs.Steps.{Acts, IsReady};

use code_words::op::Op;
use two_memory_machine_states::outcome::Outcome;
use two_memory_machine_states::running_image::RunningImage;

/// Pops an address, and pushes the byte there.
#[inline(always)]
pub fn load_1(machine: &mut RunningImage) -> Outcome
    requires { IsReady machine.old }
    ensures { Acts Op.Load1 machine.old result machine.new }
{
    machine.load(1)
}

/// Pops an address, and pushes the word there.
#[inline(always)]
pub fn load_4(machine: &mut RunningImage) -> Outcome
    requires { IsReady machine.old }
    ensures { Acts Op.Load4 machine.old result machine.new }
{
    machine.load(4)
}

/// Pops a value and an address, and stores the lowest byte of the value there.
#[inline(always)]
pub fn store_1(machine: &mut RunningImage) -> Outcome
    requires { IsReady machine.old }
    ensures { Acts Op.Store1 machine.old result machine.new }
{
    machine.store(1)
}

/// Pops a value and an address, and stores the value there.
#[inline(always)]
pub fn store_4(machine: &mut RunningImage) -> Outcome
    requires { IsReady machine.old }
    ensures { Acts Op.Store4 machine.old result machine.new }
{
    machine.store(4)
}

/// Pops a count, and pushes the address of a block of so many elements, or 0 where there are none.
pub fn alloc(machine: &mut RunningImage, size: u32) -> Outcome
    requires { IsReady machine.old }
    ensures { Acts (Op.Alloc size) machine.old result machine.new }
{
    machine.allocate(size, 0)
}

/// The same with one element more.
pub fn alloc_terminated(machine: &mut RunningImage, size: u32) -> Outcome
    requires { IsReady machine.old }
    ensures { Acts (Op.AllocTerminated size) machine.old result machine.new }
{
    machine.allocate(size, 1)
}

/// Returns the topmost word.
pub fn return_word(machine: &mut RunningImage) -> Outcome
    requires { IsReady machine.old }
    ensures { Acts Op.Return machine.old result machine.new }
{
    let Some(word) = machine.word() else {
        return machine.end_wild();
    };
    machine.leave(1, Some(word))
}

/// Returns nothing.
pub fn return_nothing(machine: &mut RunningImage) -> Outcome
    requires { IsReady machine.old }
    ensures { Acts Op.ReturnNothing machine.old result machine.new }
{
    machine.leave(0, None)
}
