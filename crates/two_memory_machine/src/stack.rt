// Steps that pop words, push what is checked, jump, or spend a tick.

ghost use Rattle.std.specs.Prelude.{◌≤◌, drop, length};
ghost use Rattle.code_words.specs.Table.{push_checked, check as check_line};
ghost use Rattle.code_words.specs.Functions.{Func as FuncData};
ghost use Rattle.two_memory_machine_memory.specs.CheckedNumbers.{checked_of};
ghost use Rattle.two_memory_machine_states.specs.Steps.{Acts, GoesBy, IsIn, IsReady};

use act_words::ending::Ending;
use ckc_text::code::Code;
use ckc_text::place::Place;
use code_words::op::Op;
use two_memory_machine_states::outcome::Outcome;
use two_memory_machine_states::running_image::RunningImage;

/// Pops words, and pushes the number of a check that holds.
#[inline(always)]
pub fn push_number(
    machine: &mut RunningImage,
    popped: usize,
    number: Result<i32, Ending>,
) -> Outcome
    requires ready { IsReady machine.old }
    requires there { popped ≤ length machine.old.frame.stack }
    ensures { (f : FuncData) → IsIn machine.old f
        → GoesBy (push_checked f (checked_of number) (drop popped machine.old.frame.stack) machine.old.frame) machine.old result machine.new }
{
    match number {
        Ok(number) => machine.push(popped, number.cast_unsigned()),
        Err(ending) => machine.end(ending),
    }
}

/// Pops words, and goes on where a check holds.
#[tactic(auto, using(std::proofs::lemmas::Bool::Decides::nat_tests))]
#[inline(always)]
pub fn check(
    machine: &mut RunningImage,
    popped: usize,
    holds: bool,
    code: Code,
    place: Place,
) -> Outcome
    requires ready { IsReady machine.old }
    requires there { popped ≤ length machine.old.frame.stack }
    ensures { GoesBy (check_line holds code place (drop popped machine.old.frame.stack) machine.old.frame) machine.old result machine.new }
{
    if !holds {
        return machine.end(Ending::Check { code, place });
    }
    machine.go_on(popped)
}

/// Goes on at an instruction of the same function.
#[inline(always)]
pub fn jump(machine: &mut RunningImage, target: u32) -> Outcome
    requires { IsReady machine.old }
    ensures { Acts (Op.Jump target) machine.old result machine.new }
{
    machine.jump(0, target)
}

/// Pops a word, and goes on there where it is 0.
#[tactic(auto, using(std::proofs::lemmas::Bool::Decides::nat_tests))]
#[inline(always)]
pub fn jump_if_zero(machine: &mut RunningImage, target: u32) -> Outcome
    requires { IsReady machine.old }
    ensures { Acts (Op.JumpIfZero target) machine.old result machine.new }
{
    let Some(word) = machine.word() else {
        return machine.end_wild();
    };
    if word != 0 {
        return machine.go_on(1);
    }
    machine.jump(1, target)
}

/// Spends a tick.
#[tactic(auto, using(std::proofs::lemmas::Bool::Decides::nat_tests))]
#[inline(always)]
pub fn tick(machine: &mut RunningImage) -> Outcome
    requires { IsReady machine.old }
    ensures { Acts Op.Tick machine.old result machine.new }
{
    let spent = machine.ticks();
    if spent >= machine.budget() {
        return machine.end(Ending::Stop {
            code: Code::S1,
            act: None,
        });
    }
    machine.set_ticks(spent + 1);
    machine.go_on(0)
}
