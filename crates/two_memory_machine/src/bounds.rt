// Checks of pointers and of bounds.

ghost use Rattle.two_memory_machine_states.specs.Steps.{Acts, IsReady};

use crate::stack;
use ckc_text::code::Code;
use ckc_text::place::Place;
use code_words::op::Op;
use marshalling::ends::Ends;
use two_memory_machine_memory::bounds;
use two_memory_machine_states::outcome::Outcome;
use two_memory_machine_states::running_image::RunningImage;

/// Goes on if the topmost word isn't 0 (C1).
#[inline(always)]
pub fn non_null(machine: &mut RunningImage, place: Place) -> Outcome
    requires { IsReady machine.old }
    ensures { Acts (Op.NonNull place) machine.old result machine.new }
{
    let Some(word) = machine.word() else {
        return machine.end_wild();
    };
    stack::check(machine, 0, word != 0, Code::C1, place)
}

/// Goes on if an element lies between ends (C2).
#[inline(always)]
pub fn check_in(
    machine: &mut RunningImage,
    low_plus: i64,
    high_plus: i64,
    size: u32,
    place: Place,
) -> Outcome
    requires { IsReady machine.old }
    ensures { Acts (Op.In low_plus high_plus size place) machine.old result machine.new }
{
    let Some((pointer, index, base, low, high)) = machine.five_words() else {
        return machine.end_wild();
    };
    let ends = Ends {
        base,
        low,
        low_plus,
        high,
        high_plus,
        size,
    };
    let holds = bounds::holds(&ends, pointer, index);
    stack::check(machine, 5, holds, Code::C2, place)
}

/// Goes on if an element lies between ends, or at the upper one (C2).
pub fn check_up_to(
    machine: &mut RunningImage,
    low_plus: i64,
    high_plus: i64,
    size: u32,
    place: Place,
) -> Outcome
    requires { IsReady machine.old }
    ensures { Acts (Op.UpTo low_plus high_plus size place) machine.old result machine.new }
{
    let Some((pointer, index, base, low, high)) = machine.five_words() else {
        return machine.end_wild();
    };
    let ends = Ends {
        base,
        low,
        low_plus,
        high,
        high_plus,
        size,
    };
    let holds = bounds::reaches(&ends, pointer, index);
    stack::check(machine, 5, holds, Code::C2, place)
}

/// Goes on if the value is 0 or the element doesn't lie at the upper end (C3).
pub fn check_term(machine: &mut RunningImage, high_plus: i64, size: u32, place: Place) -> Outcome
    requires { IsReady machine.old }
    ensures { Acts (Op.Term high_plus size place) machine.old result machine.new }
{
    let Some((pointer, index, base, high, value)) = machine.five_words() else {
        return machine.end_wild();
    };
    let ends = Ends {
        base,
        low: 0,
        low_plus: 0,
        high,
        high_plus,
        size,
    };
    let holds = bounds::leaves_end(&ends, pointer, index, value);
    stack::check(machine, 5, holds, Code::C3, place)
}

/// Goes on if new ends lie within old ones, unless they are turned or the pointer below is null (C5).
pub fn check_contain(
    machine: &mut RunningImage,
    old_low: i64,
    old_high: i64,
    new_low: i64,
    new_high: i64,
    size: u32,
    place: Place,
) -> Outcome
    requires { IsReady machine.old }
    ensures { Acts (Op.Contain old_low old_high new_low new_high size place) machine.old result machine.new }
{
    let Some((pointer, base1, low1, high1, base2, low2, high2)) = machine.seven_words() else {
        return machine.end_wild();
    };
    let old = Ends {
        base: base1,
        low: low1,
        low_plus: old_low,
        high: high1,
        high_plus: old_high,
        size,
    };
    let new = Ends {
        base: base2,
        low: low2,
        low_plus: new_low,
        high: high2,
        high_plus: new_high,
        size,
    };
    let holds = bounds::contains(&old, pointer, &new);
    stack::check(machine, 6, holds, Code::C5, place)
}

/// Goes on if ends lie in the sandbox's memory, with so many bytes more, unless they are turned or the pointer below is
/// null (C5).
pub fn check_lies(
    machine: &mut RunningImage,
    low_plus: i64,
    high_plus: i64,
    size: u32,
    more: u32,
    place: Place,
) -> Outcome
    requires { IsReady machine.old }
    ensures { Acts (Op.Lies low_plus high_plus size more place) machine.old result machine.new }
{
    let Some((pointer, base, low, high)) = machine.four_words() else {
        return machine.end_wild();
    };
    let ends = Ends {
        base,
        low,
        low_plus,
        high,
        high_plus,
        size,
    };
    let memory = machine.sandbox_size();
    let holds = ends.lie_in(memory, pointer, more);
    stack::check(machine, 3, holds, Code::C5, place)
}

/// Goes on if the bytes from the topmost word on lie in the sandbox's memory (C4).
pub fn check_range(machine: &mut RunningImage, offset: u32, len: u32, place: Place) -> Outcome
    requires { IsReady machine.old }
    ensures { Acts (Op.Range offset len place) machine.old result machine.new }
{
    let Some(word) = machine.word() else {
        return machine.end_wild();
    };
    let holds = bounds::lie_behind(word, offset, len, machine.sandbox_size());
    stack::check(machine, 0, holds, Code::C4, place)
}
