// Instructions that pop words and push what they come to.

ghost use Rattle.two_memory_machine_states.specs.Steps.{Acts, IsReady};

use crate::stack;
use act_words::operator::{ArithmeticOperator, BitwiseOperator, Comparison};
use ckc_text::place::Place;
use code_words::op::Op;
use two_memory_machine_memory::arithmetic;
use two_memory_machine_states::outcome::Outcome;
use two_memory_machine_states::running_image::RunningImage;

/// Pops two numbers, and pushes what an arithmetic operator makes of them.
#[inline(always)]
pub fn compute(machine: &mut RunningImage, operator: ArithmeticOperator, place: Place) -> Outcome
    requires { IsReady machine.old }
    ensures { Acts (Op.Arithmetic operator place) machine.old result machine.new }
{
    let Some((left, right)) = machine.two_words() else {
        return machine.end_wild();
    };
    let number = arithmetic::compute(operator, place, left, right);
    stack::push_number(machine, 2, number)
}

/// Pops a number, and pushes it negated.
pub fn negate(machine: &mut RunningImage, place: Place) -> Outcome
    requires { IsReady machine.old }
    ensures { Acts (Op.Neg place) machine.old result machine.new }
{
    let Some(word) = machine.word() else {
        return machine.end_wild();
    };
    let number = arithmetic::negate(place, word);
    stack::push_number(machine, 1, number)
}

/// Pops an address and an index, and pushes the address of the element.
#[inline(always)]
pub fn index(machine: &mut RunningImage, size: u32) -> Outcome
    requires { IsReady machine.old }
    ensures { Acts (Op.Index size) machine.old result machine.new }
{
    let Some((pointer, index)) = machine.two_words() else {
        return machine.end_wild();
    };
    let word = arithmetic::element(pointer, index, size);
    machine.push(2, word)
}

/// Pushes the topmost word again.
#[inline(always)]
pub fn duplicate(machine: &mut RunningImage) -> Outcome
    requires { IsReady machine.old }
    ensures { Acts Op.Duplicate machine.old result machine.new }
{
    let Some(word) = machine.word() else {
        return machine.end_wild();
    };
    machine.push(0, word)
}

/// Pops a word.
#[inline(always)]
pub fn discard(machine: &mut RunningImage) -> Outcome
    requires { IsReady machine.old }
    ensures { Acts Op.Discard machine.old result machine.new }
{
    let Some(_) = machine.word() else {
        return machine.end_wild();
    };
    machine.go_on(1)
}

/// Pops a word, and pushes the negated word.
pub fn wrapping_negate(machine: &mut RunningImage) -> Outcome
    requires { IsReady machine.old }
    ensures { Acts Op.WrapNeg machine.old result machine.new }
{
    let Some(word) = machine.word() else {
        return machine.end_wild();
    };
    machine.push(1, arithmetic::wrapping_negate(word))
}

/// Pops a word, and pushes the word with each bit turned.
pub fn complement(machine: &mut RunningImage) -> Outcome
    requires { IsReady machine.old }
    ensures { Acts Op.Not machine.old result machine.new }
{
    let Some(word) = machine.word() else {
        return machine.end_wild();
    };
    machine.push(1, !word)
}

/// Pops a word, and pushes whether it is 0.
#[inline(always)]
pub fn is_zero(machine: &mut RunningImage) -> Outcome
    requires { IsReady machine.old }
    ensures { Acts Op.Zero machine.old result machine.new }
{
    let Some(word) = machine.word() else {
        return machine.end_wild();
    };
    machine.push(1, u32::from(word == 0))
}

/// Pops a word, and pushes its lowest byte.
#[inline(always)]
pub fn low_byte(machine: &mut RunningImage) -> Outcome
    requires { IsReady machine.old }
    ensures { Acts Op.Byte machine.old result machine.new }
{
    let Some(word) = machine.word() else {
        return machine.end_wild();
    };
    machine.push(1, word % 256)
}

/// Pops two words, and pushes their sum modulo 2^32.
pub fn wrapping_add(machine: &mut RunningImage) -> Outcome
    requires { IsReady machine.old }
    ensures { Acts Op.WrapAdd machine.old result machine.new }
{
    let Some((left, right)) = machine.two_words() else {
        return machine.end_wild();
    };
    machine.push(2, left.wrapping_add(right))
}

/// Pops two words, and pushes their difference modulo 2^32.
pub fn wrapping_subtract(machine: &mut RunningImage) -> Outcome
    requires { IsReady machine.old }
    ensures { Acts Op.WrapSub machine.old result machine.new }
{
    let Some((left, right)) = machine.two_words() else {
        return machine.end_wild();
    };
    machine.push(2, left.wrapping_sub(right))
}

/// Pops two words, and pushes their product modulo 2^32.
pub fn wrapping_multiply(machine: &mut RunningImage) -> Outcome
    requires { IsReady machine.old }
    ensures { Acts Op.WrapMul machine.old result machine.new }
{
    let Some((left, right)) = machine.two_words() else {
        return machine.end_wild();
    };
    machine.push(2, left.wrapping_mul(right))
}

/// Pops two words, and pushes the lower one shifted left.
pub fn wrapping_shift_left(machine: &mut RunningImage) -> Outcome
    requires { IsReady machine.old }
    ensures { Acts Op.WrapShl machine.old result machine.new }
{
    let Some((left, right)) = machine.two_words() else {
        return machine.end_wild();
    };
    machine.push(2, left.wrapping_shl(right))
}

/// Pops two words, and pushes the lower one shifted right.
pub fn wrapping_shift_right(machine: &mut RunningImage) -> Outcome
    requires { IsReady machine.old }
    ensures { Acts Op.WrapShr machine.old result machine.new }
{
    let Some((left, right)) = machine.two_words() else {
        return machine.end_wild();
    };
    machine.push(2, arithmetic::wrapping_shift_right(left, right))
}

/// Pops two words, and pushes what a bitwise operator makes of them.
#[inline(always)]
pub fn combine(machine: &mut RunningImage, operator: BitwiseOperator) -> Outcome
    requires { IsReady machine.old }
    ensures { Acts (Op.Bitwise operator) machine.old result machine.new }
{
    let Some((left, right)) = machine.two_words() else {
        return machine.end_wild();
    };
    machine.push(2, arithmetic::combine(operator, left, right))
}

/// Pops two words, and pushes whether a comparison with a sign holds of them.
#[inline(always)]
pub fn compare(machine: &mut RunningImage, comparison: Comparison) -> Outcome
    requires { IsReady machine.old }
    ensures { Acts (Op.Compare comparison) machine.old result machine.new }
{
    let Some((left, right)) = machine.two_words() else {
        return machine.end_wild();
    };
    machine.push(2, u32::from(arithmetic::compare(comparison, left, right)))
}

/// Pops two words, and pushes whether the lower word is the less.
pub fn unsigned_less(machine: &mut RunningImage) -> Outcome
    requires { IsReady machine.old }
    ensures { Acts Op.UnsignedLess machine.old result machine.new }
{
    let Some((left, right)) = machine.two_words() else {
        return machine.end_wild();
    };
    machine.push(2, u32::from(left < right))
}

/// Pops two words, and pushes whether the lower word is no more.
pub fn unsigned_less_equal(machine: &mut RunningImage) -> Outcome
    requires { IsReady machine.old }
    ensures { Acts Op.UnsignedLessEqual machine.old result machine.new }
{
    let Some((left, right)) = machine.two_words() else {
        return machine.end_wild();
    };
    machine.push(2, u32::from(left <= right))
}

/// Pops two words, and pushes whether the lower word is the greater.
pub fn unsigned_greater(machine: &mut RunningImage) -> Outcome
    requires { IsReady machine.old }
    ensures { Acts Op.UnsignedGreater machine.old result machine.new }
{
    let Some((left, right)) = machine.two_words() else {
        return machine.end_wild();
    };
    machine.push(2, u32::from(left > right))
}

/// Pops two words, and pushes whether the lower word is no less.
pub fn unsigned_greater_equal(machine: &mut RunningImage) -> Outcome
    requires { IsReady machine.old }
    ensures { Acts Op.UnsignedGreaterEqual machine.old result machine.new }
{
    let Some((left, right)) = machine.two_words() else {
        return machine.end_wild();
    };
    machine.push(2, u32::from(left >= right))
}
