// Which function makes the step of which instruction.

ghost use Rattle.std.specs.Prelude.{◌≡◌, ◌≤◌, Some, IsTrue};
ghost use Rattle.code_words.specs.Paced.{is_paced};
ghost use Rattle.two_memory_machine.specs.Families.{family, ActsUnlessTold, RunsUnlessTold};
ghost use Rattle.two_memory_machine_states.specs.Machines.{next_op_of};
ghost use Rattle.two_memory_machine_states.specs.Steps.{IsReady};

use crate::{bounds, memory, operations, stack, together, touches};
use code_words::op::Op;
use two_memory_machine_states::outcome::Outcome;
use two_memory_machine_states::running_image::RunningImage;

/// Makes the step of an instruction, and some with it where it leads, unless it writes or waits for a number.
#[inline(always)]
pub fn perform(machine: &mut RunningImage, op: &Op) -> Option<Outcome>
    requires ready { IsReady machine.old }
    requires next { next_op_of machine.old ≡ Some op.now }
    requires paced { IsTrue (is_paced machine.old.image) }
    ensures { RunsUnlessTold op.now machine.old result machine.new }
{
    match op {
        Op::Const(number) => Some(together::constant(machine, *number)),
        Op::Local(slot) => Some(together::local(machine, *slot)),
        Op::Set(slot) => Some(machine.set(*slot)),
        Op::Discard => Some(operations::discard(machine)),
        Op::Duplicate => Some(operations::duplicate(machine)),
        Op::BlockAddress(k) => Some(machine.block_address(*k)),
        Op::BlockOffset(k) => Some(machine.block_offset(*k)),
        Op::Jump(target) => Some(stack::jump(machine, *target)),
        Op::JumpIfZero(target) => Some(stack::jump_if_zero(machine, *target)),
        Op::Call(k) => Some(machine.call(*k)),
        Op::TaintedCall { import, place } => Some(machine.call_tainted(*import, *place)),
        Op::CallBack(_) => Some(machine.end_wild()),
        Op::Return => Some(memory::return_word(machine)),
        Op::ReturnNothing => Some(memory::return_nothing(machine)),
        Op::Tick => Some(stack::tick(machine)),
        Op::Arithmetic { operator, place } => Some(operations::compute(machine, *operator, *place)),
        Op::Neg { place } => Some(operations::negate(machine, *place)),
        Op::Index { size } => Some(operations::index(machine, *size)),
        Op::WrapAdd => Some(operations::wrapping_add(machine)),
        Op::WrapSub => Some(operations::wrapping_subtract(machine)),
        Op::WrapMul => Some(operations::wrapping_multiply(machine)),
        Op::WrapNeg => Some(operations::wrapping_negate(machine)),
        Op::WrapShl => Some(operations::wrapping_shift_left(machine)),
        Op::WrapShr => Some(operations::wrapping_shift_right(machine)),
        Op::WrapDiv | Op::WrapRem => Some(machine.end_wild()),
        Op::Bitwise(operator) => Some(operations::combine(machine, *operator)),
        Op::Not => Some(operations::complement(machine)),
        Op::Compare(comparison) => Some(operations::compare(machine, *comparison)),
        Op::UnsignedLess => Some(operations::unsigned_less(machine)),
        Op::UnsignedLessEqual => Some(operations::unsigned_less_equal(machine)),
        Op::UnsignedGreater => Some(operations::unsigned_greater(machine)),
        Op::UnsignedGreaterEqual => Some(operations::unsigned_greater_equal(machine)),
        Op::Zero => Some(operations::is_zero(machine)),
        Op::Byte => Some(operations::low_byte(machine)),
        Op::NonNull { place } => Some(together::non_null(machine, *place)),
        Op::In {
            low,
            high,
            size,
            place,
        } => Some(bounds::check_in(machine, *low, *high, *size, *place)),
        Op::Load1 => Some(memory::load_1(machine)),
        Op::Load4 => Some(memory::load_4(machine)),
        Op::Store1 => Some(memory::store_1(machine)),
        Op::Store4 => Some(memory::store_4(machine)),
        Op::TouchLoad1 => Some(touches::touch_load_1(machine)),
        Op::TouchLoad4 => Some(touches::touch_load_4(machine)),
        Op::TouchStore1 => Some(touches::touch_store_1(machine)),
        Op::TouchStore4 => Some(touches::touch_store_4(machine)),
        Op::Alloc { size } => Some(memory::alloc(machine, *size)),
        Op::AllocTerminated { size } => Some(memory::alloc_terminated(machine, *size)),
        Op::SandboxAlloc { size } => Some(machine.sandbox_alloc(*size)),
        Op::TextLength => Some(machine.text_length()),
        _ => check_operands(machine, op),
    }
}

/// Makes the step of an instruction alone, unless it writes or waits for a number.
#[inline(always)]
pub fn perform_one(machine: &mut RunningImage, op: &Op) -> Option<Outcome>
    requires ready { IsReady machine.old }
    requires next { next_op_of machine.old ≡ Some op.now }
    requires paced { IsTrue (is_paced machine.old.image) }
    ensures { ActsUnlessTold op.now machine.old result machine.new }
{
    match op {
        Op::Const(number) => Some(together::push(machine, *number)),
        Op::Local(slot) => Some(machine.local(*slot)),
        Op::NonNull { place } => Some(bounds::non_null(machine, *place)),
        _ => perform(machine, op),
    }
}

// Makes the step of a check that is less common, and none of an instruction that writes or waits for a number.
#[inline(never)]
fn check_operands(machine: &mut RunningImage, op: &Op) -> Option<Outcome>
    requires ready { IsReady machine.old }
    requires family { 2 ≤ family op.now }
    ensures { ActsUnlessTold op.now machine.old result machine.new }
{
    match op {
        Op::UpTo {
            low,
            high,
            size,
            place,
        } => Some(bounds::check_up_to(machine, *low, *high, *size, *place)),
        Op::Term { high, size, place } => Some(bounds::check_term(machine, *high, *size, *place)),
        Op::Contain {
            old_low,
            old_high,
            new_low,
            new_high,
            size,
            place,
        } => Some(bounds::check_contain(
            machine, *old_low, *old_high, *new_low, *new_high, *size, *place,
        )),
        Op::Lies {
            low,
            high,
            size,
            more,
            place,
        } => Some(bounds::check_lies(machine, *low, *high, *size, *more, *place)),
        Op::Range { offset, len, place } => Some(bounds::check_range(
            machine, *offset, *len, *place,
        )),
        Op::NextInput | Op::Print | Op::PutByte => None,
        _ => unreachable!(),
    }
}
