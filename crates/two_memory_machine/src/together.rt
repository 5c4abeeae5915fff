// Steps that are made together, where their instructions stand one behind the other.

ghost use Rattle.std.specs.Prelude.{◌≡◌, ◌+◌, ◌^◌, ◌<◌, IfSome, IsTrue, None, Some, slice_get, length};
ghost use Rattle.std.specs.Option.{option_copied};
ghost use Rattle.code_words.specs.Paced.{is_paced};
ghost use Rattle.two_memory_machine_states.specs.Ahead.{ahead_of};
ghost use Rattle.two_memory_machine_states.specs.Machines.{Running, waiting_of, next_op_of};
ghost use Rattle.two_memory_machine_states.specs.Steps.{Acts, IsReady};
ghost use Rattle.two_memory_machine.specs.Together.{operand_of, combined_of, HoldsAt, moved_of, IsElement, RunsIf, MadeSteps, SomeSteps};

use crate::bounds as checks;
use ckc_text::place::Place;
use code_words::op::Op;
use marshalling::ends::Ends;
use two_memory_machine_memory::{arithmetic, bounds};
use two_memory_machine_states::event::Waiting;
use two_memory_machine_states::outcome::Outcome;
use two_memory_machine_states::running_image::RunningImage;

// One of the instructions ahead.
#[inline(always)]
fn at<'a>(ops: &'a [Op], k: usize) -> Option<&'a Op>
    ensures { option_copied result ≡ slice_get ops.now k }
{
    ops.get(k)
}

// What an instruction pushes that only reads the slots.
#[inline(always)]
fn read(op: &Op, slots: &[u32]) -> Option<u32>
    ensures { result ≡ operand_of (Some op.now) slots.now }
{
    match op {
        Op::Const(number) => Some(number.cast_unsigned()),
        Op::Local(slot) => slots.get(*slot as usize).copied(),
        _ => None,
    }
}

// What one of the instructions ahead pushes, if it only reads the slots.
#[inline(always)]
fn operand(ops: &[Op], k: usize, slots: &[u32]) -> Option<u32>
    ensures { result ≡ operand_of (slice_get ops.now k) slots.now }
{
    match at(ops, k) {
        Some(op) => read(op, slots),
        None => None,
    }
}

// Whether an instruction is a check of an element, and holds.
#[inline(always)]
fn holds(op: &Op, pointer: u32, index: u32, base: u32, lower: u32, upper: u32) -> bool
    ensures { IsTrue result → HoldsAt (Some op.now) pointer index base lower upper }
{
    match op {
        Op::In {
            low,
            high,
            size,
            place: _,
        } => {
            let ends = Ends {
                base,
                low: lower,
                low_plus: *low,
                high: upper,
                high_plus: *high,
                size: *size,
            };
            bounds::holds(&ends, pointer, index)
        }
        _ => false,
    }
}

// Where an instruction moves an address to by so many elements, if it does.
#[inline(always)]
fn moved(op: &Op, address: u32, number: u32) -> Option<u32>
    ensures { result ≡ moved_of (Some op.now) address number }
{
    match op {
        Op::Index { size } => Some(arithmetic::element(address, number, *size)),
        _ => None,
    }
}

// The address of the element that the next instructions check, if they do and the check holds.
#[inline(always)]
fn checked_address(ops: &[Op], slots: &[u32]) -> Option<u32>
    ensures { IfSome result (IsElement ops.now slots.now) }
{
    let check = at(ops, 6)?;
    let mover = at(ops, 8)?;
    let first = operand(ops, 0, slots)?;
    let pointer = operand(ops, 1, slots)?;
    let index = operand(ops, 2, slots)?;
    let base = operand(ops, 3, slots)?;
    let lower = operand(ops, 4, slots)?;
    let upper = operand(ops, 5, slots)?;
    let number = operand(ops, 7, slots)?;
    if !holds(check, pointer, index, base, lower, upper) {
        return None;
    }
    moved(mover, first, number)
}

// Makes the steps that check an element and find its address, if these come next and the check holds, and tells whether
// it did. If not, all stays.
#[inline(always)]
fn element(machine: &mut RunningImage) -> bool
    requires going { machine.old.over ≡ None }
    requires runs { machine.old.doing ≡ Running }
    ensures { RunsIf result machine.old machine.new }
{
    let Some(ops) = machine.ahead() else {
        return false;
    };
    let Some(address) = checked_address(ops, machine.slots()) else {
        return false;
    };
    if machine.free() < 6 {
        return false;
    }
    machine.replace(0, address, 9);
    true
}

// Makes the step that keeps a pointer aside, if it comes next, and those behind it that check an element.
#[inline(always)]
fn keep_aside(machine: &mut RunningImage) -> Option<Outcome>
    requires waits { waiting_of machine.old ≡ Waiting.Runs }
    requires runs { machine.old.doing ≡ Running }
    ensures { MadeSteps machine.old result machine.new }
{
    let Some(Op::Set(slot)) = machine.op() else {
        return None;
    };
    match machine.set(*slot) {
        Outcome::Ran => {
            let _ = element(machine);
            Some(Outcome::Ran)
        }
        outcome => Some(outcome),
    }
}

/// Makes the step of a check of null, and behind it those that keep the pointer aside and check an element.
#[inline(always)]
pub fn non_null(machine: &mut RunningImage, place: Place) -> Outcome
    requires ready { IsReady machine.old }
    requires next { next_op_of machine.old ≡ Some (Op.NonNull place) }
    requires paced { IsTrue (is_paced machine.old.image) }
    ensures { SomeSteps machine.old result machine.new }
{
    match checks::non_null(machine, place) {
        Outcome::Ran => match keep_aside(machine) {
            Some(outcome) => outcome,
            None => Outcome::Ran,
        },
        outcome => outcome,
    }
}

// What an instruction makes of two words, if it takes two and its check holds.
#[inline(always)]
fn combined(op: &Op, left: u32, right: u32) -> Option<u32>
    ensures { result ≡ combined_of (Some op.now) left right }
{
    match op {
        Op::Arithmetic { operator, place } => {
            match arithmetic::compute(*operator, *place, left, right) {
                Ok(number) => Some(number.cast_unsigned()),
                Err(_) => None,
            }
        }
        Op::Compare(comparison) => Some(u32::from(arithmetic::compare(*comparison, left, right))),
        _ => None,
    }
}

// Whether an instruction may combine two words.
#[inline(always)]
fn combines(op: &Op) -> bool {
    matches!(
        op,
        Op::Arithmetic {
            operator: _,
            place: _,
        } | Op::Compare(_)
    )
}

// Makes the step that pushes a word, and the one behind it that combines it with the topmost one, if that comes next and
// its check holds, and tells whether it did. If not, all stays.
#[inline(always)]
fn combine_top(machine: &mut RunningImage, ops: &[Op], right: u32) -> bool
    requires going { machine.old.over ≡ None }
    requires runs { machine.old.doing ≡ Running }
    requires paced { IsTrue (is_paced machine.old.image) }
    requires ahead { ops.now ≡ ahead_of machine.old }
    requires within { machine.old.frame.next + length ops.now < 2 ^ 64 }
    requires first { operand_of (slice_get ops.now 0) machine.old.frame.slots ≡ Some right }
    ensures { RunsIf result machine.old machine.new }
{
    let Some(op) = at(ops, 1) else {
        return false;
    };
    if !combines(op) {
        return false;
    }
    let Some(left) = machine.word() else {
        return false;
    };
    let Some(word) = combined(op, left, right) else {
        return false;
    };
    if machine.free() < 1 {
        return false;
    }
    machine.replace(1, word, 2);
    true
}

// Makes the steps that push a word and a number and combine them, if they come next and their check holds, and tells whether
// it did. If not, all stays.
#[inline(always)]
fn combine_both(machine: &mut RunningImage, ops: &[Op], left: u32) -> bool
    requires going { machine.old.over ≡ None }
    requires runs { machine.old.doing ≡ Running }
    requires paced { IsTrue (is_paced machine.old.image) }
    requires ahead { ops.now ≡ ahead_of machine.old }
    requires within { machine.old.frame.next + length ops.now < 2 ^ 64 }
    requires first { operand_of (slice_get ops.now 0) machine.old.frame.slots ≡ Some left }
    ensures { RunsIf result machine.old machine.new }
{
    let Some(op) = at(ops, 2) else {
        return false;
    };
    let Some(right) = number(ops, 1, machine.slots()) else {
        return false;
    };
    let Some(word) = combined(op, left, right) else {
        return false;
    };
    if machine.free() < 2 {
        return false;
    }
    machine.replace(0, word, 3);
    true
}

// The number that one of the instructions ahead pushes, if it does.
#[inline(always)]
fn number(ops: &[Op], k: usize, slots: &[u32]) -> Option<u32>
    ensures { IfSome result (λ word. operand_of (slice_get ops.now k) slots.now ≡ Some word) }
{
    match at(ops, k) {
        Some(Op::Const(number)) => Some(number.cast_unsigned()),
        _ => None,
    }
}

// Makes the step that pushes a word, and the one behind it that combines it with the topmost one, if these come next and
// the check holds, and tells whether it did. If not, all stays.
#[inline(always)]
fn combine_number(machine: &mut RunningImage) -> bool
    requires going { machine.old.over ≡ None }
    requires runs { machine.old.doing ≡ Running }
    ensures { RunsIf result machine.old machine.new }
{
    let Some(ops) = machine.ahead() else {
        return false;
    };
    let Some(word) = number(ops, 0, machine.slots()) else {
        return false;
    };
    combine_top(machine, ops, word)
}

// The same, or the step that pushes a word and those behind it that combine it with a number.
#[inline(always)]
fn combine_slot(machine: &mut RunningImage) -> bool
    requires going { machine.old.over ≡ None }
    requires runs { machine.old.doing ≡ Running }
    ensures { RunsIf result machine.old machine.new }
{
    let Some(ops) = machine.ahead() else {
        return false;
    };
    let Some(word) = operand(ops, 0, machine.slots()) else {
        return false;
    };
    if combine_both(machine, ops, word) {
        return true;
    }
    combine_top(machine, ops, word)
}

/// Makes the step that pushes a number, alone.
#[inline(always)]
pub fn push(machine: &mut RunningImage, number: i32) -> Outcome
    requires { IsReady machine.old }
    ensures { Acts (Op.Const number) machine.old result machine.new }
{
    machine.push(0, number.cast_unsigned())
}

/// Makes the step that pushes a number, and with it one that combines it with the topmost word.
#[inline(always)]
pub fn constant(machine: &mut RunningImage, number: i32) -> Outcome
    requires ready { IsReady machine.old }
    requires next { next_op_of machine.old ≡ Some (Op.Const number) }
    requires paced { IsTrue (is_paced machine.old.image) }
    ensures { SomeSteps machine.old result machine.new }
{
    if combine_number(machine) {
        return Outcome::Ran;
    }
    push(machine, number)
}

/// Makes the step that pushes the word of a slot, and with it some that combine it with a number or with the topmost word.
#[inline(always)]
pub fn local(machine: &mut RunningImage, slot: u32) -> Outcome
    requires ready { IsReady machine.old }
    requires next { next_op_of machine.old ≡ Some (Op.Local slot) }
    requires paced { IsTrue (is_paced machine.old.image) }
    ensures { SomeSteps machine.old result machine.new }
{
    if combine_slot(machine) {
        return Outcome::Ran;
    }
    machine.local(slot)
}
