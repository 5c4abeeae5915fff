// Emitting the code of expressions.

ghost use Rattle.std.specs.Prelude.{◌≡◌, ◌+◌, ◌^◌, ◌<◌, ◌≤◌, [], ◌∷◌, ◌++◌, length, slice_get, Some, OnOk};
ghost use Rattle.check_insertion.specs.declared.erased.Expr.{Expr};
ghost use Rattle.check_insertion.specs.Erased.{expression, index as index_of, place as place_of, arguments_of, AndAlso, OrElse};
ghost use Rattle.code_words.specs.declared.op.Op.TheVariants as ops_of;
ghost use Rattle.lowering.specs.Code as code;
ghost use Rattle.lowering.specs.Sized.{SizedExpression, SizedArguments, SizedPlace, SizedNumber};

use crate::addresses::{emit_address, emit_length, emit_order, emit_sum, emit_through};
use crate::call_code::{argument_at, put_call};
use crate::cells::element_bytes;
use crate::check_code::emit_checks;
use crate::code_sizes::expression_size;
use crate::instructions::{
    alloc_op, begin_and, begin_or, callee_op, end_and, load_op, operator_op, put, put_two,
};
use crate::reach::Reach;
use act_words::operator::Comparison;
use check_insertion::erased::{CellPlace, Expr, Index};
use ckc_core::program::Callee;
use ckc_text::fault::NoMemory;
use code_words::op::Op;

/// The word of an expression's value.
#[cycle(expressions)]
pub fn emit_expression(ops: &mut Vec<Op>, slot: u32, expr: &Expr) -> Result<(), NoMemory>
    requires slot { slot ≤ 4096 }
    requires sized { SizedExpression slot (expression expr.now) }
    requires room { length ops.old.items + code.expression_size (expression expr.now) ≤ 2 ^ 31 }
    ensures { OnOk result (ops.new.items ≡ ops.old.items ++ code.expression_code slot (length ops.old.items) (expression expr.now)) }
{
    match expr {
        Expr::Number(number) => put(ops, Op::Const(*number)),
        Expr::Null => put(ops, Op::Const(0)),
        Expr::Local(local) => put(ops, Op::Local(*local)),
        Expr::Load { ctype, cell } => {
            emit_place(ops, slot, cell)?;
            put(ops, load_op(ctype))
        }
        Expr::AddressOf(cell) => emit_place(ops, slot, cell),
        Expr::Negate { operand, site } => {
            emit_with(ops, slot, operand, Op::Neg { place: site.place })
        }
        Expr::Complement(operand) => emit_with(ops, slot, operand, Op::Not),
        Expr::Not(operand) => emit_with(ops, slot, operand, Op::Zero),
        Expr::Arithmetic {
            operator,
            left,
            right,
            site,
        } => emit_two(ops, slot, left, right, operator_op(*operator, *site)),
        Expr::Compare {
            comparison,
            left,
            right,
        } => emit_two(ops, slot, left, right, Op::Compare(*comparison)),
        Expr::Same { left, right } => {
            let equal = Op::Compare(Comparison::Equal);
            emit_two(ops, slot, left, right, equal)
        }
        Expr::AndAlso { left, right } => emit_and(ops, slot, left, right),
        Expr::OrElse { left, right } => emit_or(ops, slot, left, right),
        Expr::LowByte(operand) => emit_with(ops, slot, operand, Op::Byte),
        Expr::Call(call) => emit_call(ops, slot, call.callee, call.arguments.as_slice()),
        Expr::NextInput => put(ops, Op::NextInput),
        Expr::Sum {
            pointer,
            direction,
            number,
            size,
            checks,
        } => {
            emit_both(ops, slot, pointer, number)?;
            emit_sum(ops, slot, *direction, *size, checks.as_slice())
        }
        Expr::Order {
            comparison,
            left,
            left_checks,
            right,
            right_checks,
        } => {
            emit_both(ops, slot, left, right)?;
            let left = left_checks.as_slice();
            emit_order(ops, slot, *comparison, left, right_checks.as_slice())
        }
        Expr::Allocate {
            count,
            element,
            terminator,
        } => {
            let size = element_bytes(element.as_slice());
            emit_with(ops, slot, count, alloc_op(*terminator, size))
        }
        Expr::Length {
            pointer,
            size,
            checks,
        } => {
            emit_expression(ops, slot, pointer)?;
            emit_length(ops, slot, *size, checks.as_slice())
        }
        Expr::Cast {
            pointer,
            size,
            checks,
        } => {
            emit_expression(ops, slot, pointer)?;
            emit_checks(ops, slot, Reach::Still { size: *size }, checks.as_slice())
        }
    }
}

// Two parts, one behind the other.
#[cycle(expressions)]
fn emit_both(ops: &mut Vec<Op>, slot: u32, left: &Expr, right: &Expr) -> Result<(), NoMemory>
    requires slot { slot ≤ 4096 }
    requires sized { SizedExpression slot (expression left.now) × SizedExpression slot (expression right.now) }
    requires room { length ops.old.items + (code.expression_size (expression left.now) + code.expression_size (expression right.now)) ≤ 2 ^ 31 }
    ensures { OnOk result (ops.new.items ≡ ops.old.items ++ (code.expression_code slot (length ops.old.items) (expression left.now)
        ++ code.expression_code slot (length ops.old.items + code.expression_size (expression left.now)) (expression right.now))) }
{
    emit_expression(ops, slot, left)?;
    emit_expression(ops, slot, right)
}

/// A value, and what is done with it.
#[cycle(expressions)]
pub fn emit_with(ops: &mut Vec<Op>, slot: u32, value: &Expr, op: Op) -> Result<(), NoMemory>
    requires slot { slot ≤ 4096 }
    requires sized { SizedExpression slot (expression value.now) }
    requires room { length ops.old.items + code.expression_size (expression value.now) ≤ 2 ^ 31 }
    ensures { OnOk result (ops.new.items ≡ ops.old.items ++ (code.expression_code slot (length ops.old.items) (expression value.now) ++ op ∷ [])) }
{
    emit_expression(ops, slot, value)?;
    put(ops, op)
}

// Two operands, and what is done with both.
#[cycle(expressions)]
#[tactic(auto, using(crate::proofs::Emitting::right_emitted))]
fn emit_two(ops: &mut Vec<Op>, slot: u32, left: &Expr, right: &Expr, op: Op) -> Result<(), NoMemory>
    requires slot { slot ≤ 4096 }
    requires sized { SizedExpression slot (expression left.now) × SizedExpression slot (expression right.now) }
    requires room { length ops.old.items + (code.expression_size (expression left.now) + code.expression_size (expression right.now)) ≤ 2 ^ 31 }
    ensures { OnOk result (ops.new.items ≡ ops.old.items ++ (code.expression_code slot (length ops.old.items) (expression left.now)
        ++ (code.expression_code slot (length ops.old.items + code.expression_size (expression left.now)) (expression right.now) ++ op
        ∷ []))) }
{
    emit_expression(ops, slot, left)?;
    emit_with(ops, slot, right, op)
}

// Two operands of `&&`.
#[cycle(expressions)]
fn emit_and(ops: &mut Vec<Op>, slot: u32, left: &Expr, right: &Expr) -> Result<(), NoMemory>
    requires slot { slot ≤ 4096 }
    requires sized { SizedExpression slot (expression left.now) × SizedExpression slot (expression right.now) }
    requires room { length ops.old.items + code.expression_size (AndAlso (expression left.now) (expression right.now)) ≤ 2 ^ 31 }
    ensures { OnOk result (ops.new.items ≡ ops.old.items ++ code.expression_code slot (length ops.old.items)
        (AndAlso (expression left.now) (expression right.now))) }
{
    emit_expression(ops, slot, left)?;
    begin_and(ops, expression_size(right))?;
    emit_expression(ops, slot, right)?;
    end_and(ops)
}

// Two operands of `||`.
#[cycle(expressions)]
fn emit_or(ops: &mut Vec<Op>, slot: u32, left: &Expr, right: &Expr) -> Result<(), NoMemory>
    requires slot { slot ≤ 4096 }
    requires sized { SizedExpression slot (expression left.now) × SizedExpression slot (expression right.now) }
    requires room { length ops.old.items + code.expression_size (OrElse (expression left.now) (expression right.now)) ≤ 2 ^ 31 }
    ensures { OnOk result (ops.new.items ≡ ops.old.items ++ code.expression_code slot (length ops.old.items)
        (OrElse (expression left.now) (expression right.now))) }
{
    emit_expression(ops, slot, left)?;
    begin_or(ops, expression_size(right))?;
    emit_expression(ops, slot, right)?;
    put_two(ops, Op::Zero, Op::Zero)
}

// The word of the argument at a place.
#[cycle(expressions)]
fn emit_argument(
    ops: &mut Vec<Op>,
    slot: u32,
    arguments: &[Expr],
    place: usize,
) -> Result<(), NoMemory>
    requires slot { slot ≤ 4096 }
    requires sized { (argument : Expr) → slice_get arguments.now place ≡ Some argument → SizedExpression slot (expression argument) }
    requires place { place < length arguments.now }
    requires room { (argument : Expr) → slice_get arguments.now place ≡ Some argument
        → length ops.old.items + code.expression_size (expression argument) ≤ 2 ^ 31 }
    ensures { (argument : Expr) → slice_get arguments.now place ≡ Some argument
        → OnOk result (ops.new.items ≡ ops.old.items ++ code.expression_code slot (length ops.old.items) (expression argument)) }
{
    emit_expression(ops, slot, argument_at(arguments, place))
}

/// The words of arguments, from left to right.
#[cycle(expressions)]
pub fn emit_arguments(ops: &mut Vec<Op>, slot: u32, arguments: &[Expr]) -> Result<(), NoMemory>
    requires slot { slot ≤ 4096 }
    requires sized { SizedArguments slot (arguments_of arguments.now) }
    requires room { length ops.old.items + code.arguments_size (arguments_of arguments.now) ≤ 2 ^ 31 }
    ensures { OnOk result (ops.new.items ≡ ops.old.items ++ code.arguments_code slot (length ops.old.items) (arguments_of arguments.now)) }
{
    for place in 0..arguments.len() {
        emit_argument(ops, slot, arguments, place)?;
    }
    Ok(())
}

/// A call behind its arguments and its tick.
#[cycle(expressions)]
pub fn emit_call(
    ops: &mut Vec<Op>,
    slot: u32,
    callee: Callee,
    arguments: &[Expr],
) -> Result<(), NoMemory>
    requires slot { slot ≤ 4096 }
    requires sized { SizedArguments slot (arguments_of arguments.now) }
    requires room { length ops.old.items + code.arguments_size (arguments_of arguments.now) ≤ 2 ^ 31 }
    ensures { OnOk result (ops.new.items ≡ ops.old.items ++ (code.arguments_code slot (length ops.old.items) (arguments_of arguments.now)
        ++ ops_of.Tick ∷ code.callee_code callee ∷ [])) }
{
    emit_arguments(ops, slot, arguments)?;
    put_call(ops, callee_op(callee))
}

/// The address of a cell.
#[cycle(expressions)]
#[tactic(auto, using(crate::proofs::Emitting::number_sized))]
pub fn emit_place(ops: &mut Vec<Op>, slot: u32, cell: &CellPlace) -> Result<(), NoMemory>
    requires slot { slot ≤ 4096 }
    requires sized { SizedPlace slot (place_of cell.now) }
    requires room { length ops.old.items + code.place_size (place_of cell.now) ≤ 2 ^ 31 }
    ensures { OnOk result (ops.new.items ≡ ops.old.items ++ code.place_code slot (length ops.old.items) (place_of cell.now)) }
{
    match cell {
        CellPlace::Direct { object, offset } => emit_address(ops, *object, *offset),
        CellPlace::Through {
            pointer,
            index,
            offset,
            checks,
        } => {
            emit_target(ops, slot, pointer, index)?;
            emit_through(ops, slot, index, *offset, checks.as_slice())
        }
    }
}

// The number of an element.
#[cycle(expressions)]
fn emit_index(ops: &mut Vec<Op>, slot: u32, index: &Index) -> Result<(), NoMemory>
    requires slot { slot ≤ 4096 }
    requires sized { SizedNumber slot (index_of index.now) }
    requires room { length ops.old.items + code.index_size (index_of index.now) ≤ 2 ^ 31 }
    ensures { OnOk result (ops.new.items ≡ ops.old.items ++ code.index_code slot (length ops.old.items) (index_of index.now)) }
{
    match index {
        Index::First => Ok(()),
        Index::Element { number, .. } => emit_expression(ops, slot, number),
    }
}

// A pointer, and the number of an element.
#[cycle(expressions)]
fn emit_target(ops: &mut Vec<Op>, slot: u32, pointer: &Expr, index: &Index) -> Result<(), NoMemory>
    requires slot { slot ≤ 4096 }
    requires sized { SizedExpression slot (expression pointer.now) × SizedNumber slot (index_of index.now) }
    requires room { length ops.old.items + (code.expression_size (expression pointer.now) + code.index_size (index_of index.now)) ≤ 2 ^ 31 }
    ensures { OnOk result (ops.new.items ≡ ops.old.items ++ (code.expression_code slot (length ops.old.items) (expression pointer.now)
        ++ code.index_code slot (length ops.old.items + code.expression_size (expression pointer.now)) (index_of index.now))) }
{
    emit_expression(ops, slot, pointer)?;
    emit_index(ops, slot, index)
}

/// What a store has before its value: the address of its cell, or the pointer and the index, whose checks come behind the value.
#[tactic(auto, using(crate::proofs::Emitting::number_sized))]
pub fn emit_before_value(ops: &mut Vec<Op>, slot: u32, cell: &CellPlace) -> Result<(), NoMemory>
    requires slot { slot ≤ 4096 }
    requires sized { SizedPlace slot (place_of cell.now) }
    requires room { length ops.old.items + code.before_value_size (place_of cell.now) ≤ 2 ^ 31 }
    ensures { OnOk result (ops.new.items ≡ ops.old.items ++ code.before_value slot (length ops.old.items) (place_of cell.now)) }
{
    match cell {
        CellPlace::Direct { object, offset } => emit_address(ops, *object, *offset),
        CellPlace::Through { pointer, index, .. } => emit_target(ops, slot, pointer, index),
    }
}
