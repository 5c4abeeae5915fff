// The addresses of cells, and the checks of the pointers that they are reached by.

ghost use Rattle.std.specs.Prelude.{◌≡◌, ◌≤◌, [], ◌∷◌, ◌++◌, All, OnOk};
ghost use Rattle.pointer_modes.specs.Types.{ctype as type_of};
ghost use Rattle.check_insertion.specs.Erased.{index as index_of, place as place_of};
ghost use Rattle.ckc_core.specs.declared.program.Direction.TheVariants.{Forward};
ghost use Rattle.code_words.specs.declared.op.Op.TheVariants as ops_of;
ghost use Rattle.lowering.specs.Code as code;
ghost use Rattle.lowering.specs.Sized.{IsSmall, SizedIndex, SizedPlace};

use crate::check_code::{emit_checks, emit_moved, emit_term};
use crate::code_sizes::reach_to;
use crate::instructions::{order_op, put, put_two, store_op};
use crate::reach::Reach;
use act_words::operator::Comparison;
use check_insertion::erased::{CellPlace, Check, Index, Reading};
use ckc_core::program::Direction;
use ckc_text::fault::NoMemory;
use code_words::op::Op;
use pointer_modes::ctype::CType;

// Adds an offset to the address on the stack.
fn emit_offset(ops: &mut Vec<Op>, offset: u32) -> Result<(), NoMemory>
    ensures { OnOk result (ops.new.items ≡ ops.old.items ++ code.offset_code offset) }
{
    match offset {
        0 => Ok(()),
        _ => put_two(ops, Op::Const(offset.cast_signed()), Op::WrapAdd),
    }
}

/// The address of a cell of a file-level variable.
pub fn emit_address(ops: &mut Vec<Op>, object: u32, offset: u32) -> Result<(), NoMemory>
    ensures { OnOk result (ops.new.items ≡ ops.old.items ++ code.address_code object offset) }
{
    put(ops, Op::BlockAddress(object))?;
    emit_offset(ops, offset)
}

/// The address of a cell of an element that the pointer on the stack leads to, with the element's number above it, behind the
/// pointer's checks.
pub fn emit_through(
    ops: &mut Vec<Op>,
    slot: u32,
    index: &Index,
    offset: u32,
    checks: &[Check],
) -> Result<(), NoMemory>
    requires slot { slot ≤ 4096 }
    requires sized { SizedIndex slot (index_of index.now) checks.now }
    ensures { OnOk result (ops.new.items ≡ ops.old.items ++ code.through_code slot (index_of index.now) offset checks.now) }
{
    match index {
        Index::First => emit_checks(ops, slot, Reach::Still { size: 1 }, checks)?,
        Index::Element { size, .. } => {
            put(ops, Op::Set(slot + 2))?;
            emit_checks(ops, slot, Reach::Onward { size: *size }, checks)?;
            emit_moved(ops, slot, Direction::Forward, *size)?;
        }
    }
    emit_offset(ops, offset)
}

/// The address that is so many elements on from the pointer on the stack, with the number above it, behind the pointer's checks.
pub fn emit_sum(
    ops: &mut Vec<Op>,
    slot: u32,
    direction: Direction,
    size: u32,
    checks: &[Check],
) -> Result<(), NoMemory>
    requires slot { slot ≤ 4096 }
    requires small { All (IsSmall slot 6) checks.now }
    ensures { OnOk result (ops.new.items ≡ ops.old.items ++ code.sum_code slot direction size checks.now) }
{
    put(ops, Op::Set(slot + 2))?;
    emit_checks(ops, slot, reach_to(direction, size), checks)?;
    emit_moved(ops, slot, direction, size)
}

/// The order of the two pointers on the stack, behind the checks of both.
pub fn emit_order(
    ops: &mut Vec<Op>,
    slot: u32,
    comparison: Comparison,
    left_checks: &[Check],
    right_checks: &[Check],
) -> Result<(), NoMemory>
    requires slot { slot ≤ 4096 }
    requires left { All (IsSmall slot 1) left_checks.now }
    requires right { All (IsSmall slot 1) right_checks.now }
    ensures { OnOk result (ops.new.items ≡ ops.old.items ++ code.order_code slot comparison left_checks.now right_checks.now) }
{
    put(ops, Op::Set(slot + 2))?;
    emit_checks(ops, slot, Reach::Still { size: 1 }, left_checks)?;
    put(ops, Op::Local(slot + 2))?;
    emit_checks(ops, slot, Reach::Still { size: 1 }, right_checks)?;
    put(ops, order_op(comparison))
}

/// How many bytes stand before the first zero, from the pointer on the stack on, behind its checks.
pub fn emit_length(
    ops: &mut Vec<Op>,
    slot: u32,
    size: u32,
    checks: &[Check],
) -> Result<(), NoMemory>
    requires slot { slot ≤ 4096 }
    requires small { All (IsSmall slot 6) checks.now }
    ensures { OnOk result (ops.new.items ≡ ops.old.items ++ (code.checks_code slot (code.Still size) checks.now ++ ops_of.TextLength ∷ [])) }
{
    emit_checks(ops, slot, Reach::Still { size }, checks)?;
    put(ops, Op::TextLength)
}

// The value that is kept aside goes to a cell of an element of the pointer on the stack.
fn emit_stored(
    ops: &mut Vec<Op>,
    slot: u32,
    ctype: &CType,
    size: u32,
    offset: u32,
) -> Result<(), NoMemory>
    requires slot { slot ≤ 4096 }
    ensures { OnOk result (ops.new.items ≡ ops.old.items ++ (code.moved_code slot Forward size
        ++ (code.offset_code offset ++ ops_of.Local slot ∷ code.store_code (type_of ctype.now) ∷ []))) }
{
    emit_moved(ops, slot, Direction::Forward, size)?;
    emit_offset(ops, offset)?;
    put_two(ops, Op::Local(slot), store_op(ctype))
}

/// The same behind the checks of a null-terminated pointer, at whose upper end nothing but 0 is stored, with the number of the element above it.
pub fn emit_ended(
    ops: &mut Vec<Op>,
    slot: u32,
    ctype: &CType,
    size: u32,
    offset: u32,
    checks: &[Check],
    reading: Reading,
) -> Result<(), NoMemory>
    requires slot { slot ≤ 4096 }
    requires small { All (IsSmall slot 6) checks.now }
    ensures { OnOk result (ops.new.items ≡ ops.old.items ++ code.ended_code slot (type_of ctype.now) size offset checks.now reading) }
{
    put(ops, Op::Set(slot + 2))?;
    emit_checks(ops, slot, Reach::Onward { size }, checks)?;
    emit_term(ops, slot, size, reading)?;
    emit_stored(ops, slot, ctype, size, offset)
}

// What follows the value of a store through the pointer on the stack.
fn emit_behind_through(
    ops: &mut Vec<Op>,
    slot: u32,
    ctype: &CType,
    index: &Index,
    offset: u32,
    checks: &[Check],
    end: Option<Reading>,
) -> Result<(), NoMemory>
    requires slot { slot ≤ 4096 }
    requires sized { SizedIndex slot (index_of index.now) checks.now }
    ensures { OnOk result (ops.new.items ≡ ops.old.items ++ code.behind_through slot (type_of ctype.now) (index_of index.now) offset checks.now end) }
{
    put(ops, Op::Set(slot))?;
    if let Index::Element { size, .. } = index
        && let Some(reading) = end
    {
        return emit_ended(ops, slot, ctype, *size, offset, checks, reading);
    }
    emit_through(ops, slot, index, offset, checks)?;
    put_two(ops, Op::Local(slot), store_op(ctype))
}

/// What follows the value of a store: the checks of the pointer, while the value is kept aside.
pub fn emit_behind_value(
    ops: &mut Vec<Op>,
    slot: u32,
    ctype: &CType,
    cell: &CellPlace,
    end: Option<Reading>,
) -> Result<(), NoMemory>
    requires slot { slot ≤ 4096 }
    requires sized { SizedPlace slot (place_of cell.now) }
    ensures { OnOk result (ops.new.items ≡ ops.old.items ++ code.behind_value slot (type_of ctype.now) (place_of cell.now) end) }
{
    match cell {
        CellPlace::Direct { .. } => put(ops, store_op(ctype)),
        CellPlace::Through {
            index,
            offset,
            checks,
            ..
        } => {
            let checks = checks.as_slice();
            emit_behind_through(ops, slot, ctype, index, *offset, checks, end)
        }
    }
}
