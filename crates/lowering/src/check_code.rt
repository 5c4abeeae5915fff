// The checks of the pointer on the stack, and addresses that are moved by elements.

ghost use Rattle.std.specs.Prelude.{◌≡◌, ◌≤◌, ◌∷◌, ◌++◌, All, OnOk};
ghost use Rattle.code_words.specs.declared.op.Op.TheVariants as ops_of;
ghost use Rattle.lowering.specs.Code as code;
ghost use Rattle.lowering.specs.Sized.{Reads};

use crate::instructions::{base_op, end_constant, put, put_two, variable_op};
use crate::reach::Reach;
use bounds_exprs::term::Bounds;
use check_insertion::erased::{Check, Reading};
use ckc_core::program::{Direction, Site};
use ckc_text::fault::NoMemory;
use code_words::op::Op;

// The number of elements of a check.
fn emit_number(ops: &mut Vec<Op>, slot: u32, reach: Reach) -> Result<(), NoMemory>
    requires { slot ≤ 4096 }
    ensures { OnOk result (ops.new.items ≡ ops.old.items ++ code.number_code slot reach) }
{
    match reach {
        Reach::Still { .. } => put(ops, Op::Const(0)),
        Reach::Onward { .. } => put(ops, Op::Local(slot + 2)),
        Reach::Back { .. } => put_two(ops, Op::Local(slot + 2), Op::Not),
    }
}

// The base and the variables of bounds.
fn emit_bounds(ops: &mut Vec<Op>, slot: u32, bounds: Bounds) -> Result<(), NoMemory>
    requires { slot ≤ 4096 }
    ensures { OnOk result (ops.new.items ≡ ops.old.items ++ code.bounds_code slot bounds) }
{
    put_two(ops, base_op(slot, bounds.base), variable_op(bounds.lo.var))?;
    put(ops, variable_op(bounds.hi.var))
}

// The place that is checked, and bounds.
fn emit_within(ops: &mut Vec<Op>, slot: u32, reach: Reach, bounds: Bounds) -> Result<(), NoMemory>
    requires { slot ≤ 4096 }
    ensures { OnOk result (ops.new.items ≡ ops.old.items ++ code.within_code slot reach bounds) }
{
    put_two(ops, Op::Set(slot + 1), Op::Local(slot + 1))?;
    put(ops, Op::Local(slot + 1))?;
    emit_number(ops, slot, reach)?;
    emit_bounds(ops, slot, bounds)
}

// How many bytes the elements of a check have.
fn counted_size(reach: Reach) -> u32
    ensures { result ≡ code.counted_size reach }
{
    match reach {
        Reach::Still { size } | Reach::Onward { size } | Reach::Back { size } => size,
    }
}

// The old and the new bounds of a containment.
fn emit_containment(ops: &mut Vec<Op>, slot: u32, old: Bounds, new: Bounds) -> Result<(), NoMemory>
    requires { slot ≤ 4096 }
    ensures { OnOk result (ops.new.items ≡ ops.old.items ++ ops_of.Set (code.pointer_slot slot) ∷ ops_of.Local (code.pointer_slot slot)
        ∷ (code.bounds_code slot old ++ code.bounds_code slot new)) }
{
    put_two(ops, Op::Set(slot + 1), Op::Local(slot + 1))?;
    emit_bounds(ops, slot, old)?;
    emit_bounds(ops, slot, new)
}

// A check of the pointer on the stack, where it stays.
fn emit_check(ops: &mut Vec<Op>, slot: u32, reach: Reach, check: Check) -> Result<(), NoMemory>
    requires slot { slot ≤ 4096 }
    requires reads { Reads slot check }
    ensures { OnOk result (ops.new.items ≡ ops.old.items ++ code.check_code slot reach check) }
{
    let size = counted_size(reach);
    match check {
        Check::NotNull { site } => put(ops, Op::NonNull { place: site.place }),
        Check::Below(reading) => {
            emit_within(ops, slot, reach, reading.bounds)?;
            let low = end_constant(reach, reading.bounds.lo);
            let high = end_constant(reach, reading.bounds.hi);
            let place = reading.site.place;
            put(
                ops,
                Op::In {
                    low,
                    high,
                    size,
                    place,
                },
            )
        }
        Check::UpTo(reading) => {
            emit_within(ops, slot, reach, reading.bounds)?;
            let low = end_constant(reach, reading.bounds.lo);
            let high = end_constant(reach, reading.bounds.hi);
            let place = reading.site.place;
            put(
                ops,
                Op::UpTo {
                    low,
                    high,
                    size,
                    place,
                },
            )
        }
        Check::Contains { old, new } => {
            emit_containment(ops, slot, old.bounds, new.bounds)?;
            put(ops, contain_op(old.bounds, new.bounds, size, new.site))
        }
    }
}

// The instruction that compares two bounds.
fn contain_op(old: Bounds, new: Bounds, size: u32, site: Site) -> Op
    ensures { result ≡ ops_of.Contain old.lo.plus old.hi.plus new.lo.plus new.hi.plus size site.place }
{
    Op::Contain {
        old_low: old.lo.plus,
        old_high: old.hi.plus,
        new_low: new.lo.plus,
        new_high: new.hi.plus,
        size,
        place: site.place,
    }
}

/// Nothing but 0 is stored at the upper end of the pointer on the stack: the number of the element and the value are kept aside.
pub fn emit_term(ops: &mut Vec<Op>, slot: u32, size: u32, reading: Reading) -> Result<(), NoMemory>
    requires { slot ≤ 4096 }
    ensures { OnOk result (ops.new.items ≡ ops.old.items ++ code.term_code slot size reading) }
{
    put_two(ops, Op::Set(slot + 1), Op::Local(slot + 1))?;
    put_two(ops, Op::Local(slot + 1), Op::Local(slot + 2))?;
    let bounds = reading.bounds;
    put_two(ops, base_op(slot, bounds.base), variable_op(bounds.hi.var))?;
    let high = bounds.hi.plus;
    let place = reading.site.place;
    put_two(ops, Op::Local(slot), Op::Term { high, size, place })
}

/// A pointer and the number of an element are on the stack twice.
pub fn emit_twice(ops: &mut Vec<Op>, slot: u32) -> Result<(), NoMemory>
    requires { slot ≤ 4096 }
    ensures { OnOk result (ops.new.items ≡ ops.old.items ++ code.twice_code slot) }
{
    put_two(ops, Op::Set(slot + 2), Op::Set(slot + 1))?;
    put_two(ops, Op::Local(slot + 1), Op::Local(slot + 2))?;
    put_two(ops, Op::Local(slot + 1), Op::Local(slot + 2))
}

/// The checks of the pointer on the stack, one after the other.
pub fn emit_checks(
    ops: &mut Vec<Op>,
    slot: u32,
    reach: Reach,
    checks: &[Check],
) -> Result<(), NoMemory>
    requires slot { slot ≤ 4096 }
    requires reads { All (Reads slot) checks.now }
    ensures { OnOk result (ops.new.items ≡ ops.old.items ++ code.checks_code slot reach checks.now) }
{
    for check in checks {
        emit_check(ops, slot, reach, *check)?;
    }
    Ok(())
}

/// Moves the address on the stack by the number of elements that is kept aside.
pub fn emit_moved(
    ops: &mut Vec<Op>,
    slot: u32,
    direction: Direction,
    size: u32,
) -> Result<(), NoMemory>
    requires { slot ≤ 4096 }
    ensures { OnOk result (ops.new.items ≡ ops.old.items ++ code.moved_code slot direction size) }
{
    put(ops, Op::Local(slot + 2))?;
    match direction {
        Direction::Forward => put(ops, Op::Index { size }),
        Direction::Backward => put_two(ops, Op::WrapNeg, Op::Index { size }),
    }
}
