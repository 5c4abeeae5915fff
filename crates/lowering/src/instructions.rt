// Single instructions, and the jumps of `&&` and `||`. The place of the next instruction is the number of those that stand
// before it.

ghost use Rattle.std.specs.Prelude.{◌≡◌, ◌+◌, ◌^◌, ◌≤◌, IsTrue, [], ◌∷◌, ◌++◌, length, OnOk, pos};
ghost use Rattle.bounds_exprs.specs.Terms.{is_within, term_limit};
ghost use Rattle.pointer_modes.specs.Types.{ctype as type_of};
ghost use Rattle.code_words.specs.declared.op.Op.TheVariants as ops_of;
ghost use Rattle.lowering.specs.Code as code;

use crate::reach::Reach;
use act_words::operator::{Comparison, Operator};
use bounds_exprs::term::Term;
use ckc_core::char_cells::has_one_byte;
use ckc_core::program::{Callee, Site, Terminator};
use ckc_text::fault::NoMemory;
use code_words::op::Op;
use pointer_modes::ctype::CType;

/// The instruction of an operator.
pub fn operator_op(operator: Operator, site: Site) -> Op
    ensures { result ≡ code.operator_code operator site }
{
    match operator {
        Operator::Arithmetic(operator) => Op::Arithmetic {
            operator,
            place: site.place,
        },
        Operator::Bitwise(operator) => Op::Bitwise(operator),
    }
}

/// The instruction that enters a callee.
pub fn callee_op(callee: Callee) -> Op
    ensures { result ≡ code.callee_code callee }
{
    match callee {
        Callee::Trusted(function) => Op::Call(function),
        Callee::Tainted { import, site } => Op::TaintedCall {
            import,
            place: site.place,
        },
    }
}

/// The instruction that pushes the base of bounds, where the first slot behind the locals has a number.
pub fn base_op(slot: u32, base: Option<u32>) -> Op
    requires { slot ≤ 4096 }
    ensures { result ≡ code.base_code slot base }
{
    match base {
        None => Op::Local(slot + 1),
        Some(variable) => Op::Local(variable),
    }
}

/// The instruction that pushes the variable of an end.
pub fn variable_op(variable: Option<u32>) -> Op
    ensures { result ≡ code.variable_code variable }
{
    match variable {
        None => Op::Const(0),
        Some(variable) => Op::Local(variable),
    }
}

/// The constant of an end.
pub fn end_constant(reach: Reach, term: Term) -> i64
    requires { IsTrue (is_within term_limit term.plus) }
    ensures { result ≡ code.end_constant reach term }
{
    match reach {
        Reach::Still { .. } | Reach::Onward { .. } => term.plus,
        Reach::Back { .. } => term.plus - 1,
    }
}

/// The instruction that compares addresses, which have no sign.
pub fn order_op(comparison: Comparison) -> Op
    ensures { result ≡ code.order_op comparison }
{
    match comparison {
        Comparison::Equal | Comparison::NotEqual => Op::Compare(comparison),
        Comparison::Less => Op::UnsignedLess,
        Comparison::LessEqual => Op::UnsignedLessEqual,
        Comparison::Greater => Op::UnsignedGreater,
        Comparison::GreaterEqual => Op::UnsignedGreaterEqual,
    }
}

/// What makes a new block of elements of so many bytes: of one more than are counted where a zero stands behind them. All
/// that is new is zero.
pub fn alloc_op(terminator: Terminator, size: u32) -> Op
    ensures { result ≡ code.allocation_code terminator size }
{
    match terminator {
        Terminator::Absent | Terminator::Last => Op::Alloc { size },
        Terminator::Behind => Op::AllocTerminated { size },
    }
}

/// What loads a cell of the type.
pub fn load_op(ctype: &CType) -> Op
    ensures { result ≡ code.load_code (type_of ctype.now) }
{
    if has_one_byte(ctype) {
        Op::Load1
    } else {
        Op::Load4
    }
}

/// What stores into a cell of the type.
pub fn store_op(ctype: &CType) -> Op
    ensures { result ≡ code.store_code (type_of ctype.now) }
{
    if has_one_byte(ctype) {
        Op::Store1
    } else {
        Op::Store4
    }
}

/// One more instruction.
pub fn put(ops: &mut Vec<Op>, op: Op) -> Result<(), NoMemory>
    ensures { OnOk result (ops.new.items ≡ ops.old.items ++ op ∷ []) }
{
    ops.push(op)?;
    Ok(())
}

/// Two more instructions.
pub fn put_two(ops: &mut Vec<Op>, first: Op, second: Op) -> Result<(), NoMemory>
    ensures { OnOk result (ops.new.items ≡ ops.old.items ++ first ∷ second ∷ []) }
{
    put(ops, first)?;
    put(ops, second)
}

/// The place that stands so many instructions behind the next one.
pub fn place_behind(ops: &Vec<Op>, more: u32) -> u32
    requires { length ops.now.items + more ≤ 2 ^ 31 }
    ensures { result ≡ length ops.now.items + more }
{
    ops.len() as u32 + more
}

/// Passes the right side over, of so many instructions, where the left one is 0.
pub fn begin_and(ops: &mut Vec<Op>, right: u32) -> Result<(), NoMemory>
    requires { length ops.old.items + (right + 5) ≤ 2 ^ 31 }
    ensures { OnOk result (ops.new.items ≡ ops.old.items ++ ops_of.JumpIfZero (length ops.old.items + 1 + right + 3) ∷ []) }
{
    let other = place_behind(ops, right + 4);
    put(ops, Op::JumpIfZero(other))
}

/// The right side as 0 or 1, and a 0 for the left one.
pub fn end_and(ops: &mut Vec<Op>) -> Result<(), NoMemory>
    requires { length ops.old.items + 4 ≤ 2 ^ 31 }
    ensures { OnOk result (ops.new.items ≡ ops.old.items ++ ops_of.Zero ∷ ops_of.Zero ∷ ops_of.Jump (length ops.old.items + 4) ∷ ops_of.Const (pos 0) ∷ []) }
{
    let end = place_behind(ops, 4);
    put_two(ops, Op::Zero, Op::Zero)?;
    put_two(ops, Op::Jump(end), Op::Const(0))
}

/// Passes the right side over, of so many instructions, where the left one isn't 0.
pub fn begin_or(ops: &mut Vec<Op>, right: u32) -> Result<(), NoMemory>
    requires { length ops.old.items + (right + 5) ≤ 2 ^ 31 }
    ensures { OnOk result (ops.new.items ≡ ops.old.items ++ ops_of.JumpIfZero (length ops.old.items + 3) ∷ ops_of.Const (pos 1)
        ∷ ops_of.Jump (length ops.old.items + 3 + right + 2) ∷ []) }
{
    let other = place_behind(ops, 3);
    let end = place_behind(ops, right + 5);
    put(ops, Op::JumpIfZero(other))?;
    put_two(ops, Op::Const(1), Op::Jump(end))
}
