// Emitting the code of statements.

ghost use Rattle.std.specs.Prelude.{◌≡◌, ◌+◌, ◌^◌, ◌≤◌, [], ◌∷◌, ◌++◌, length, OnOk};
ghost use Rattle.pointer_modes.specs.Types.{ctype as type_of};
ghost use Rattle.ckc_core.specs.Steps.{is_char};
ghost use Rattle.check_insertion.specs.Erased.{If, Loop, Store, UpdateLocal, expression, index as index_of, place as place_of, statement, statements_of};
ghost use Rattle.code_words.specs.declared.op.Op.TheVariants as ops_of;
ghost use Rattle.lowering.specs.Code as code;
ghost use Rattle.lowering.specs.Sized.{SizedExpression, SizedIndex, SizedPlace, SizedStatement, SizedStatements};
ghost use Rattle.lowering.specs.Views.{targets_of};

use crate::addresses::{emit_behind_value, emit_ended, emit_through};
use crate::check_code::emit_twice;
use crate::code_sizes::{expression_size, statement_size};
use crate::expression_code::{
    emit_before_value, emit_call, emit_expression, emit_place, emit_with,
};
use crate::instructions::{load_op, operator_op, place_behind, put, put_two, store_op};
use crate::loops::{Targets, begin_loop, loop_targets};
use act_words::operator::Operator;
use check_insertion::erased::{CellPlace, Check, Expr, Index, Reading, Stmt};
use ckc_core::char_cells::has_one_byte;
use ckc_core::program::Site;
use ckc_text::fault::NoMemory;
use code_words::op::Op;
use pointer_modes::ctype::CType;

// A value into a cell.
fn emit_store(
    ops: &mut Vec<Op>,
    targets: Targets,
    ctype: &CType,
    cell: &CellPlace,
    value: &Expr,
    end: Option<Reading>,
) -> Result<(), NoMemory>
    requires slot { targets.scratch ≤ 4096 }
    requires sized { SizedPlace targets.scratch (place_of cell.now) × SizedExpression targets.scratch (expression value.now) }
    requires room { length ops.old.items + (code.before_value_size (place_of cell.now) + code.expression_size (expression value.now)) ≤ 2 ^ 31 }
    ensures { OnOk result (ops.new.items ≡ ops.old.items ++ code.statement_code (targets_of targets) (length ops.old.items)
        (Store (type_of ctype.now) (place_of cell.now) (expression value.now) end)) }
{
    emit_before_value(ops, targets.scratch, cell)?;
    emit_expression(ops, targets.scratch, value)?;
    emit_behind_value(ops, targets.scratch, ctype, cell, end)
}

// An operator, and what keeps its result, modulo 256 where it has to be.
fn emit_result(ops: &mut Vec<Op>, operator: Op, char: bool, keep: Op) -> Result<(), NoMemory>
    ensures { OnOk result (ops.new.items ≡ ops.old.items ++ operator ∷ (code.byte_code char ++ keep ∷ [])) }
{
    put(ops, operator)?;
    if char {
        put(ops, Op::Byte)?;
    }
    put(ops, keep)
}

// A cell's old value and an operator with another one.
fn emit_plain_update(
    ops: &mut Vec<Op>,
    slot: u32,
    ctype: &CType,
    cell: &CellPlace,
    operator: Operator,
    value: &Expr,
    site: Site,
) -> Result<(), NoMemory>
    requires slot { slot ≤ 4096 }
    requires sized { SizedPlace slot (place_of cell.now) × SizedExpression slot (expression value.now) }
    requires room { length ops.old.items + (code.place_size (place_of cell.now) + (2 + code.expression_size (expression value.now))) ≤ 2 ^ 31 }
    ensures { OnOk result (ops.new.items ≡ ops.old.items ++ code.plain_update slot (length ops.old.items) (type_of ctype.now)
        (place_of cell.now) operator (expression value.now) site) }
{
    emit_place(ops, slot, cell)?;
    put_two(ops, Op::Duplicate, load_op(ctype))?;
    emit_expression(ops, slot, value)?;
    let op = operator_op(operator, site);
    emit_result(ops, op, has_one_byte(ctype), store_op(ctype))
}

// An operator, and its result, modulo 256 where it has to be, which is kept aside.
fn emit_kept_result(ops: &mut Vec<Op>, slot: u32, operator: Op, char: bool) -> Result<(), NoMemory>
    ensures { OnOk result (ops.new.items ≡ ops.old.items ++ operator ∷ (code.byte_code char ++ ops_of.Set slot ∷ [])) }
{
    emit_result(ops, operator, char, Op::Set(slot))
}

// The old value of an element of a null-terminated pointer, with the pointer and the number of the element below it.
fn emit_old_value(
    ops: &mut Vec<Op>,
    slot: u32,
    ctype: &CType,
    index: &Index,
    offset: u32,
    checks: &[Check],
) -> Result<(), NoMemory>
    requires slot { slot ≤ 4096 }
    requires sized { SizedIndex slot (index_of index.now) checks.now }
    ensures { OnOk result (ops.new.items ≡ ops.old.items ++ (code.twice_code slot
        ++ (code.through_code slot (index_of index.now) offset checks.now ++ code.load_code (type_of ctype.now) ∷ []))) }
{
    emit_twice(ops, slot)?;
    emit_through(ops, slot, index, offset, checks)?;
    put(ops, load_op(ctype))
}

// A cell's old value and an operator with another one; at the upper end of a null-terminated pointer nothing but 0 is stored.
fn emit_update(
    ops: &mut Vec<Op>,
    slot: u32,
    ctype: &CType,
    cell: &CellPlace,
    operator: Operator,
    value: &Expr,
    site: Site,
    end: Option<Reading>,
) -> Result<(), NoMemory>
    requires slot { slot ≤ 4096 }
    requires sized { SizedPlace slot (place_of cell.now) × SizedExpression slot (expression value.now) }
    requires room { length ops.old.items + code.update_size (place_of cell.now) end (code.expression_size (expression value.now))
        (code.byte_size (is_char (type_of ctype.now))) ≤ 2 ^ 31 }
    ensures { OnOk result (ops.new.items ≡ ops.old.items ++ code.update_code slot (length ops.old.items) (type_of ctype.now)
        (place_of cell.now) operator (expression value.now) site end) }
{
    if let CellPlace::Through {
        index,
        offset,
        checks,
        ..
    } = cell
        && let Index::Element { size, .. } = index
        && let Some(reading) = end
    {
        emit_before_value(ops, slot, cell)?;
        emit_old_value(ops, slot, ctype, index, *offset, checks.as_slice())?;
        emit_expression(ops, slot, value)?;
        emit_kept_result(ops, slot, operator_op(operator, site), has_one_byte(ctype))?;
        return emit_ended(ops, slot, ctype, *size, *offset, &[], reading);
    }
    emit_plain_update(ops, slot, ctype, cell, operator, value, site)
}

// The same for a local variable.
fn emit_local_update(
    ops: &mut Vec<Op>,
    targets: Targets,
    char: bool,
    local: u32,
    operator: Operator,
    value: &Expr,
    site: Site,
) -> Result<(), NoMemory>
    requires slot { targets.scratch ≤ 4096 }
    requires sized { SizedExpression targets.scratch (expression value.now) }
    requires room { length ops.old.items + (1 + code.expression_size (expression value.now)) ≤ 2 ^ 31 }
    ensures { OnOk result (ops.new.items ≡ ops.old.items ++ code.statement_code (targets_of targets) (length ops.old.items)
        (UpdateLocal char local operator (expression value.now) site)) }
{
    put(ops, Op::Local(local))?;
    emit_expression(ops, targets.scratch, value)?;
    let op = operator_op(operator, site);
    emit_result(ops, op, char, Op::Set(local))
}

// A condition, and a jump over so many instructions where it doesn't hold.
fn emit_condition(ops: &mut Vec<Op>, slot: u32, condition: &Expr, over: u32) -> Result<(), NoMemory>
    requires slot { slot ≤ 4096 }
    requires sized { SizedExpression slot (expression condition.now) }
    requires room { length ops.old.items + (code.expression_size (expression condition.now) + (1 + over)) ≤ 2 ^ 31 }
    ensures { OnOk result (ops.new.items ≡ ops.old.items ++ (code.expression_code slot (length ops.old.items) (expression condition.now)
        ++ ops_of.JumpIfZero (length ops.old.items + code.expression_size (expression condition.now) + 1 + over) ∷ [])) }
{
    emit_expression(ops, slot, condition)?;
    let other = place_behind(ops, over + 1);
    put(ops, Op::JumpIfZero(other))
}

// A jump over so many instructions.
fn emit_jump(ops: &mut Vec<Op>, over: u32) -> Result<(), NoMemory>
    requires { length ops.old.items + (1 + over) ≤ 2 ^ 31 }
    ensures { OnOk result (ops.new.items ≡ ops.old.items ++ ops_of.Jump (length ops.old.items + 1 + over) ∷ []) }
{
    let end = place_behind(ops, over + 1);
    put(ops, Op::Jump(end))
}

// The end of a loop: its condition, and the jump to its tick where it holds.
fn end_loop(
    ops: &mut Vec<Op>,
    slot: u32,
    condition: &Expr,
    end: u32,
    turn: u32,
) -> Result<(), NoMemory>
    requires slot { slot ≤ 4096 }
    requires sized { SizedExpression slot (expression condition.now) }
    requires room { length ops.old.items + code.expression_size (expression condition.now) ≤ 2 ^ 31 }
    ensures { OnOk result (ops.new.items ≡ ops.old.items ++ (code.expression_code slot (length ops.old.items) (expression condition.now)
        ++ ops_of.JumpIfZero end ∷ ops_of.Jump turn ∷ [])) }
{
    emit_expression(ops, slot, condition)?;
    put_two(ops, Op::JumpIfZero(end), Op::Jump(turn))
}

// The code of a statement.
#[cycle(statements)]
fn emit_statement(ops: &mut Vec<Op>, targets: Targets, stmt: &Stmt) -> Result<(), NoMemory>
    requires slot { targets.scratch ≤ 4096 }
    requires sized { SizedStatement targets.scratch (statement stmt.now) }
    requires room { length ops.old.items + code.statement_size (statement stmt.now) ≤ 2 ^ 31 }
    ensures { OnOk result (ops.new.items ≡ ops.old.items ++ code.statement_code (targets_of targets) (length ops.old.items) (statement stmt.now)) }
{
    match stmt {
        Stmt::Nothing => Ok(()),
        Stmt::SetLocal { local, value } => emit_with(ops, targets.scratch, value, Op::Set(*local)),
        Stmt::Store {
            ctype,
            cell,
            value,
            end,
        } => emit_store(ops, targets, ctype, cell, value, *end),
        Stmt::UpdateLocal {
            is_char,
            local,
            operator,
            value,
            site,
        } => emit_local_update(ops, targets, *is_char, *local, *operator, value, *site),
        Stmt::Update {
            ctype,
            cell,
            operator,
            value,
            site,
            end,
        } => emit_update(
            ops,
            targets.scratch,
            ctype,
            cell,
            *operator,
            value,
            *site,
            *end,
        ),
        Stmt::Evaluate(value) => emit_with(ops, targets.scratch, value, Op::Discard),
        Stmt::CallAlone(call) => emit_call(
            ops,
            targets.scratch,
            call.callee,
            call.arguments.as_slice(),
        ),
        Stmt::Print(number) => emit_with(ops, targets.scratch, number, Op::Print),
        Stmt::PutByte(number) => emit_with(ops, targets.scratch, number, Op::PutByte),
        Stmt::Block(inner) => emit_statements(ops, targets, inner.as_slice()),
        Stmt::If {
            condition,
            consequent,
            alternative,
        } => emit_if(ops, targets, condition, consequent, alternative),
        Stmt::Loop {
            condition,
            body,
            step,
        } => emit_loop(ops, targets, condition, body, step),
        Stmt::Return(value) => emit_with(ops, targets.scratch, value, Op::Return),
        Stmt::ReturnNothing => put(ops, Op::ReturnNothing),
        Stmt::Break => put(ops, Op::Jump(targets.on_break)),
        Stmt::Continue => put(ops, Op::Jump(targets.on_continue)),
    }
}

// A condition with the statement that runs where it holds, and another one.
#[cycle(statements)]
fn emit_if(
    ops: &mut Vec<Op>,
    targets: Targets,
    condition: &Expr,
    consequent: &Stmt,
    alternative: &Stmt,
) -> Result<(), NoMemory>
    requires slot { targets.scratch ≤ 4096 }
    requires sized { SizedStatement targets.scratch (If (expression condition.now) (statement consequent.now) (statement alternative.now)) }
    requires room { length ops.old.items + code.statement_size (If (expression condition.now) (statement consequent.now) (statement alternative.now)) ≤ 2 ^ 31 }
    ensures { OnOk result (ops.new.items ≡ ops.old.items ++ code.statement_code (targets_of targets) (length ops.old.items)
        (If (expression condition.now) (statement consequent.now) (statement alternative.now))) }
{
    emit_condition(
        ops,
        targets.scratch,
        condition,
        statement_size(consequent) + 1,
    )?;
    emit_statement(ops, targets, consequent)?;
    emit_jump(ops, statement_size(alternative))?;
    emit_statement(ops, targets, alternative)
}

// A loop, whose condition stands behind its body and its step.
#[cycle(statements)]
fn emit_loop(
    ops: &mut Vec<Op>,
    targets: Targets,
    condition: &Expr,
    body: &Stmt,
    step: &Stmt,
) -> Result<(), NoMemory>
    requires slot { targets.scratch ≤ 4096 }
    requires sized { SizedStatement targets.scratch (Loop (expression condition.now) (statement body.now) (statement step.now)) }
    requires room { length ops.old.items + code.statement_size (Loop (expression condition.now) (statement body.now) (statement step.now)) ≤ 2 ^ 31 }
    ensures { OnOk result (ops.new.items ≡ ops.old.items ++ code.statement_code (targets_of targets) (length ops.old.items)
        (Loop (expression condition.now) (statement body.now) (statement step.now))) }
{
    let turn = place_behind(ops, 1);
    let after = statement_size(step);
    let inner = loop_targets(
        ops,
        targets.scratch,
        statement_size(body),
        after,
        expression_size(condition),
    );
    begin_loop(ops, inner.on_continue, after)?;
    emit_statement(ops, inner, body)?;
    emit_statement(ops, targets, step)?;
    end_loop(ops, targets.scratch, condition, inner.on_break, turn)
}

/// The code of statements, one after another.
#[cycle(statements)]
pub fn emit_statements(ops: &mut Vec<Op>, targets: Targets, stmts: &[Stmt]) -> Result<(), NoMemory>
    requires slot { targets.scratch ≤ 4096 }
    requires sized { SizedStatements targets.scratch (statements_of stmts.now) }
    requires room { length ops.old.items + code.statements_size (statements_of stmts.now) ≤ 2 ^ 31 }
    ensures { OnOk result (ops.new.items ≡ ops.old.items ++ code.statements_code (targets_of targets) (length ops.old.items) (statements_of stmts.now)) }
{
    for stmt in stmts {
        emit_statement(ops, targets, stmt)?;
    }
    Ok(())
}
