// Statements with the checks of their accesses.

ghost use Rattle.std.specs.Prelude.{◌≡◌, IfOk};
ghost use Rattle.pointer_modes.specs.Types.{ctype as ctype_of};
ghost use Rattle.ckc_core.specs.Core as core;
ghost use Rattle.check_insertion.specs.Erased as erased;
ghost use Rattle.check_insertion.specs.Insert as insert;

use crate::checks::store_end;
use crate::erased::{Reading, Stmt};
use crate::expressions::{boxed as boxed_expression, call, place};
use act_words::operator::Operator;
use ckc_core::program;
use ckc_core::program::Site;
use ckc_text::fault::NoMemory;
use ckc_text::on_heap;
use pointer_modes::ctype::CType;
use std::alloc::Global;

// A new value of a local variable.
fn set_local(alloc: Global, local: u32, value: &program::Expr) -> Result<Stmt, NoMemory>
    ensures { IfOk result (λ s. erased.statement s ≡ erased.SetLocal local (insert.expression (core.expression value.now))) }
{
    let value = boxed_expression(alloc, value)?;
    Ok(Stmt::SetLocal { local, value })
}

// The bounds at whose upper end nothing but 0 is stored, if there are any.
fn end_of(cell: &program::CellPlace) -> Option<Reading>
    ensures { result ≡ insert.end_of (core.place cell.now) }
{
    match cell {
        program::CellPlace::Direct { .. } => None,
        program::CellPlace::Through {
            pointer,
            index,
            site,
            ..
        } => store_end(pointer, index, *site),
    }
}

// A new value of a cell.
fn store(
    alloc: Global,
    ctype: &CType,
    cell: &program::CellPlace,
    value: &program::Expr,
) -> Result<Stmt, NoMemory>
    ensures { IfOk result (λ s. erased.statement s ≡ erased.Store (ctype_of ctype.now) (insert.place (core.place cell.now))
        (insert.expression (core.expression value.now)) (insert.end_of (core.place cell.now))) }
{
    let end = end_of(cell);
    let cell = place(alloc, cell)?;
    let value = boxed_expression(alloc, value)?;
    let ctype = ctype.copy(alloc)?;
    Ok(Stmt::Store {
        ctype,
        cell,
        value,
        end,
    })
}

// The old value of a local variable and an operator with another one.
fn update_local(
    alloc: Global,
    is_char: bool,
    local: u32,
    operator: Operator,
    value: &program::Expr,
    site: Site,
) -> Result<Stmt, NoMemory>
    ensures { IfOk result (λ s. erased.statement s ≡ erased.UpdateLocal is_char local operator (insert.expression (core.expression value.now)) site) }
{
    let value = boxed_expression(alloc, value)?;
    Ok(Stmt::UpdateLocal {
        is_char,
        local,
        operator,
        value,
        site,
    })
}

// The old value of a cell and an operator with another one.
fn update(
    alloc: Global,
    ctype: &CType,
    cell: &program::CellPlace,
    operator: Operator,
    value: &program::Expr,
    site: Site,
) -> Result<Stmt, NoMemory>
    ensures { IfOk result (λ s. erased.statement s ≡ erased.Update (ctype_of ctype.now) (insert.place (core.place cell.now)) operator
        (insert.expression (core.expression value.now)) site (insert.end_of (core.place cell.now))) }
{
    let end = end_of(cell);
    let cell = place(alloc, cell)?;
    let value = boxed_expression(alloc, value)?;
    let ctype = ctype.copy(alloc)?;
    Ok(Stmt::Update {
        ctype,
        cell,
        operator,
        value,
        site,
        end,
    })
}

// A call without a result.
fn call_alone(alloc: Global, alone: &program::Call) -> Result<Stmt, NoMemory>
    ensures { IfOk result (λ s. erased.statement s ≡ erased.CallAlone alone.now.callee (insert.arguments_of (core.arguments_of alone.now.arguments.items))) }
{
    let call = call(alloc, alone.callee, alone.arguments.as_slice())?;
    Ok(Stmt::CallAlone(call))
}

/// A statement with its checks.
#[cycle(statements)]
pub fn statement(alloc: Global, stmt: &program::Stmt) -> Result<Stmt, NoMemory>
    ensures { IfOk result (λ s. erased.statement s ≡ insert.statement (core.statement stmt.now)) }
{
    match stmt {
        program::Stmt::Nothing => Ok(Stmt::Nothing),
        program::Stmt::SetLocal { local, value } => set_local(alloc, *local, value),
        program::Stmt::Store { ctype, cell, value } => store(alloc, ctype, cell, value),
        program::Stmt::UpdateLocal {
            is_char,
            local,
            operator,
            value,
            site,
        } => update_local(alloc, *is_char, *local, *operator, value, *site),
        program::Stmt::Update {
            ctype,
            cell,
            operator,
            value,
            site,
        } => update(alloc, ctype, cell, *operator, value, *site),
        program::Stmt::Evaluate(value) => Ok(Stmt::Evaluate(boxed_expression(alloc, value)?)),
        program::Stmt::CallAlone(call) => call_alone(alloc, call),
        program::Stmt::Print(number) => Ok(Stmt::Print(boxed_expression(alloc, number)?)),
        program::Stmt::PutByte(number) => Ok(Stmt::PutByte(boxed_expression(alloc, number)?)),
        program::Stmt::Block(inner) => block(alloc, inner.as_slice()),
        program::Stmt::If {
            condition,
            consequent,
            alternative,
        } => choice(alloc, condition, consequent, alternative),
        program::Stmt::Loop {
            condition,
            body,
            step,
        } => repetition(alloc, condition, body, step),
        program::Stmt::Return(value) => Ok(Stmt::Return(boxed_expression(alloc, value)?)),
        program::Stmt::ReturnNothing => Ok(Stmt::ReturnNothing),
        program::Stmt::Break => Ok(Stmt::Break),
        program::Stmt::Continue => Ok(Stmt::Continue),
    }
}

// A statement with its checks, on the heap.
#[cycle(statements)]
fn boxed(alloc: Global, stmt: &program::Stmt) -> Result<Box<Stmt>, NoMemory>
    ensures { IfOk result (λ s. erased.statement s.value ≡ insert.statement (core.statement stmt.now)) }
{
    on_heap::boxed(alloc, statement(alloc, stmt)?)
}

// Two branches of an `if`.
#[cycle(statements)]
fn choice(
    alloc: Global,
    condition: &program::Expr,
    consequent: &program::Stmt,
    alternative: &program::Stmt,
) -> Result<Stmt, NoMemory>
    ensures { IfOk result (λ s. erased.statement s ≡ erased.If (insert.expression (core.expression condition.now))
        (insert.statement (core.statement consequent.now)) (insert.statement (core.statement alternative.now))) }
{
    let consequent = boxed(alloc, consequent)?;
    let alternative = boxed(alloc, alternative)?;
    let condition = boxed_expression(alloc, condition)?;
    Ok(Stmt::If {
        condition,
        consequent,
        alternative,
    })
}

// A loop with what follows each turn.
#[cycle(statements)]
fn repetition(
    alloc: Global,
    condition: &program::Expr,
    body: &program::Stmt,
    step: &program::Stmt,
) -> Result<Stmt, NoMemory>
    ensures { IfOk result (λ s. erased.statement s ≡ erased.Loop (insert.expression (core.expression condition.now))
        (insert.statement (core.statement body.now)) (insert.statement (core.statement step.now))) }
{
    let body = boxed(alloc, body)?;
    let step = boxed(alloc, step)?;
    let condition = boxed_expression(alloc, condition)?;
    Ok(Stmt::Loop {
        condition,
        body,
        step,
    })
}

// Statements in a block.
#[cycle(statements)]
fn block(alloc: Global, inner: &[program::Stmt]) -> Result<Stmt, NoMemory>
    ensures { IfOk result (λ s. erased.statement s ≡ erased.Block (insert.statements (core.statements_of inner.now))) }
{
    let inner = statements(alloc, inner)?;
    Ok(Stmt::Block(inner))
}

/// Statements with their checks.
#[cycle(statements)]
pub fn statements(alloc: Global, stmts: &[program::Stmt]) -> Result<Vec<Stmt>, NoMemory>
    ensures { IfOk result (λ v. erased.statements_of v.items ≡ insert.statements (core.statements_of stmts.now)) }
{
    let mut built = Vec::new(alloc);
    for stmt in stmts {
        built.push(statement(alloc, stmt)?)?;
    }
    Ok(built)
}
