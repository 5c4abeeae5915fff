// How many words the parts of a program have on the stack at most.

ghost use Rattle.std.specs.Prelude.{◌≡◌, ◌+◌, ◌≤◌};
ghost use Rattle.check_insertion.specs.Erased.{expression, place, index as index_of, arguments_of, statement, statements_of};
ghost use Rattle.check_insertion.specs.Stacks as stacks;

use check_insertion::erased::{CellPlace, Expr, Index, Reading, Stmt};

// An offset is added to an address on the stack.
fn offset_stack(offset: u32) -> u32
    ensures { result ≡ stacks.offset_stack offset }
{
    match offset {
        0 => 1,
        _ => 2,
    }
}

// The most words of an expression.
#[cycle(stacks)]
fn expression_stack(expr: &Expr) -> u32
    requires { stacks.expression_stack (expression expr.now) ≤ 4096 }
    ensures { result ≡ stacks.expression_stack (expression expr.now) }
{
    match expr {
        Expr::Number(_) | Expr::Null | Expr::Local(_) | Expr::NextInput => 1,
        Expr::Load { cell, .. } => place_stack(cell),
        Expr::AddressOf(cell) => place_stack(cell),
        Expr::Negate { operand, .. }
        | Expr::Complement(operand)
        | Expr::Not(operand)
        | Expr::LowByte(operand) => expression_stack(operand),
        Expr::Arithmetic { left, right, .. }
        | Expr::Compare { left, right, .. }
        | Expr::Same { left, right } => expression_stack(left).max(1 + expression_stack(right)),
        Expr::AndAlso { left, right } | Expr::OrElse { left, right } => {
            expression_stack(left).max(expression_stack(right))
        }
        Expr::Call(call) => arguments_stack(call.arguments.as_slice()).max(1),
        Expr::Sum {
            pointer,
            number,
            ..
        } => expression_stack(pointer).max((1 + expression_stack(number)).max(6)),
        Expr::Order { left, right, .. } => {
            expression_stack(left).max((1 + expression_stack(right)).max(2))
        }
        Expr::Allocate { count, .. } => expression_stack(count),
        Expr::Length { pointer, .. } => expression_stack(pointer).max(6),
        Expr::Cast { pointer, .. } => expression_stack(pointer).max(7),
    }
}

// The most words of arguments: each stands above those before it.
#[cycle(stacks)]
fn arguments_stack(arguments: &[Expr]) -> u32
    requires { stacks.arguments_stack (arguments_of arguments.now) ≤ 4096 }
    ensures { result ≡ stacks.arguments_stack (arguments_of arguments.now) }
{
    let mut most = 0;
    for (before, argument) in arguments.iter().enumerate() {
        most = (before as u32 + expression_stack(argument)).max(most);
    }
    most
}

// The most words of a place.
#[cycle(stacks)]
fn place_stack(cell: &CellPlace) -> u32
    requires { stacks.place_stack (place cell.now) ≤ 4096 }
    ensures { result ≡ stacks.place_stack (place cell.now) }
{
    match cell {
        CellPlace::Direct { offset, .. } => offset_stack(*offset),
        CellPlace::Through {
            pointer,
            index,
            offset,
            ..
        } => expression_stack(pointer).max(index_stack(index).max(offset_stack(*offset))),
    }
}

// The most words of an element's number and of checks, above the pointer.
#[cycle(stacks)]
fn index_stack(index: &Index) -> u32
    requires { stacks.index_stack (index_of index.now) ≤ 4096 }
    ensures { result ≡ stacks.index_stack (index_of index.now) }
{
    match index {
        Index::First => 0,
        Index::Element { number, .. } => (1 + expression_stack(number)).max(6),
    }
}

// The most words of a store above its pointer.
fn value_stack(index: &Index, value: &Expr) -> u32
    requires { stacks.value_stack (index_of index.now) (expression value.now) ≤ 4096 }
    ensures { result ≡ stacks.value_stack (index_of index.now) (expression value.now) }
{
    match index {
        Index::First => (1 + expression_stack(value)).max(2),
        Index::Element { number, .. } => {
            let above = (2 + expression_stack(value)).max(6);
            (1 + expression_stack(number)).max(above)
        }
    }
}

// The most words of a store.
fn store_stack(cell: &CellPlace, value: &Expr) -> u32
    requires { stacks.store_stack (place cell.now) (expression value.now) ≤ 4096 }
    ensures { result ≡ stacks.store_stack (place cell.now) (expression value.now) }
{
    match cell {
        CellPlace::Direct { offset, .. } => {
            offset_stack(*offset).max(1 + expression_stack(value))
        }
        CellPlace::Through { pointer, index, .. } => {
            expression_stack(pointer).max(value_stack(index, value))
        }
    }
}

// The most words of an update whose value has so many.
fn update_stack(end: Option<Reading>, value: u32) -> u32
    requires { value ≤ 4096 }
    ensures { result ≡ stacks.update_stack end value }
{
    match end {
        None => 2 + value,
        Some(_) => (3 + value).max(8),
    }
}

// The most words of a statement.
#[cycle(statement_stacks)]
fn statement_stack(stmt: &Stmt) -> u32
    requires { stacks.statement_stack (statement stmt.now) ≤ 4096 }
    ensures { result ≡ stacks.statement_stack (statement stmt.now) }
{
    match stmt {
        Stmt::Nothing | Stmt::ReturnNothing | Stmt::Break | Stmt::Continue => 0,
        Stmt::SetLocal { value, .. } => expression_stack(value),
        Stmt::Evaluate(value) | Stmt::Print(value) | Stmt::PutByte(value) | Stmt::Return(value) =>
            expression_stack(value),
        Stmt::Store { cell, value, .. } => store_stack(cell, value),
        Stmt::UpdateLocal { value, .. } => 1 + expression_stack(value),
        Stmt::Update {
            cell,
            value,
            end,
            ..
        } => place_stack(cell).max(update_stack(*end, expression_stack(value))),
        Stmt::CallAlone(call) => arguments_stack(call.arguments.as_slice()),
        Stmt::Block(inner) => statements_stack(inner.as_slice()),
        Stmt::If {
            condition,
            consequent,
            alternative,
        } => {
            let branches = statement_stack(consequent).max(statement_stack(alternative));
            expression_stack(condition).max(branches)
        }
        Stmt::Loop {
            condition,
            body,
            step,
        } => {
            let turn = statement_stack(body).max(statement_stack(step));
            expression_stack(condition).max(turn)
        }
    }
}

/// The most words of statements.
#[cycle(statement_stacks)]
pub fn statements_stack(stmts: &[Stmt]) -> u32
    requires { stacks.statements_stack (statements_of stmts.now) ≤ 4096 }
    ensures { result ≡ stacks.statements_stack (statements_of stmts.now) }
{
    let mut most = 0;
    for stmt in stmts {
        most = statement_stack(stmt).max(most);
    }
    most
}
