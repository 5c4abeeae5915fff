// How many instructions the code of a part has, which jumps over it need. A function that can be lowered has few nodes, so
// its code has 2^31 instructions at most, and no sum of sizes passes 32 bits.

ghost use Rattle.std.specs.Prelude.{◌≡◌, ◌+◌, ◌^◌, ◌≤◌};
ghost use Rattle.check_insertion.specs.Erased.{expression, place, index as index_of, arguments_of, statement, statements_of};
ghost use Rattle.lowering.specs.Code as code;

use crate::reach::Reach;
use check_insertion::erased::{CellPlace, Check, Expr, Index, Reading, Stmt};
use ckc_core::char_cells::has_one_byte;
use ckc_core::program::Direction;

// The size of what adds an offset to an address.
fn offset_size(offset: u32) -> u32
    ensures { result ≡ code.offset_size offset }
{
    match offset {
        0 => 0,
        _ => 2,
    }
}

// The size of what keeps a number modulo 256, if it has to.
fn byte_size(char: bool) -> u32
    ensures { result ≡ code.byte_size char }
{
    if char { 1 } else { 0 }
}

// The size of what gives a check its number.
fn number_size(reach: Reach) -> u32
    ensures { result ≡ code.number_size reach }
{
    match reach {
        Reach::Still { .. } | Reach::Onward { .. } => 1,
        Reach::Back { .. } => 2,
    }
}

// The size of a check of the pointer on the stack.
fn check_size(reach: Reach, check: Check) -> u32
    ensures { result ≡ code.check_size reach check }
{
    match check {
        Check::NotNull { .. } => 1,
        Check::Below(_) | Check::UpTo(_) => number_size(reach) + 7,
        Check::Contains { .. } => 9,
    }
}

// The size of checks.
fn checks_size(reach: Reach, checks: &[Check]) -> u32
    requires { code.checks_size reach checks.now ≤ 2 ^ 31 }
    ensures { result ≡ code.checks_size reach checks.now }
{
    let mut size = 0;
    for check in checks {
        size += check_size(reach, *check);
    }
    size
}

/// How the checks of a sum count.
pub fn reach_to(direction: Direction, size: u32) -> Reach
    ensures { result ≡ code.reach_to direction size }
{
    match direction {
        Direction::Forward => Reach::Onward { size },
        Direction::Backward => Reach::Back { size },
    }
}

// The size of what moves an address by elements.
fn moved_size(direction: Direction) -> u32
    ensures { result ≡ code.moved_size direction }
{
    match direction {
        Direction::Forward => 2,
        Direction::Backward => 3,
    }
}

// The size of what makes an address of the pointer on the stack, with the pointer's checks.
fn through_size(index: &Index, offset: u32, checks: &[Check]) -> u32
    requires { code.through_size (index_of index.now) offset checks.now ≤ 2 ^ 31 }
    ensures { result ≡ code.through_size (index_of index.now) offset checks.now }
{
    match index {
        Index::First => checks_size(Reach::Still { size: 1 }, checks) + offset_size(offset),
        Index::Element { size, .. } => {
            checks_size(Reach::Onward { size: *size }, checks) + 3 + offset_size(offset)
        }
    }
}

// The size of what makes a sum of a pointer and a number.
fn sum_size(direction: Direction, size: u32, checks: &[Check]) -> u32
    requires { code.sum_size direction size checks.now ≤ 2 ^ 31 }
    ensures { result ≡ code.sum_size direction size checks.now }
{
    checks_size(reach_to(direction, size), checks) + moved_size(direction) + 1
}

// The size of what tells the order of two pointers.
fn order_size(left_checks: &[Check], right_checks: &[Check]) -> u32
    requires { code.order_size left_checks.now right_checks.now ≤ 2 ^ 31 }
    ensures { result ≡ code.order_size left_checks.now right_checks.now }
{
    let left = checks_size(Reach::Still { size: 1 }, left_checks);
    left + checks_size(Reach::Still { size: 1 }, right_checks) + 3
}

/// The size of an expression's code.
#[cycle(sizes)]
pub fn expression_size(expr: &Expr) -> u32
    requires { code.expression_size (expression expr.now) ≤ 2 ^ 31 }
    ensures { result ≡ code.expression_size (expression expr.now) }
{
    match expr {
        Expr::Number(_) | Expr::Null | Expr::Local(_) | Expr::NextInput => 1,
        Expr::Load { cell, .. } => place_size(cell) + 1,
        Expr::AddressOf(cell) => place_size(cell),
        Expr::Negate { operand, .. }
        | Expr::Complement(operand)
        | Expr::Not(operand)
        | Expr::LowByte(operand) => expression_size(operand) + 1,
        Expr::Arithmetic { left, right, .. }
        | Expr::Compare { left, right, .. }
        | Expr::Same { left, right } => { expression_size(left) + expression_size(right) + 1 }
        Expr::AndAlso { left, right } | Expr::OrElse { left, right } => {
            expression_size(left) + expression_size(right) + 5
        }
        Expr::Call(call) => arguments_size(call.arguments.as_slice()) + 2,
        Expr::Sum {
            pointer,
            direction,
            number,
            size,
            checks,
        } => {
            let parts = expression_size(pointer) + expression_size(number);
            parts + sum_size(*direction, *size, checks.as_slice())
        }
        Expr::Order {
            left,
            left_checks,
            right,
            right_checks,
            ..
        } => {
            let parts = expression_size(left) + expression_size(right);
            parts + order_size(left_checks.as_slice(), right_checks.as_slice())
        }
        Expr::Allocate { count, .. } => expression_size(count) + 1,
        Expr::Length {
            pointer,
            size,
            checks,
        } => {
            let checks = checks_size(Reach::Still { size: *size }, checks.as_slice());
            expression_size(pointer) + checks + 1
        }
        Expr::Cast {
            pointer,
            size,
            checks,
        } => {
            expression_size(pointer) + checks_size(Reach::Still { size: *size }, checks.as_slice())
        }
    }
}

// The size of the code of arguments.
#[cycle(sizes)]
fn arguments_size(arguments: &[Expr]) -> u32
    requires { code.arguments_size (arguments_of arguments.now) ≤ 2 ^ 31 }
    ensures { result ≡ code.arguments_size (arguments_of arguments.now) }
{
    let mut size = 0;
    for argument in arguments {
        size += expression_size(argument);
    }
    size
}

// The size of the code of a place.
#[cycle(sizes)]
fn place_size(cell: &CellPlace) -> u32
    requires { code.place_size (place cell.now) ≤ 2 ^ 31 }
    ensures { result ≡ code.place_size (place cell.now) }
{
    match cell {
        CellPlace::Direct { offset, .. } => 1 + offset_size(*offset),
        CellPlace::Through {
            pointer,
            index,
            offset,
            checks,
        } => {
            let parts = expression_size(pointer) + index_size(index);
            parts + through_size(index, *offset, checks.as_slice())
        }
    }
}

// The size of the code of an element's number.
#[cycle(sizes)]
fn index_size(index: &Index) -> u32
    requires { code.index_size (index_of index.now) ≤ 2 ^ 31 }
    ensures { result ≡ code.index_size (index_of index.now) }
{
    match index {
        Index::First => 0,
        Index::Element { number, .. } => expression_size(number),
    }
}

// The size of a store to a cell of an element at whose end nothing but 0 is stored.
fn ended_size(size: u32, offset: u32, checks: &[Check]) -> u32
    requires { code.ended_size size offset checks.now ≤ 2 ^ 31 }
    ensures { result ≡ code.ended_size size offset checks.now }
{
    checks_size(Reach::Onward { size }, checks) + 13 + offset_size(offset)
}

// The size of what follows the value of a store through a pointer.
fn behind_size(index: &Index, offset: u32, checks: &[Check], end: Option<Reading>) -> u32
    requires { code.behind_through_size (index_of index.now) offset checks.now end ≤ 2 ^ 31 }
    ensures { result ≡ code.behind_through_size (index_of index.now) offset checks.now end }
{
    match (index, end) {
        (Index::Element { size, .. }, Some(_)) => 1 + ended_size(*size, offset, checks),
        _ => 3 + through_size(index, offset, checks),
    }
}

// The size of the code of a store, whose value has a size.
fn store_size(cell: &CellPlace, value: u32, end: Option<Reading>) -> u32
    requires { code.before_value_size (place cell.now) + (value + code.behind_value_size (place cell.now) end) ≤ 2 ^ 31 }
    ensures { result ≡ code.before_value_size (place cell.now) + (value + code.behind_value_size (place cell.now) end) }
{
    match cell {
        CellPlace::Direct { offset, .. } => 1 + offset_size(*offset) + value + 1,
        CellPlace::Through {
            pointer,
            index,
            offset,
            checks,
        } => {
            let behind = behind_size(index, *offset, checks.as_slice(), end);
            expression_size(pointer) + index_size(index) + value + behind
        }
    }
}

// The size of the code of an update, whose value has a size, and whose result is kept modulo 256 by so many instructions.
fn update_size(cell: &CellPlace, end: Option<Reading>, value: u32, byte: u32) -> u32
    requires { code.update_size (place cell.now) end value byte ≤ 2 ^ 31 }
    ensures { result ≡ code.update_size (place cell.now) end value byte }
{
    if let CellPlace::Through {
        pointer,
        index,
        offset,
        checks,
    } = cell
        && let Index::Element { size, .. } = index
        && end.is_some()
    {
        let parts = expression_size(pointer) + index_size(index);
        let through = through_size(index, *offset, checks.as_slice());
        return parts + through + value + byte + 9 + ended_size(*size, *offset, &[]);
    }
    place_size(cell) + value + 4 + byte
}

/// The size of a statement's code.
#[cycle(statements)]
pub fn statement_size(stmt: &Stmt) -> u32
    requires { code.statement_size (statement stmt.now) ≤ 2 ^ 31 }
    ensures { result ≡ code.statement_size (statement stmt.now) }
{
    match stmt {
        Stmt::Nothing => 0,
        Stmt::ReturnNothing | Stmt::Break | Stmt::Continue => 1,
        Stmt::SetLocal { value, .. } => expression_size(value) + 1,
        Stmt::Evaluate(value) | Stmt::Print(value) | Stmt::PutByte(value) | Stmt::Return(value) =>
            expression_size(value) + 1,
        Stmt::Store {
            cell,
            value,
            end,
            ..
        } => store_size(cell, expression_size(value), *end),
        Stmt::UpdateLocal { is_char, value, .. } => {
            expression_size(value) + 3 + byte_size(*is_char)
        }
        Stmt::Update {
            ctype,
            cell,
            value,
            end,
            ..
        } => {
            let byte = byte_size(has_one_byte(ctype));
            update_size(cell, *end, expression_size(value), byte)
        }
        Stmt::CallAlone(call) => arguments_size(call.arguments.as_slice()) + 2,
        Stmt::Block(inner) => statements_size(inner.as_slice()),
        Stmt::If {
            condition,
            consequent,
            alternative,
        } => {
            let branches = statement_size(consequent) + statement_size(alternative);
            expression_size(condition) + branches + 2
        }
        Stmt::Loop {
            condition,
            body,
            step,
        } => {
            let turn = statement_size(body) + statement_size(step);
            turn + expression_size(condition) + 4
        }
    }
}

/// The size of the code of statements.
#[cycle(statements)]
pub fn statements_size(stmts: &[Stmt]) -> u32
    requires { code.statements_size (statements_of stmts.now) ≤ 2 ^ 31 }
    ensures { result ≡ code.statements_size (statements_of stmts.now) }
{
    let mut size = 0;
    for stmt in stmts {
        size += statement_size(stmt);
    }
    size
}
