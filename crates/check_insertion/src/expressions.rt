// Expressions with the checks of their accesses.

ghost use Rattle.std.specs.Prelude.{◌≡◌, ◌∷◌, [], map, IfOk};
ghost use Rattle.pointer_modes.specs.Types.{ctype as ctype_of};
ghost use Rattle.ckc_core.specs.Core as core;
ghost use Rattle.ckc_core.specs.Meaning.{bounds_of};
ghost use Rattle.check_insertion.specs.declared.erased.Check.TheVariants.{NotNull};
ghost use Rattle.check_insertion.specs.Erased as erased;
ghost use Rattle.check_insertion.specs.Insert as insert;

use crate::checks::{access_checks, cast_checks, not_null, size_of, sum_checks};
use crate::copies::cells;
use crate::erased::{Call, CellPlace, Expr, Index};
use act_words::operator::{Comparison, Operator};
use ckc_core::program;
use ckc_core::program::{Callee, Direction, Initial, PointerBounds, Site, Terminator};
use ckc_text::fault::NoMemory;
use ckc_text::on_heap;
use pointer_modes::ctype::CType;
use std::alloc::Global;

/// An expression with its checks.
#[cycle(expressions)]
pub fn expression(alloc: Global, expr: &program::Expr) -> Result<Expr, NoMemory>
    ensures { IfOk result (λ e. erased.expression e ≡ insert.expression (core.expression expr.now)) }
{
    match expr {
        program::Expr::Number(number) => Ok(Expr::Number(*number)),
        program::Expr::Null => Ok(Expr::Null),
        program::Expr::Local { local, .. } => Ok(Expr::Local(*local)),
        program::Expr::Load { ctype, cell, .. } => load(alloc, ctype, cell),
        program::Expr::AddressOf { cell, .. } => Ok(Expr::AddressOf(place(alloc, cell)?)),
        program::Expr::Negate { operand, site } => negate(alloc, operand, *site),
        program::Expr::Complement(operand) => Ok(Expr::Complement(boxed(alloc, operand)?)),
        program::Expr::Not(operand) => Ok(Expr::Not(boxed(alloc, operand)?)),
        program::Expr::Arithmetic {
            operator,
            left,
            right,
            site,
        } => arithmetic(alloc, *operator, left, right, *site),
        program::Expr::Compare {
            comparison,
            left,
            right,
        } => compare(alloc, *comparison, left, right),
        program::Expr::Same { left, right } => same(alloc, left, right),
        program::Expr::AndAlso { left, right } => and_also(alloc, left, right),
        program::Expr::OrElse { left, right } => or_else(alloc, left, right),
        program::Expr::LowByte(operand) => Ok(Expr::LowByte(boxed(alloc, operand)?)),
        program::Expr::Call { call, .. } => call_value(
            alloc,
            call.callee,
            call.arguments.as_slice(),
        ),
        program::Expr::NextInput => Ok(Expr::NextInput),
        program::Expr::Sum {
            pointer,
            direction,
            number,
            site,
            ..
        } => sum(alloc, pointer, *direction, number, *site),
        program::Expr::Order {
            comparison,
            left,
            right,
            site,
        } => order(alloc, *comparison, left, right, *site),
        program::Expr::Allocate {
            count,
            element,
            terminator,
            ..
        } => allocate(alloc, count, element, *terminator),
        program::Expr::Length { pointer, site } => length(alloc, pointer, *site),
        program::Expr::Cast { pointer, bounds } => cast(alloc, pointer, *bounds),
    }
}

/// An expression with its checks, on the heap.
#[cycle(expressions)]
pub fn boxed(alloc: Global, expr: &program::Expr) -> Result<Box<Expr>, NoMemory>
    ensures { IfOk result (λ e. erased.expression e.value ≡ insert.expression (core.expression expr.now)) }
{
    on_heap::boxed(alloc, expression(alloc, expr)?)
}

// What a cell holds.
#[cycle(expressions)]
fn load(alloc: Global, ctype: &CType, cell: &program::CellPlace) -> Result<Expr, NoMemory>
    ensures { IfOk result (λ e. erased.expression e ≡ erased.Load (ctype_of ctype.now) (insert.place (core.place cell.now))) }
{
    let cell = place(alloc, cell)?;
    let ctype = ctype.copy(alloc)?;
    Ok(Expr::Load { ctype, cell })
}

// A number with the other sign.
#[cycle(expressions)]
fn negate(alloc: Global, operand: &program::Expr, site: Site) -> Result<Expr, NoMemory>
    ensures { IfOk result (λ e. erased.expression e ≡ erased.Negate (insert.expression (core.expression operand.now)) site) }
{
    let operand = boxed(alloc, operand)?;
    Ok(Expr::Negate { operand, site })
}

// An operator between two numbers.
#[cycle(expressions)]
fn arithmetic(
    alloc: Global,
    operator: Operator,
    left: &program::Expr,
    right: &program::Expr,
    site: Site,
) -> Result<Expr, NoMemory>
    ensures { IfOk result (λ e. erased.expression e ≡ erased.Arithmetic operator (insert.expression (core.expression left.now))
        (insert.expression (core.expression right.now)) site) }
{
    let left = boxed(alloc, left)?;
    let right = boxed(alloc, right)?;
    Ok(Expr::Arithmetic {
        operator,
        left,
        right,
        site,
    })
}

// A comparison of two numbers.
#[cycle(expressions)]
fn compare(
    alloc: Global,
    comparison: Comparison,
    left: &program::Expr,
    right: &program::Expr,
) -> Result<Expr, NoMemory>
    ensures { IfOk result (λ e. erased.expression e ≡ erased.Compare comparison (insert.expression (core.expression left.now))
        (insert.expression (core.expression right.now))) }
{
    let left = boxed(alloc, left)?;
    let right = boxed(alloc, right)?;
    Ok(Expr::Compare {
        comparison,
        left,
        right,
    })
}

// Whether two pointers are the same.
#[cycle(expressions)]
fn same(alloc: Global, left: &program::Expr, right: &program::Expr) -> Result<Expr, NoMemory>
    ensures { IfOk result (λ e. erased.expression e ≡ erased.Same (insert.expression (core.expression left.now))
        (insert.expression (core.expression right.now))) }
{
    let left = boxed(alloc, left)?;
    let right = boxed(alloc, right)?;
    Ok(Expr::Same { left, right })
}

// Two operands of `&&`.
#[cycle(expressions)]
fn and_also(alloc: Global, left: &program::Expr, right: &program::Expr) -> Result<Expr, NoMemory>
    ensures { IfOk result (λ e. erased.expression e ≡ erased.AndAlso (insert.expression (core.expression left.now))
        (insert.expression (core.expression right.now))) }
{
    let left = boxed(alloc, left)?;
    let right = boxed(alloc, right)?;
    Ok(Expr::AndAlso { left, right })
}

// Two operands of `||`.
#[cycle(expressions)]
fn or_else(alloc: Global, left: &program::Expr, right: &program::Expr) -> Result<Expr, NoMemory>
    ensures { IfOk result (λ e. erased.expression e ≡ erased.OrElse (insert.expression (core.expression left.now))
        (insert.expression (core.expression right.now))) }
{
    let left = boxed(alloc, left)?;
    let right = boxed(alloc, right)?;
    Ok(Expr::OrElse { left, right })
}

// A pointer that is moved, behind its checks.
#[cycle(expressions)]
fn sum(
    alloc: Global,
    pointer: &program::Expr,
    direction: Direction,
    number: &program::Expr,
    site: Site,
) -> Result<Expr, NoMemory>
    ensures { IfOk result (λ e. erased.expression e ≡ erased.Sum (insert.expression (core.expression pointer.now)) direction
        (insert.expression (core.expression number.now)) (insert.size_of (bounds_of (core.expression pointer.now)))
        (insert.sum_checks (bounds_of (core.expression pointer.now)) site)) }
{
    let checks = sum_checks(alloc, pointer, site)?;
    let size = size_of(pointer);
    let pointer = boxed(alloc, pointer)?;
    let number = boxed(alloc, number)?;
    Ok(Expr::Sum {
        pointer,
        direction,
        number,
        size,
        checks,
    })
}

// The order of two pointers, behind their checks.
#[cycle(expressions)]
fn order(
    alloc: Global,
    comparison: Comparison,
    left: &program::Expr,
    right: &program::Expr,
    site: Site,
) -> Result<Expr, NoMemory>
    ensures { IfOk result (λ e. erased.expression e ≡ erased.Order comparison (insert.expression (core.expression left.now))
        (NotNull site ∷ []) (insert.expression (core.expression right.now)) (NotNull site ∷ [])) }
{
    let left = boxed(alloc, left)?;
    let left_checks = not_null(alloc, site)?;
    let right = boxed(alloc, right)?;
    let right_checks = not_null(alloc, site)?;
    Ok(Expr::Order {
        comparison,
        left,
        left_checks,
        right,
        right_checks,
    })
}

// A new block.
#[cycle(expressions)]
fn allocate(
    alloc: Global,
    count: &program::Expr,
    element: &[Initial],
    terminator: Terminator,
) -> Result<Expr, NoMemory>
    ensures { IfOk result (λ e. erased.expression e ≡ erased.Allocate (insert.expression (core.expression count.now))
        (map core.initial element.now) terminator) }
{
    let count = boxed(alloc, count)?;
    let element = cells(alloc, element)?;
    Ok(Expr::Allocate {
        count,
        element,
        terminator,
    })
}

// How many bytes stand before the first zero, behind the checks of their pointer.
#[cycle(expressions)]
fn length(alloc: Global, pointer: &program::Expr, site: Site) -> Result<Expr, NoMemory>
    ensures { IfOk result (λ e. erased.expression e ≡ erased.Length (insert.expression (core.expression pointer.now))
        (insert.size_of (bounds_of (core.expression pointer.now))) (insert.sum_checks (bounds_of (core.expression pointer.now)) site)) }
{
    let checks = sum_checks(alloc, pointer, site)?;
    let size = size_of(pointer);
    let pointer = boxed(alloc, pointer)?;
    Ok(Expr::Length {
        pointer,
        size,
        checks,
    })
}

// A pointer with other bounds, behind its checks.
#[cycle(expressions)]
fn cast(
    alloc: Global,
    pointer: &program::Expr,
    bounds: Option<PointerBounds>,
) -> Result<Expr, NoMemory>
    ensures { IfOk result (λ e. erased.expression e ≡ erased.Cast (insert.expression (core.expression pointer.now))
        (insert.size_of (bounds_of (core.expression pointer.now))) (insert.cast_checks (bounds_of (core.expression pointer.now)) bounds)) }
{
    let checks = cast_checks(alloc, pointer, bounds)?;
    let size = size_of(pointer);
    let pointer = boxed(alloc, pointer)?;
    Ok(Expr::Cast {
        pointer,
        size,
        checks,
    })
}

// The arguments of a call, with their checks.
#[cycle(expressions)]
fn arguments_of(alloc: Global, arguments: &[program::Expr]) -> Result<Vec<Expr>, NoMemory>
    ensures { IfOk result (λ v. erased.arguments_of v.items ≡ insert.arguments_of (core.arguments_of arguments.now)) }
{
    let mut built = Vec::new(alloc);
    for argument in arguments {
        built.push(expression(alloc, argument)?)?;
    }
    Ok(built)
}

/// A call, with the checks of its arguments.
#[cycle(expressions)]
pub fn call(alloc: Global, callee: Callee, arguments: &[program::Expr]) -> Result<Call, NoMemory>
    ensures entered { IfOk result (λ made. made.callee ≡ callee) }
    ensures passed { IfOk result (λ made. erased.arguments_of made.arguments.items ≡ insert.arguments_of (core.arguments_of arguments.now)) }
{
    let arguments = arguments_of(alloc, arguments)?;
    Ok(Call { callee, arguments })
}

// What a call returns.
#[cycle(expressions)]
fn call_value(alloc: Global, callee: Callee, arguments: &[program::Expr]) -> Result<Expr, NoMemory>
    ensures { IfOk result (λ e. erased.expression e ≡ erased.Call callee (insert.arguments_of (core.arguments_of arguments.now))) }
{
    let call = call(alloc, callee, arguments)?;
    Ok(Expr::Call(call))
}

/// A place, where an access through a pointer has its checks.
#[cycle(expressions)]
pub fn place(alloc: Global, cell: &program::CellPlace) -> Result<CellPlace, NoMemory>
    ensures { IfOk result (λ p. erased.place p ≡ insert.place (core.place cell.now)) }
{
    match cell {
        program::CellPlace::Direct { object, offset } => Ok(CellPlace::Direct {
            object: *object,
            offset: *offset,
        }),
        program::CellPlace::Through {
            pointer,
            index,
            offset,
            site,
        } => through(alloc, pointer, index, *offset, *site),
    }
}

// Which element an access takes, each with so many bytes.
#[cycle(expressions)]
fn index(alloc: Global, size: u32, which: &program::Index) -> Result<Index, NoMemory>
    ensures { IfOk result (λ i. erased.index i ≡ insert.index size (core.index which.now)) }
{
    match which {
        program::Index::First => Ok(Index::First),
        program::Index::Element { number, .. } => Ok(Index::Element {
            number: boxed(alloc, number)?,
            size,
        }),
    }
}

// An access through a pointer, behind its checks.
#[cycle(expressions)]
fn through(
    alloc: Global,
    pointer: &program::Expr,
    which: &program::Index,
    offset: u32,
    site: Site,
) -> Result<CellPlace, NoMemory>
    ensures { IfOk result (λ p. erased.place p ≡ erased.Through (insert.expression (core.expression pointer.now))
        (insert.index (insert.size_of (bounds_of (core.expression pointer.now))) (core.index which.now)) offset
        (insert.access_checks (bounds_of (core.expression pointer.now)) (core.index which.now) site)) }
{
    let checks = access_checks(alloc, pointer, which, site)?;
    let index = index(alloc, size_of(pointer), which)?;
    let pointer = boxed(alloc, pointer)?;
    Ok(CellPlace::Through {
        pointer,
        index,
        offset,
        checks,
    })
}
