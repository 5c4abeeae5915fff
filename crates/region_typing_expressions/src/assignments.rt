// Assignments.

ghost use Rattle.std.specs.Prelude.{◌≡◌, IfOk};
ghost use Rattle.ckc_text.specs.Places.{place_at};
ghost use Rattle.ckc_tree.specs.Expressions.{expression as expression_tree};
ghost use Rattle.ckc_tree.specs.Statements.{assignment as assignment_tree};
ghost use Rattle.pointer_modes.specs.Types.{ctype as ctype_of};
ghost use Rattle.ckc_core.specs.Core.{Direct, Load, Store, expression, statement, place as place_of};
ghost use Rattle.region_typing_rules.specs.Verdicts.{Passes};
ghost use Rattle.region_typing_rules.specs.Statements.{declared_for as declared_for_place, store as store_of, update as update_with, updated_place as updated_at, set_to as set_to_of, updated as updated_of, stored as stored_of, step_of as step_from, one as one_of, assignment as assignment_of, condition as condition_of};
ghost use Rattle.region_typing_scope.specs.Answering.{Answers};
ghost use Rattle.region_typing_scope.specs.Views.{scope as scope_of};
ghost use Rattle.region_typing_scope.specs.Typed.{typed as inline_typed};
ghost use Rattle.region_typing_scope.specs.OnHeap.{typed as typed_view, expression as expression_on_heap, statement as statement_on_heap};
ghost use Rattle.region_typing_expressions.specs.Targets.{target as target_view, target_on_heap, lvalue, target_of as target_in, is_unbounded as is_unbounded_in, may_update as may_update_in, bounded_sum, cell_sum, sum_of, moved_target as moved_to, update_by as update_in, updated_target};

use crate::expressions::typed;
use crate::operand_tests::{is_row, is_single, is_single_value, lacks_bounds};
use crate::operators::{operator_along, pointer_sum};
use act_words::operator::Operator;
use bounds_exprs::term::Bounds;
use ckc_core::char_cells::has_one_byte;
use ckc_core::program;
use ckc_core::program::{CellPlace, Direction, PointerBounds, Site, Stmt};
use ckc_text::code::Code;
use ckc_text::fault::NoMemory;
use ckc_text::place::Span;
use ckc_tree::expr::Expr;
use ckc_tree::stmt::{Assignment, StepOperator, StoreOperator};
use pointer_modes::ctype::CType;
use region_typing_scope::context::Context;
use region_typing_scope::conversions::fitted;
use region_typing_scope::declared::unwritten_bounds;
use region_typing_scope::entailment::value_meets;
use region_typing_scope::operands::{number, scalar};
use region_typing_scope::refusals::{CheckError, needs, refusal};
use region_typing_scope::scope::Scope;
use region_typing_scope::typed::{Typed, plain};
use region_typing_scope::types::{copied, is_pointer, is_scalar};

/// Where a value may be stored: a local, a cell, a file-level pointer for which these bounds are declared, or one that a zero
/// ends and whose bounds are declared as unknown.
#[derive(Drop)]
pub enum Lvalue {
    Local(u32),
    Cell(CellPlace),
    Bounded { object: u32, declared: Bounds },
    Unknown { object: u32 },
}

/// A place that a value may be stored in, its type, and the bounds of what it holds.
#[derive(Drop)]
pub struct Target {
    pub ctype: CType,
    pub place: Lvalue,
    pub bounds: Option<PointerBounds>,
}

// A place of a type.
fn target_at(
    context: &Context,
    ctype: CType,
    place: Lvalue,
    bounds: Option<PointerBounds>,
) -> Result<Box<Target>, CheckError>
    ensures { Answers target_on_heap (Passes (target_view (record { ctype = ctype; place = place; bounds = bounds }))) result }
{
    Ok(context.boxed(Target {
        ctype,
        place,
        bounds,
    })?)
}

/// The place that an expression stands for.
fn target_of(context: &Context, t: Box<Typed>, span: Span) -> Result<Box<Target>, CheckError>
    ensures { Answers target_on_heap (target_in (typed_view t) span) result }
{
    match Box::into_inner(t) {
        Typed::Value { .. } | Typed::Array { .. } => Err(refusal(Code::E12, span)),
        Typed::Local { is_array: true, .. } => Err(refusal(Code::E12, span)),
        Typed::Local {
            ctype,
            local,
            is_array: false,
            bounds,
        } => target_at(context, ctype, Lvalue::Local(local), bounds),
        Typed::Cell {
            ctype,
            place,
            bounds,
        } => target_at(context, ctype, Lvalue::Cell(place), bounds),
        Typed::Bounded {
            ctype,
            object,
            declared,
            bounds,
        } => target_at(context, ctype, Lvalue::Bounded { object, declared }, bounds),
        Typed::Unknown {
            ctype,
            object,
            bounds,
        } => target_at(context, ctype, Lvalue::Unknown { object }, bounds),
        Typed::Struct { .. } => Err(refusal(Code::E13, span)),
    }
}

// A store.
fn store(target: Target, value: Box<program::Expr>) -> Stmt
    ensures { statement result ≡ store_of (lvalue target.place) (ctype_of target.ctype) (expression value.value) }
{
    let Target { ctype, place, .. } = target;
    match place {
        Lvalue::Local(local) => Stmt::SetLocal { local, value },
        Lvalue::Cell(cell) => Stmt::Store { ctype, cell, value },
        Lvalue::Bounded { object, .. } | Lvalue::Unknown { object } => {
            store_object(object, ctype, value)
        }
    }
}

// A store in a file-level pointer.
fn store_object(object: u32, ctype: CType, value: Box<program::Expr>) -> Stmt
    ensures { statement result ≡ Store (ctype_of ctype) (Direct object 0) (expression value.value) }
{
    Stmt::Store {
        ctype,
        cell: CellPlace::Direct { object, offset: 0 },
        value,
    }
}

// The bounds that are declared for where a value of a type goes, which it is asked for at once.
fn declared_for(place: &Lvalue, ctype: &CType) -> Option<Bounds>
    ensures { result ≡ declared_for_place (lvalue place.now) (ctype_of ctype.now) }
{
    match place {
        Lvalue::Local(_) | Lvalue::Unknown { .. } => None,
        Lvalue::Cell(_) => unwritten_bounds(ctype),
        Lvalue::Bounded { declared, .. } => Some(*declared),
    }
}

// A store of a value that converts, and whose bounds are met.
fn set_to(
    context: &Context,
    scope: &Scope,
    left: Box<Typed>,
    right: Box<Typed>,
    span: Span,
) -> Result<Box<Stmt>, CheckError>
    ensures { Answers statement_on_heap (set_to_of (scope_of scope.now).flow (typed_view left) (typed_view right) span) result }
{
    let target = target_of(context, left, span)?;
    let declared = declared_for(&target.place, &target.ctype);
    let value = fitted(context, scope, &declared, right, &target.ctype, span)?;
    Ok(context.boxed(store(Box::into_inner(target), value))?)
}

// A place whose checks name another expression.
fn updated_place(place: CellPlace, site: Site) -> CellPlace
    ensures { place_of result ≡ updated_at (place_of place) site }
{
    match place {
        CellPlace::Direct { object, offset } => CellPlace::Direct { object, offset },
        CellPlace::Through {
            pointer,
            index,
            offset,
            ..
        } => CellPlace::Through {
            pointer,
            index,
            offset,
            site,
        },
    }
}

// An update.
fn update(target: Target, operator: Operator, value: Box<program::Expr>, site: Site) -> Stmt
    ensures { statement result ≡ update_with (lvalue target.place) (ctype_of target.ctype) operator (expression value.value) site }
{
    let Target { ctype, place, .. } = target;
    match place {
        Lvalue::Local(local) => Stmt::UpdateLocal {
            is_char: has_one_byte(&ctype),
            local,
            operator,
            value,
            site,
        },
        Lvalue::Cell(cell) => Stmt::Update {
            ctype,
            cell: updated_place(cell, site),
            operator,
            value,
            site,
        },
        Lvalue::Bounded { object, .. } | Lvalue::Unknown { object } => Stmt::Update {
            ctype,
            cell: CellPlace::Direct { object, offset: 0 },
            operator,
            value,
            site,
        },
    }
}

// Whether a target holds a pointer whose bounds are unknown.
fn is_unbounded(target: &Target) -> bool
    ensures { result ≡ is_unbounded_in (target_view target.now) }
{
    is_row(&target.ctype) && target.bounds.is_none()
}

// Whether a target may be updated by an expression.
fn may_update(target: &Target, right: &Typed, span: Span) -> Result<(), CheckError>
    ensures { Answers (λ x. x) (may_update_in (target_view target.now) (inline_typed right.now) span) result }
{
    let single = is_single(&target.ctype) || is_single_value(right);
    needs(!single, Code::E19, span)?;
    let unbounded = is_unbounded(target) || lacks_bounds(right);
    needs(!unbounded, Code::E18, span)?;
    needs(is_scalar(&target.ctype), Code::E13, span)
}

// A sum that is stored in a file-level pointer, whose bounds it meets.
fn store_sum(
    scope: &Scope,
    object: u32,
    declared: &Bounds,
    ctype: CType,
    sum: Box<program::Expr>,
    span: Span,
) -> Result<Stmt, CheckError>
    ensures { Answers statement (bounded_sum (scope_of scope.now).flow object declared.now (ctype_of ctype) (expression sum.value) span) result }
{
    let met = value_meets(&scope.flow, &sum, declared)?;
    needs(met, Code::E17, span)?;
    Ok(store_object(object, ctype, sum))
}

// No sum is stored in a cell, whether it meets the bounds that are asked there or not.
fn refuse_sum(
    scope: &Scope,
    ctype: &CType,
    sum: &program::Expr,
    span: Span,
) -> Result<Stmt, CheckError>
    ensures { Answers statement (cell_sum (scope_of scope.now).flow (ctype_of ctype.now) (expression sum.now) span) result }
{
    if let Some(asked) = unwritten_bounds(ctype) {
        let met = value_meets(&scope.flow, sum, &asked)?;
        needs(met, Code::E17, span)?;
    }
    Err(refusal(Code::E18, span))
}

// A sum of the pointer that a cell holds.
fn sum_of_cell(
    context: &Context,
    scope: &Scope,
    direction: Direction,
    ctype: &CType,
    cell: CellPlace,
    bounds: Option<PointerBounds>,
    number: Box<program::Expr>,
    site: Site,
) -> Result<Box<program::Expr>, NoMemory>
    ensures { IfOk result (λ sum. expression sum.value ≡ sum_of (scope_of scope.now) direction
        (Load (ctype_of ctype.now) (place_of cell) bounds) (expression number.value) site) }
{
    let held = program::Expr::Load {
        ctype: copied(context, ctype)?,
        cell,
        bounds,
    };
    let pointer = context.boxed(held)?;
    context.boxed(pointer_sum(scope, direction, pointer, number, site))
}

// A pointer in a place becomes a sum of it.
fn moved(
    context: &Context,
    scope: &Scope,
    direction: Direction,
    target: Target,
    number: Box<program::Expr>,
    site: Site,
    span: Span,
) -> Result<Stmt, CheckError>
    ensures { Answers statement (moved_to (scope_of scope.now) direction (target_view target) (expression number.value) site span) result }
{
    let Target {
        ctype,
        place,
        bounds,
    } = target;
    match place {
        Lvalue::Local(local) => {
            let pointer = context.boxed(program::Expr::Local { local, bounds })?;
            let value = context.boxed(pointer_sum(scope, direction, pointer, number, site))?;
            Ok(Stmt::SetLocal { local, value })
        }
        Lvalue::Cell(cell) => {
            let sum = sum_of_cell(
                context, scope, direction, &ctype, cell, bounds, number, site,
            )?;
            refuse_sum(scope, &ctype, &sum, span)
        }
        Lvalue::Bounded { object, declared } => {
            let cell = CellPlace::Direct { object, offset: 0 };
            let sum = sum_of_cell(
                context, scope, direction, &ctype, cell, bounds, number, site,
            )?;
            store_sum(scope, object, &declared, ctype, sum, span)
        }
        Lvalue::Unknown { .. } => Err(refusal(Code::E18, span)),
    }
}

// An update of a target by a number.
fn update_by(
    context: &Context,
    scope: &Scope,
    direction: Direction,
    target: Target,
    number: Box<program::Expr>,
    site: Site,
    span: Span,
) -> Result<Stmt, CheckError>
    ensures { Answers statement (update_in (scope_of scope.now) direction (target_view target) (expression number.value) site span) result }
{
    if is_pointer(&target.ctype) {
        moved(context, scope, direction, target, number, site, span)
    } else {
        let operator = operator_along(direction);
        Ok(update(target, operator, number, site))
    }
}

// An update of a target.
fn update_target(
    context: &Context,
    scope: &Scope,
    direction: Direction,
    target: Box<Target>,
    right: Box<Typed>,
    site: Site,
    span: Span,
) -> Result<Box<Stmt>, CheckError>
    ensures { Answers statement_on_heap (updated_target (scope_of scope.now) direction (target_on_heap target) (typed_view right) site span) result }
{
    may_update(&target, &right, span)?;
    let number = number(context, right, span)?;
    let target = Box::into_inner(target);
    let updated = update_by(context, scope, direction, target, number, site, span)?;
    Ok(context.boxed(updated)?)
}

// An update by the rules of the sum or the difference.
fn updated(
    context: &Context,
    scope: &Scope,
    direction: Direction,
    left: Box<Typed>,
    right: Box<Typed>,
    span: Span,
) -> Result<Box<Stmt>, CheckError>
    ensures { Answers statement_on_heap (updated_of (place_at context.now) (scope_of scope.now) direction (typed_view left) (typed_view right) span) result }
{
    let target = target_of(context, left, span)?;
    let site = context.site(span);
    update_target(context, scope, direction, target, right, site, span)
}

// An assignment by its operator.
fn stored(
    context: &Context,
    scope: &Scope,
    operator: StoreOperator,
    left: Box<Typed>,
    right: Box<Typed>,
    span: Span,
) -> Result<Box<Stmt>, CheckError>
    ensures { Answers statement_on_heap (stored_of (place_at context.now) (scope_of scope.now) operator (typed_view left) (typed_view right) span) result }
{
    match operator {
        StoreOperator::Set => set_to(context, scope, left, right, span),
        StoreOperator::Add => updated(context, scope, Direction::Forward, left, right, span),
        StoreOperator::Subtract => {
            updated(context, scope, Direction::Backward, left, right, span)
        }
    }
}

fn step_of(operator: StepOperator) -> Direction
    ensures { result ≡ step_from operator }
{
    match operator {
        StepOperator::Increment => Direction::Forward,
        StepOperator::Decrement => Direction::Backward,
    }
}

// The number 1.
fn one(context: &Context) -> Result<Box<Typed>, NoMemory>
    ensures { IfOk result (λ t. typed_view t ≡ one_of) }
{
    plain(context, CType::Int, program::Expr::Number(1))
}

/// An assignment.
pub fn assignment(
    context: &Context,
    scope: &Scope,
    written: &Assignment,
) -> Result<Box<Stmt>, CheckError>
    ensures { Answers statement_on_heap (assignment_of (place_at context.now) (scope_of scope.now) (assignment_tree written.now)) result }
{
    match written {
        Assignment::Store {
            operator,
            target,
            value,
            span,
        } => {
            let left = typed(context, scope, target)?;
            let right = typed(context, scope, value)?;
            stored(context, scope, *operator, left, right, *span)
        }
        Assignment::Step {
            operator,
            target,
            span,
            ..
        } => {
            let left = typed(context, scope, target)?;
            let right = one(context)?;
            updated(context, scope, step_of(*operator), left, right, *span)
        }
    }
}

/// A condition.
pub fn condition(
    context: &Context,
    scope: &Scope,
    e: &Expr,
) -> Result<Box<program::Expr>, CheckError>
    ensures { Answers expression_on_heap (condition_of (place_at context.now) (scope_of scope.now) (expression_tree e.now)) result }
{
    let t = typed(context, scope, e)?;
    scalar(context, t, e.span())
}
