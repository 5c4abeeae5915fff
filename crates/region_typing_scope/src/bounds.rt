// The bounds at the nodes of values that are checked pointers.

ghost use Rattle.std.specs.Prelude.{◌≡◌, ℕ, ◌-◌, true, false, IfOk, map};
ghost use Rattle.std.specs.Option.{option_map};
ghost use Rattle.pointer_modes.specs.Types.{CType as TypeTree, ctype as ctype_of};
ghost use Rattle.pointer_modes.specs.Layout.{size_of};
ghost use Rattle.ckc_core.specs.Core.{AddressOf, Local, Load, Place, expression};
ghost use Rattle.region_typing_rules.specs.Verdicts.{Passes};
ghost use Rattle.bounds_flow.specs.Flows.{held_at};
ghost use Rattle.region_typing_rules.specs.Operands.{in_force as in_force_of, bounds_by as bounds_by_kind, bounds_at as bounds_of_type, in_cell_by as in_cell_of_kind, cell_bounds as cell_bounds_of, noted as noted_with, noted_if as noted_where, with_bounds as noted_typed, with_cell_bounds as noted_in_cell, array_typed, sum_node as sum_node_of, site_at};
ghost use Rattle.region_typing_rules.specs.DeclaredBounds.{row_of as row_of_length};
ghost use Rattle.ckc_text.specs.Places.{place_at};
ghost use Rattle.region_typing_scope.specs.Answering.{Answers};
ghost use Rattle.region_typing_scope.specs.Views.{scope as scope_of};
ghost use Rattle.region_typing_scope.specs.Typed.{typed as typed_view, elements_typed, noted_by};
ghost use Rattle.region_typing_scope.specs.OnHeap.{typed as typed_on_heap};

use crate::context::Context;
use crate::initial_cells::before_end;
use crate::refusals::CheckError;
use crate::scope::Scope;
use crate::typed::Typed;
use bounds_exprs::expression::constant as constant_term;
use bounds_exprs::term::Bounds;
use bounds_flow::flow::Flow;
use ckc_core::program::{Direction, Expr, PointerBounds, Site};
use ckc_text::fault::NoMemory;
use ckc_text::place::Span;
use pointer_modes::ctype::{CType, Kind, Mode};
use pointer_modes::structs::Structs;
use region_typing_flow::readings::{based_bounds, bounds_of, constant, own_bounds, sum_bounds};

/// The bounds of so many elements, from the pointer on.
pub fn row_of(length: u32) -> Bounds
    ensures { result ≡ row_of_length length }
{
    Bounds {
        base: None,
        lo: constant_term(0),
        hi: constant_term(length as i64),
    }
}

// The bounds of a pointer of a mode and a kind, where these are those of one element.
fn bounds_by(mode: Mode, kind: Kind, bounds: PointerBounds) -> Option<PointerBounds>
    ensures { result ≡ bounds_by_kind mode kind bounds }
{
    match mode {
        Mode::Checked => match kind {
            Kind::One => Some(bounds),
            Kind::Array | Kind::Nt => None,
        },
        Mode::Tainted | Mode::Raw => None,
    }
}

/// The bounds of a value of a type, where it stands.
pub fn bounds_at(structs: &Structs, t: &CType, site: Site) -> Option<PointerBounds>
    ensures { result ≡ bounds_of_type structs.now (ctype_of t.now) site }
{
    match t {
        CType::Pointer(mode, kind, target) => {
            let bounds = PointerBounds {
                bounds: row_of(1),
                size: structs.size_of(target),
                terminated: false,
                site,
            };
            bounds_by(*mode, *kind, bounds)
        }
        CType::Int | CType::Char | CType::Struct(_) => None,
    }
}

// The bounds of a pointer of a mode and a kind in a cell: others where a zero may end what it leads to.
fn in_cell_by(
    mode: Mode,
    kind: Kind,
    ended: PointerBounds,
    other: Option<PointerBounds>,
) -> Option<PointerBounds>
    ensures { result ≡ in_cell_of_kind mode kind ended other }
{
    match mode {
        Mode::Checked => match kind {
            Kind::Nt => Some(ended),
            Kind::One | Kind::Array => other,
        },
        Mode::Tainted | Mode::Raw => other,
    }
}

/// The bounds of a value of a type that stands in a cell: the end of a null-terminated pointer may be where it stands.
pub fn cell_bounds(structs: &Structs, t: &CType, site: Site) -> Option<PointerBounds>
    ensures { result ≡ cell_bounds_of structs.now (ctype_of t.now) site }
{
    match t {
        CType::Pointer(mode, kind, target) => {
            let ended = PointerBounds {
                bounds: row_of(0),
                size: structs.size_of(target),
                terminated: true,
                site,
            };
            in_cell_by(*mode, *kind, ended, bounds_at(structs, t, site))
        }
        CType::Int | CType::Char | CType::Struct(_) => None,
    }
}

/// The bounds in force of a local; beyond the flow's variables there are none.
pub fn bounds_in_force(flow: &Flow, local: u32) -> Option<Bounds>
    ensures { result ≡ (held_at flow.now.held local).bounds }
{
    flow.is_flow();
    if local < flow.vars() {
        flow.bounds(local)
    } else {
        None
    }
}

// Bounds of a pointer to elements of so many bytes, which a zero ends or not, at its node.
fn node_bounds(
    bounds: Option<Bounds>,
    size: u32,
    terminated: bool,
    site: Site,
) -> Option<PointerBounds>
    ensures { result ≡ option_map (λ b. record { bounds = b; size = size; terminated = terminated; site = site }) bounds }
{
    match bounds {
        None => None,
        Some(bounds) => Some(PointerBounds {
            bounds,
            size,
            terminated,
            site,
        }),
    }
}

/// The bounds in force of a pointer to such elements, at its node. Where the elements have no bytes, as in no source, only
/// those that a zero ends have some.
pub fn in_force(
    structs: &Structs,
    kind: Kind,
    target: &CType,
    bounds: Option<Bounds>,
    site: Site,
) -> Option<PointerBounds>
    ensures { result ≡ in_force_of structs.now kind (ctype_of target.now) bounds site }
{
    let size = structs.size_of(target);
    match kind {
        Kind::Array if 0 < size => node_bounds(bounds, size, false, site),
        Kind::Nt => node_bounds(bounds, size, true, site),
        Kind::Array | Kind::One => None,
    }
}

// A value with bounds at its node.
fn noted(value: Expr, bounds: Option<PointerBounds>) -> Expr
    ensures { expression result ≡ noted_with bounds (expression value) }
{
    match value {
        Expr::Local { local, .. } => Expr::Local { local, bounds },
        Expr::Load { ctype, cell, .. } => Expr::Load {
            ctype,
            cell,
            bounds,
        },
        Expr::AddressOf { cell, .. } => Expr::AddressOf { cell, bounds },
        Expr::Call { call, .. } => Expr::Call { call, bounds },
        Expr::Sum {
            pointer,
            direction,
            number,
            site,
            ..
        } => Expr::Sum {
            pointer,
            direction,
            number,
            site,
            bounds,
        },
        Expr::Allocate {
            count,
            element,
            terminator,
            ..
        } => Expr::Allocate {
            count,
            element,
            terminator,
            bounds,
        },
        Expr::Cast { pointer, .. } => Expr::Cast { pointer, bounds },
        other => other,
    }
}

// The bounds that its type gives a value, or else those that its node has.
fn noted_as(by_type: Option<PointerBounds>, at_node: Option<PointerBounds>) -> Option<PointerBounds>
    ensures local { (local : ℕ) → noted_where by_type (Local local at_node) ≡ Local local result }
    ensures array { (place : Place) → noted_where by_type (AddressOf place at_node) ≡ AddressOf place result }
    ensures cell { (type : TypeTree) (place : Place) → noted_where by_type (Load type place at_node) ≡ Load type place result }
{
    match by_type {
        None => at_node,
        Some(bounds) => Some(bounds),
    }
}

// A value with the bounds that its type gives it.
fn noted_value(
    context: &Context,
    value: Box<Expr>,
    by_type: Option<PointerBounds>,
) -> Result<Box<Expr>, NoMemory>
    ensures { IfOk result (λ noted. expression noted.value ≡ noted_where by_type (expression value.value)) }
{
    match by_type {
        None => Ok(value),
        Some(bounds) => context.boxed(noted(Box::into_inner(value), Some(bounds))),
    }
}

// What an expression is, with bounds at its node where its type gives it some.
fn noted_at(context: &Context, t: Typed, by_type: Option<PointerBounds>) -> Result<Typed, NoMemory>
    ensures { IfOk result (λ noted. typed_view noted ≡ noted_by by_type (typed_view t)) }
{
    match t {
        Typed::Value { ctype, zero, value } => {
            let value = noted_value(context, value, by_type)?;
            Ok(Typed::Value { ctype, zero, value })
        }
        Typed::Local {
            ctype,
            local,
            is_array,
            bounds,
        } => Ok(Typed::Local {
            ctype,
            local,
            is_array,
            bounds: noted_as(by_type, bounds),
        }),
        Typed::Cell {
            ctype,
            place,
            bounds,
        } => Ok(Typed::Cell {
            ctype,
            place,
            bounds: noted_as(by_type, bounds),
        }),
        Typed::Bounded {
            ctype,
            object,
            declared,
            bounds,
        } => Ok(Typed::Bounded {
            ctype,
            object,
            declared,
            bounds: noted_as(by_type, bounds),
        }),
        Typed::Unknown {
            ctype,
            object,
            bounds,
        } => Ok(Typed::Unknown {
            ctype,
            object,
            bounds: noted_as(by_type, bounds),
        }),
        Typed::Array {
            ctype,
            object,
            bounds,
        } => Ok(Typed::Array {
            ctype,
            object,
            bounds: noted_as(by_type, bounds),
        }),
        Typed::Struct { number, place } => Ok(Typed::Struct { number, place }),
    }
}

// The bounds that its type gives what an expression is.
fn type_bounds(structs: &Structs, t: &Typed, site: Site) -> Option<PointerBounds>
    ensures { noted_by result (typed_view t.now) ≡ noted_typed structs.now site (typed_view t.now) }
{
    match t {
        Typed::Value { ctype, .. }
        | Typed::Local { ctype, .. }
        | Typed::Cell { ctype, .. }
        | Typed::Bounded { ctype, .. }
        | Typed::Unknown { ctype, .. }
        | Typed::Array { ctype, .. } => bounds_at(structs, ctype, site),
        Typed::Struct { .. } => None,
    }
}

// The same where it stands in a cell.
fn type_bounds_in_cell(structs: &Structs, t: &Typed, site: Site) -> Option<PointerBounds>
    ensures { noted_by result (typed_view t.now) ≡ noted_in_cell structs.now site (typed_view t.now) }
{
    match t {
        Typed::Value { ctype, .. }
        | Typed::Local { ctype, .. }
        | Typed::Cell { ctype, .. }
        | Typed::Bounded { ctype, .. }
        | Typed::Unknown { ctype, .. }
        | Typed::Array { ctype, .. } => cell_bounds(structs, ctype, site),
        Typed::Struct { .. } => None,
    }
}

/// What an expression at a span is, with bounds at its node.
pub fn with_bounds(
    context: &Context,
    scope: &Scope,
    t: Box<Typed>,
    span: Span,
) -> Result<Box<Typed>, CheckError>
    ensures { Answers typed_on_heap (Passes (noted_typed (scope_of scope.now).structs (site_at (place_at context.now) span) (typed_on_heap t))) result }
{
    let by_type = type_bounds(&scope.structs, &t, context.site(span));
    let noted = noted_at(context, Box::into_inner(t), by_type)?;
    Ok(context.boxed(noted)?)
}

/// What an expression at a span is that stands in a cell, with bounds at its node.
pub fn with_cell_bounds(
    context: &Context,
    scope: &Scope,
    t: Box<Typed>,
    span: Span,
) -> Result<Box<Typed>, CheckError>
    ensures { Answers typed_on_heap (Passes (noted_in_cell (scope_of scope.now).structs (site_at (place_at context.now) span) (typed_on_heap t))) result }
{
    let by_type = type_bounds_in_cell(&scope.structs, &t, context.site(span));
    let noted = noted_at(context, Box::into_inner(t), by_type)?;
    Ok(context.boxed(noted)?)
}

// The name of an array, with these bounds at its node.
fn elements(
    context: &Context,
    object: u32,
    element: CType,
    kind: Kind,
    bounds: Option<PointerBounds>,
) -> Result<Typed, NoMemory>
    ensures { IfOk result (λ t. typed_view t ≡ elements_typed object (ctype_of element) kind bounds) }
{
    let element = context.boxed(element)?;
    Ok(Typed::Array {
        ctype: CType::Pointer(Mode::Checked, kind, element),
        object,
        bounds,
    })
}

/// The name of an array of so many elements, of which the last one may be the zero that ends it.
pub fn array(
    context: &Context,
    structs: &Structs,
    object: u32,
    element: CType,
    length: u32,
    ended: bool,
    site: Site,
) -> Result<Typed, NoMemory>
    ensures { IfOk result (λ t. typed_view t ≡ array_typed structs.now object (ctype_of element) length ended site) }
{
    let size = structs.size_of(&element);
    if ended {
        let row = row_of(before_end(true, length));
        let bounds = node_bounds(Some(row), size, true, site);
        elements(context, object, element, Kind::Nt, bounds)
    } else {
        let bounds = node_bounds(Some(row_of(length)), size, false, site);
        elements(context, object, element, Kind::Array, bounds)
    }
}

/// The bounds at the node of a sum, where the locals have these types: those without a base where there are any, and else those
/// from a base.
pub fn sum_node(
    locals: &[CType],
    direction: Direction,
    pointer: &Expr,
    number: &Expr,
    site: Site,
) -> Option<PointerBounds>
    ensures { result ≡ sum_node_of (map ctype_of locals.now) direction (expression pointer.now) (expression number.now) site }
{
    let own = bounds_of(pointer)?;
    let moved = sum_bounds(direction, constant(locals, number), own_bounds(pointer));
    let bounds = match moved {
        Some(bounds) => bounds,
        None => based_bounds(pointer)?,
    };
    Some(PointerBounds {
        bounds,
        size: own.size,
        terminated: own.terminated,
        site,
    })
}
