// What pointers point to, elements, and addresses.

ghost use Rattle.std.specs.Prelude.{◌≡◌, IfOk};
ghost use Rattle.pointer_modes.specs.Types.{ctype as ctype_of};
ghost use Rattle.ckc_core.specs.Core.{expression, index as index_of, place as place_of};
ghost use Rattle.region_typing_rules.specs.Operands.{dereferenced, element_at as element_at_in, first_or_end as first_or_end_of, indexed as indexed_in, address as address_of, pointer_to as pointer_at, checked_at as checked_at_of, below_end as below_end_of};
ghost use Rattle.region_typing_scope.specs.Answering.{Answers};
ghost use Rattle.region_typing_scope.specs.OnHeap.{typed};
ghost use Rattle.region_typing_scope.specs.Typed.{base_place};
ghost use Rattle.region_typing_expressions.specs.Moves.{base_of_kind, element_behind};

use crate::members::first_element;
use crate::operand_tests::are_indexed;
use ckc_core::program::{CellPlace, Expr, Index, Site};
use ckc_text::code::Code;
use ckc_text::fault::NoMemory;
use ckc_text::place::Span;
use pointer_modes::ctype::{CType, Kind, Mode};
use region_typing_flow::readings::bounds_of;
use region_typing_scope::context::Context;
use region_typing_scope::operands::{Operand, value_of};
use region_typing_scope::refusals::{CheckError, needs, refusal};
use region_typing_scope::typed::{Base, StructPlace, Typed, at_base, first_cell, plain};

/// What a pointer points to.
pub fn pointed_at(
    context: &Context,
    t: Box<Typed>,
    site: Site,
    span: Span,
) -> Result<Box<Typed>, CheckError>
    ensures { Answers typed (dereferenced (typed t) site span) result }
{
    let Operand {
        ctype,
        zero: _,
        value: pointer,
    } = value_of(context, t, span)?;
    match ctype {
        CType::Pointer(_, kind, target) => {
            let base = base_behind(context, kind, pointer, site, span)?;
            Ok(context.boxed(at_base(Box::into_inner(target), base))?)
        }
        _ => Err(refusal(Code::E13, span)),
    }
}

// What stands where a pointer of a kind leads to.
fn base_behind(
    context: &Context,
    kind: Kind,
    pointer: Box<Expr>,
    site: Site,
    span: Span,
) -> Result<Base, CheckError>
    ensures { Answers base_place (base_of_kind kind (expression pointer.value) site span) result }
{
    match kind {
        Kind::One => Ok(Base::Behind { pointer, site }),
        Kind::Array => {
            needs(bounds_of(&pointer).is_some(), Code::E18, span)?;
            Ok(first_element(context, pointer, site)?)
        }
        Kind::Nt => {
            needs(bounds_of(&pointer).is_some(), Code::E18, span)?;
            Ok(first_or_end(context, pointer, site)?)
        }
    }
}

// The element at which a pointer with bounds stands, which may be the zero at its upper end.
fn first_or_end(context: &Context, pointer: Box<Expr>, site: Site) -> Result<Base, NoMemory>
    ensures { IfOk result (λ base. base_place base ≡ first_or_end_of (expression pointer.value) site) }
{
    let number = context.boxed(Expr::Number(0))?;
    Ok(Base::Element {
        pointer,
        number,
        terminated: true,
        site,
    })
}

// The element of a number behind the one at which a pointer with bounds stands, which may be the zero at their upper end.
fn element_in(
    context: &Context,
    target: Box<CType>,
    pointer: Box<Expr>,
    number: Box<Expr>,
    terminated: bool,
    site: Site,
    span: Span,
) -> Result<Box<Typed>, CheckError>
    ensures { Answers typed (element_behind (ctype_of target.value) (expression pointer.value) (expression number.value) terminated site span) result }
{
    needs(bounds_of(&pointer).is_some(), Code::E18, span)?;
    let base = Base::Element {
        pointer,
        number,
        terminated,
        site,
    };
    Ok(context.boxed(at_base(Box::into_inner(target), base))?)
}

// The element of a number of what a pointer of a type leads to.
fn element_at(
    context: &Context,
    ctype: CType,
    pointer: Box<Expr>,
    number: Box<Expr>,
    site: Site,
    span: Span,
) -> Result<Box<Typed>, CheckError>
    ensures { Answers typed (element_at_in (ctype_of ctype) (expression pointer.value) (expression number.value) site span) result }
{
    match ctype {
        CType::Pointer(_, kind, target) => match kind {
            Kind::Array => element_in(context, target, pointer, number, false, site, span),
            Kind::Nt => element_in(context, target, pointer, number, true, site, span),
            Kind::One => Err(refusal(Code::E19, span)),
        },
        _ => Err(refusal(Code::E19, span)),
    }
}

/// An element of what a pointer points to.
pub fn indexed(
    context: &Context,
    left: Box<Typed>,
    right: Box<Typed>,
    site: Site,
    span: Span,
) -> Result<Box<Typed>, CheckError>
    ensures { Answers typed (indexed_in (typed left) (typed right) site span) result }
{
    needs(are_indexed(&left, &right), Code::E13, span)?;
    let pointer = value_of(context, left, span)?;
    let number = value_of(context, right, span)?;
    element_at(
        context,
        pointer.ctype,
        pointer.value,
        number.value,
        site,
        span,
    )
}

// A pointer to a place.
fn pointer_to(
    context: &Context,
    ctype: CType,
    place: CellPlace,
    site: Site,
) -> Result<Box<Typed>, NoMemory>
    ensures { IfOk result (λ t. typed t ≡ pointer_at (ctype_of ctype) (place_of place) site) }
{
    let target = context.boxed(ctype)?;
    let ctype = CType::Pointer(Mode::Checked, Kind::One, target);
    let value = Expr::AddressOf {
        cell: checked_at(place, site),
        bounds: None,
    };
    plain(context, ctype, value)
}

// An element, but not what stands at the upper end of a null-terminated pointer.
fn below_end(index: Index) -> Index
    ensures { index_of result ≡ below_end_of (index_of index) }
{
    match index {
        Index::First => Index::First,
        Index::Element { number, .. } => Index::Element {
            number,
            terminated: false,
        },
    }
}

// The same place, whose check names another expression, and lets no upper end through.
fn checked_at(place: CellPlace, site: Site) -> CellPlace
    ensures { place_of result ≡ checked_at_of (place_of place) site }
{
    match place {
        CellPlace::Direct { object, offset } => CellPlace::Direct { object, offset },
        CellPlace::Through {
            pointer,
            index,
            offset,
            ..
        } => CellPlace::Through {
            pointer,
            index: below_end(index),
            offset,
            site,
        },
    }
}

/// The address of a place.
pub fn address(
    context: &Context,
    t: Box<Typed>,
    site: Site,
    span: Span,
) -> Result<Box<Typed>, CheckError>
    ensures { Answers typed (address_of (typed t) site span) result }
{
    match Box::into_inner(t) {
        Typed::Value { .. } => Err(refusal(Code::E12, span)),
        Typed::Local { .. } | Typed::Bounded { .. } | Typed::Unknown { .. } | Typed::Array { .. } =>
            Err(refusal(Code::E22, span)),
        Typed::Cell { ctype, place, .. } => Ok(pointer_to(context, ctype, place, site)?),
        Typed::Struct { number, place } => match place {
            StructPlace::Local(_) => Err(refusal(Code::E22, span)),
            StructPlace::Cell(base) => {
                let place = first_cell(base);
                Ok(pointer_to(context, CType::Struct(number), place, site)?)
            }
        },
    }
}
