// Members of structs.

ghost use Rattle.std.specs.Prelude.{◌≡◌, ◌<◌, ◌==◌, length, map, position, IfOk, IfSome};
ghost use Rattle.pointer_modes.specs.declared.ctype.Mode.{Mode};
ghost use Rattle.pointer_modes.specs.Types.{Pointer, Struct, ctype as ctype_of, member as member_of};
ghost use Rattle.ckc_core.specs.Core.{expression, place as place_of};
ghost use Rattle.region_typing_rules.specs.Operands.{member_from, member_at as member_in, member_place as place_in, struct_place as cell_of_struct, first_element as first_element_of, dotted as dotted_in, pointed_by as pointed_by_in, arrowed as arrowed_in};
ghost use Rattle.region_typing_scope.specs.Answering.{Answers};
ghost use Rattle.region_typing_scope.specs.Searches.{member_at as member_found_at};
ghost use Rattle.region_typing_scope.specs.Views.{scope as scope_of};
ghost use Rattle.region_typing_scope.specs.Typed.{base_place, struct_place, struct_of};
ghost use Rattle.region_typing_scope.specs.OnHeap.{typed};

use ckc_core::program::{CellPlace, Expr, Index, Site};
use ckc_text::code::Code;
use ckc_text::fault::NoMemory;
use ckc_text::place::Span;
use pointer_modes::ctype::{CType, Kind, Member};
use region_typing_flow::readings::bounds_of;
use region_typing_scope::context::Context;
use region_typing_scope::operands::{Operand, value_of};
use region_typing_scope::refusals::{CheckError, needs, refusal};
use region_typing_scope::scope::Scope;
use region_typing_scope::typed::{Base, StructPlace, Typed};
use region_typing_scope::types::copied;

// The place of the first of names that is this one.
fn name_place(names: &[usize], name: usize) -> Option<usize>
    ensures { result ≡ position (λ other. name == other) names.now }
{
    names.iter().position(|other| name == *other)
}

// The place of the member that has a name, where these are the names of members.
fn member_place(names: &[usize], members: &[Member], name: usize) -> Option<usize>
    ensures found { member_found_at 0 members.now result ≡ member_from 0 names.now (map member_of members.now) name }
    ensures within { IfSome result (λ place. place < length members.now) }
{
    let place = name_place(names, name)?;
    if place < members.len() {
        Some(place)
    } else {
        None
    }
}

// So many bytes behind the first cell of a struct.
fn cell_of(base: Base, offset: u32, site: Site) -> CellPlace
    ensures { place_of result ≡ place_in (base_place base) offset site }
{
    match base {
        Base::Object(object) => CellPlace::Direct { object, offset },
        Base::Behind { pointer, .. } => CellPlace::Through {
            pointer,
            index: Index::First,
            offset,
            site,
        },
        Base::Element {
            pointer,
            number,
            terminated,
            ..
        } => CellPlace::Through {
            pointer,
            index: Index::Element { number, terminated },
            offset,
            site,
        },
    }
}

/// A member of a struct that has one of this name.
pub fn member_at(
    context: &Context,
    scope: &Scope,
    number: u32,
    base: Base,
    name: usize,
    site: Site,
    span: Span,
) -> Result<Box<Typed>, CheckError>
    ensures { Answers typed (member_in (scope_of scope.now) number (base_place base) name site span) result }
{
    let members = scope.structs.members(number);
    let names = scope.members_named(number);
    match member_place(names, members, name) {
        None => Err(refusal(Code::E10, span)),
        Some(cell) => {
            let offset = scope
                .structs
                .offset_of_cell(&CType::Struct(number), cell as u32);
            let ctype = copied(context, &members[cell].ctype)?;
            let place = cell_of(base, offset, site);
            Ok(context.boxed(Typed::Cell {
                ctype,
                place,
                bounds: None,
            })?)
        }
    }
}

// The first cell of a struct. A parameter that is one stands behind a pointer that is none.
fn base_of(context: &Context, place: StructPlace, site: Site) -> Result<Base, NoMemory>
    ensures { IfOk result (λ base. base_place base ≡ cell_of_struct (struct_place place) site) }
{
    match place {
        StructPlace::Local(local) => {
            let pointer = context.boxed(Expr::Local {
                local,
                bounds: None,
            })?;
            Ok(Base::Behind { pointer, site })
        }
        StructPlace::Cell(base) => Ok(base),
    }
}

/// A member of a struct.
pub fn dotted(
    context: &Context,
    scope: &Scope,
    t: Box<Typed>,
    name: usize,
    site: Site,
    span: Span,
) -> Result<Box<Typed>, CheckError>
    ensures { Answers typed (dotted_in (scope_of scope.now) (typed t) name site span) result }
{
    match Box::into_inner(t) {
        Typed::Struct { number, place } => {
            let base = base_of(context, place, site)?;
            member_at(context, scope, number, base, name, site, span)
        }
        _ => Err(refusal(Code::E13, span)),
    }
}

/// A member of a struct that a pointer points to.
pub fn arrowed(
    context: &Context,
    scope: &Scope,
    t: Box<Typed>,
    name: usize,
    site: Site,
    span: Span,
) -> Result<Box<Typed>, CheckError>
    ensures { Answers typed (arrowed_in (scope_of scope.now) (typed t) name site span) result }
{
    let Operand {
        ctype,
        zero: _,
        value: pointer,
    } = value_of(context, t, span)?;
    pointed_by(context, scope, &ctype, pointer, name, site, span)
}

// A member of what a pointer of a type points to.
fn pointed_by(
    context: &Context,
    scope: &Scope,
    ctype: &CType,
    pointer: Box<Expr>,
    name: usize,
    site: Site,
    span: Span,
) -> Result<Box<Typed>, CheckError>
    ensures { Answers typed (pointed_by_in (scope_of scope.now) (ctype_of ctype.now) (expression pointer.value) name site span) result }
{
    if let CType::Pointer(_, kind, target) = ctype {
        if let Some(number) = struct_number(target) {
            return member_behind(context, scope, *kind, number, pointer, name, site, span);
        }
    }
    Err(refusal(Code::E13, span))
}

// A member of the struct that a pointer of a kind points to.
fn member_behind(
    context: &Context,
    scope: &Scope,
    kind: Kind,
    number: u32,
    pointer: Box<Expr>,
    name: usize,
    site: Site,
    span: Span,
) -> Result<Box<Typed>, CheckError>
    ensures { (mode : Mode) → Answers typed (pointed_by_in (scope_of scope.now) (Pointer mode kind (Struct number))
        (expression pointer.value) name site span) result }
{
    match kind {
        Kind::One => {
            let base = Base::Behind { pointer, site };
            member_at(context, scope, number, base, name, site, span)
        }
        Kind::Array => {
            let bounded = bounds_of(&pointer).is_some();
            let base = first_element(context, pointer, site)?;
            let t = member_at(context, scope, number, base, name, site, span)?;
            needs(bounded, Code::E18, span)?;
            Ok(t)
        }
        Kind::Nt => Err(refusal(Code::E13, span)),
    }
}

/// The element at which a pointer with bounds stands.
pub fn first_element(context: &Context, pointer: Box<Expr>, site: Site) -> Result<Base, NoMemory>
    ensures { IfOk result (λ base. base_place base ≡ first_element_of (expression pointer.value) site) }
{
    let number = context.boxed(Expr::Number(0))?;
    Ok(Base::Element {
        pointer,
        number,
        terminated: false,
        site,
    })
}

// The struct that a type is.
fn struct_number(t: &CType) -> Option<u32>
    ensures { result ≡ struct_of (ctype_of t.now) }
{
    match t {
        CType::Struct(number) => Some(*number),
        _ => None,
    }
}
