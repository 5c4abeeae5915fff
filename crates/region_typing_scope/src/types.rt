// The types that are written in a source, and what converts to what.

ghost use Rattle.std.specs.Prelude.{◌≡◌, ◌&&◌, IfOk};
ghost use Rattle.pointer_modes.specs.Types.{ctype};
ghost use Rattle.ckc_core.specs.States.{same_mode as same_mode_of, same_kind as same_kind_of, same_type as same_type_of};
ghost use Rattle.ckc_tree.specs.Types.{type_tree, type_name};
ghost use Rattle.region_typing_rules.specs.Types.{mode_of as mode_from, kind_of as kind_from, may_lead_to as may_lead, without_stars as starless, base_type as base_from, starred_type as starred_from, type_named as named_from, is_number as number_type, is_pointer as pointer_type, is_scalar as scalar_type, are_comparable as comparable_types, kind_converts as kind_converts_to, pointer_converts as pointer_converts_to, converts as converts_to};
ghost use Rattle.region_typing_scope.specs.Answering.{Answers};
ghost use Rattle.region_typing_scope.specs.Views.{scope as scope_of};

use crate::context::Context;
use crate::refusals::{CheckError, meant, needs};
use crate::scope::Scope;
use ckc_text::code::Code;
use ckc_text::fault::NoMemory;
use ckc_tree::type_form::{PointerKind, PointerMode, TypeForm, TypeName};
use pointer_modes::ctype::{CType, Kind, Mode};

/// A copy of a type.
pub fn copied(context: &Context, t: &CType) -> Result<CType, NoMemory>
    ensures { IfOk result (λ copy. ctype copy ≡ ctype t.now) }
{
    t.copy(context.alloc())
}

/// Whether two modes are the same.
pub fn same_mode(a: Mode, b: Mode) -> bool
    ensures { result ≡ same_mode_of a b }
{
    match (a, b) {
        (Mode::Checked, Mode::Checked) => true,
        (Mode::Tainted, Mode::Tainted) => true,
        (Mode::Raw, Mode::Raw) => true,
        _ => false,
    }
}

fn same_kind(a: Kind, b: Kind) -> bool
    ensures { result ≡ same_kind_of a b }
{
    match (a, b) {
        (Kind::One, Kind::One) => true,
        (Kind::Array, Kind::Array) => true,
        (Kind::Nt, Kind::Nt) => true,
        _ => false,
    }
}

/// Whether two types are the same.
pub fn same_type(a: &CType, b: &CType) -> bool
    ensures { result ≡ same_type_of (ctype a.now) (ctype b.now) }
{
    match a {
        CType::Int => matches!(b, CType::Int),
        CType::Char => matches!(b, CType::Char),
        CType::Struct(number) => match b {
            CType::Struct(other) => *number == *other,
            _ => false,
        },
        CType::Pointer(mode, kind, target) => match b {
            CType::Pointer(other_mode, other_kind, other) => {
                same_mode(*mode, *other_mode)
                    && (same_kind(*kind, *other_kind) && same_type(target, other))
            }
            _ => false,
        },
    }
}

/// Whether a type is that of numbers.
pub fn is_number(t: &CType) -> bool
    ensures { result ≡ number_type (ctype t.now) }
{
    match t {
        CType::Int | CType::Char => true,
        CType::Struct(_) | CType::Pointer(..) => false,
    }
}

/// Whether a pointer of a kind may lead to a type: a zero ends only numbers.
pub fn may_lead_to(kind: Kind, t: &CType) -> bool
    ensures { result ≡ may_lead kind (ctype t.now) }
{
    match kind {
        Kind::One | Kind::Array => true,
        Kind::Nt => is_number(t),
    }
}

/// Whether a type is that of pointers.
pub fn is_pointer(t: &CType) -> bool
    ensures { result ≡ pointer_type (ctype t.now) }
{
    match t {
        CType::Pointer(..) => true,
        CType::Int | CType::Char | CType::Struct(_) => false,
    }
}

/// Whether a type has one cell.
pub fn is_scalar(t: &CType) -> bool
    ensures { result ≡ scalar_type (ctype t.now) }
{
    is_number(t) || is_pointer(t)
}

/// Whether two types are pointers of one mode and element.
pub fn are_comparable(a: &CType, b: &CType) -> bool
    ensures { result ≡ comparable_types (ctype a.now) (ctype b.now) }
{
    match a {
        CType::Pointer(mode, _, target) => match b {
            CType::Pointer(other_mode, _, other) => {
                same_mode(*mode, *other_mode) && same_type(target, other)
            }
            _ => false,
        },
        _ => false,
    }
}

// Whether a pointer of the one kind converts to one of the other.
fn kind_converts(from: Kind, to: Kind) -> bool
    ensures { result ≡ kind_converts_to from to }
{
    match (from, to) {
        (Kind::One, Kind::Nt) | (Kind::Array, Kind::Nt) => false,
        _ => true,
    }
}

/// Whether a pointer of a type converts to another one, which is of a kind.
pub fn pointer_converts(from: &CType, kind: Kind, to: &CType) -> bool
    ensures { result ≡ pointer_converts_to (ctype from.now) kind (ctype to.now) }
{
    match from {
        CType::Pointer(_, own_kind, _) => are_comparable(from, to)
            && kind_converts(*own_kind, kind),
        CType::Int | CType::Char | CType::Struct(_) => false,
    }
}

/// Whether a value of the first type, which is the constant 0 or not, converts to the second.
pub fn converts(from: &CType, zero: bool, to: &CType) -> bool
    ensures { result ≡ converts_to (ctype from.now) zero (ctype to.now) }
{
    match to {
        CType::Int | CType::Char => is_number(from),
        CType::Struct(_) => false,
        CType::Pointer(_, kind, _) => zero || pointer_converts(from, *kind, to),
    }
}

fn mode_of(mode: PointerMode) -> Mode
    ensures { result ≡ mode_from mode }
{
    match mode {
        PointerMode::Checked => Mode::Checked,
        PointerMode::Tainted => Mode::Tainted,
    }
}

fn kind_of(kind: PointerKind) -> Kind
    ensures { result ≡ kind_from kind }
{
    match kind {
        PointerKind::One => Kind::One,
        PointerKind::Array => Kind::Array,
        PointerKind::NullTerminated => Kind::Nt,
    }
}

/// A type where no stars stand behind it: stars make a raw pointer.
pub fn without_stars(base: &TypeForm, stars: usize, t: CType) -> Result<CType, CheckError>
    ensures { Answers ctype (starless (type_tree base.now) stars (ctype t)) result }
{
    needs(stars == 0, Code::E15, base.span())?;
    Ok(t)
}

/// A type that is written without stars behind it. A null-terminated pointer leads only to numbers: E13 at the pointer.
pub fn base_type(context: &Context, scope: &Scope, base: &TypeForm) -> Result<CType, CheckError>
    ensures { Answers ctype (base_from (scope_of scope.now) (type_tree base.now)) result }
{
    match base {
        TypeForm::Int { .. } => Ok(CType::Int),
        TypeForm::Char { .. } => Ok(CType::Char),
        TypeForm::Struct { tag, .. } => {
            let number = meant(scope.struct_number(tag.number))?;
            Ok(CType::Struct(number))
        }
        TypeForm::Pointer {
            word,
            element,
            stars,
            span,
        } => {
            let target = base_type(context, scope, element)?;
            let target = without_stars(element, *stars, target)?;
            let kind = kind_of(word.kind);
            needs(may_lead_to(kind, &target), Code::E13, *span)?;
            let target = context.boxed(target)?;
            Ok(CType::Pointer(mode_of(word.mode), kind, target))
        }
    }
}

/// A type with the stars behind it.
pub fn starred_type(
    context: &Context,
    scope: &Scope,
    base: &TypeForm,
    stars: usize,
) -> Result<CType, CheckError>
    ensures { Answers ctype (starred_from (scope_of scope.now) (type_tree base.now) stars) result }
{
    let written = base_type(context, scope, base)?;
    without_stars(base, stars, written)
}

/// A type as it is written.
pub fn type_named(context: &Context, scope: &Scope, t: &TypeName) -> Result<CType, CheckError>
    ensures { Answers ctype (named_from (scope_of scope.now) (type_name t.now)) result }
{
    starred_type(context, scope, &t.base, t.stars)
}
