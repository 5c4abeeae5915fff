// Bounds as they are written for a local, and their normal form.

ghost use Rattle.std.specs.Prelude.{◌≡◌, ◌&&◌, nat_lt, Some, length, IfOk};
ghost use Rattle.std.specs.Option.{option_map};
ghost use Rattle.ckc_text.specs.declared.code.Code.TheVariants.{E16};
ghost use Rattle.ckc_tree.specs.Expressions.{bounds as bounds_tree};
ghost use Rattle.bounds_exprs.specs.Normal.{how as how_of};
ghost use Rattle.pointer_modes.specs.Types.{ctype as ctype_of};
ghost use Rattle.bounds_flow.specs.Conditions.{AreBoundsBelow};
ghost use Rattle.region_typing_rules.specs.Types.{is_row as row_type};
ghost use Rattle.region_typing_rules.specs.Verdicts.{needs as needs_in};
ghost use Rattle.region_typing_rules.specs.DeclaredBounds.{how_written, normal_bounds as normal_bounds_of, unwritten_bounds as unwritten_bounds_of, declared_bounds as declared_bounds_of};
ghost use Rattle.region_typing_scope.specs.Answering.{Answers};
ghost use Rattle.region_typing_scope.specs.Views.{scope as scope_of};
ghost use Rattle.region_typing_scope.specs.DeclaredViews.{bounded as bounded_view, place as place_view};

use crate::bounds::row_of;
use crate::context::Context;
use crate::names::Bounded;
use crate::place::Place;
use crate::refusals::{CheckError, needs};
use crate::scope::Scope;
use crate::sums::sum_form;
use crate::types::is_number;
use bounds_exprs::form::{BoundsForm, BoundsHow};
use bounds_exprs::normalize::normal;
use bounds_exprs::term::Bounds;
use ckc_text::code::Code;
use ckc_tree::expr::BoundsText;
use pointer_modes::ctype::{CType, Kind};

// What is written for bounds of a pointer.
fn how_form(
    context: &Context,
    place: &Place,
    p: &Bounded,
    written: &BoundsText,
) -> Result<BoundsHow, CheckError>
    ensures { Answers how_of (how_written (place_view place.now) (bounded_view p.now) (bounds_tree written.now)) result }
{
    match written {
        BoundsText::Count { count, .. } => {
            let elements = sum_form(context, place, p, count)?;
            Ok(BoundsHow::Count(elements))
        }
        BoundsText::ByteCount { count, .. } => {
            let bytes = sum_form(context, place, p, count)?;
            Ok(BoundsHow::ByteCount(bytes))
        }
        BoundsText::Unknown { .. } => Ok(BoundsHow::Unknown),
        BoundsText::Range { low, high, .. } => {
            let low = sum_form(context, place, p, low)?;
            let high = sum_form(context, place, p, high)?;
            Ok(BoundsHow::Pair(low, high))
        }
    }
}

// The normal bounds of what is written, of elements of so many bytes.
fn normal_bounds(form: &BoundsForm, size: u32) -> Result<Option<Bounds>, CheckError>
    ensures { Answers (λ b. b) (normal_bounds_of (how_of form.now.how) size form.now.span) result }
{
    match normal(form, size) {
        Ok(bounds) => Ok(bounds),
        Err(fault) => Err(CheckError::Source(fault)),
    }
}

// Whether a type is that of pointers to arrays, or of null-terminated ones.
fn is_row(t: &CType) -> bool
    ensures { result ≡ row_type (ctype_of t.now) }
{
    match t {
        CType::Pointer(_, kind, _) => matches!(kind, Kind::Array | Kind::Nt),
        CType::Int | CType::Char | CType::Struct(_) => false,
    }
}

// The normal bounds of what is written for a local of a type, which has to be a pointer to elements with bytes.
fn row_bounds(t: &CType, form: &BoundsForm, size: u32) -> Result<Option<Bounds>, CheckError>
    ensures { Answers (λ b. b) (needs_in (row_type (ctype_of t.now) && nat_lt 0 size) E16 form.now.span
        (normal_bounds_of (how_of form.now.how) size form.now.span)) result }
{
    needs(is_row(t) && 0 < size, Code::E16, form.span)?;
    normal_bounds(form, size)
}

/// The bounds that a pointer of a type has where none are written: the end of a null-terminated one may be where it stands.
pub fn unwritten_bounds(t: &CType) -> Option<Bounds>
    ensures { result ≡ unwritten_bounds_of (ctype_of t.now) }
{
    match t {
        CType::Pointer(_, Kind::Nt, target) => {
            if is_number(target) {
                Some(row_of(0))
            } else {
                None
            }
        }
        _ => None,
    }
}

// The bounds that are written for a local of a type.
fn written_bounds(
    context: &Context,
    place: &Place,
    t: &CType,
    own: u32,
    written: &BoundsText,
) -> Result<Option<Bounds>, CheckError>
    ensures { Answers (λ b. b) (declared_bounds_of (place_view place.now) (ctype_of t.now) own (Some (bounds_tree written.now))) result }
{
    let p = Bounded::new(own, t);
    let form = BoundsForm {
        span: written.span(),
        how: how_form(context, place, &p, written)?,
    };
    row_bounds(t, &form, place.scope.structs.size_of(p.element))
}

/// The bounds that are declared for a local of a type, by its number, where the names in them are looked up in a place: where
/// none are written those that the type has without, and none where unknown ones are.
///
/// # Errors
///
/// What a type under `sizeof` breaks, and E13 at strings, from left to right; then E16 at the
/// bounds where the local is no pointer to an array and no null-terminated one, or one to elements without bytes, and where they have no normal form.
pub fn bounds_at(
    context: &Context,
    place: &Place,
    t: &CType,
    own: u32,
    written: &Option<BoundsText>,
) -> Result<Option<Bounds>, CheckError>
    ensures known { Answers (λ b. b) (declared_bounds_of (place_view place.now) (ctype_of t.now) own (option_map bounds_tree written.now)) result }
    ensures below { IfOk result (AreBoundsBelow (length place.now.locals.now)) }
{
    match written {
        None => Ok(unwritten_bounds(t)),
        Some(bounds) => written_bounds(context, place, t, own, bounds),
    }
}

/// The bounds that are declared for a local of a type, by its number, where the local is visible: as in a place with the
/// locals of the function that is walked.
///
/// # Errors
///
/// Those of `bounds_at`.
pub fn declared_bounds(
    context: &Context,
    scope: &Scope,
    t: &CType,
    own: u32,
    written: &Option<BoundsText>,
) -> Result<Option<Bounds>, CheckError>
    ensures known { Answers (λ b. b) (declared_bounds_of (scope_of scope.now) (ctype_of t.now) own (option_map bounds_tree written.now)) result }
    ensures below { IfOk result (AreBoundsBelow scope.now.flow.vars) }
{
    let place = Place {
        scope,
        locals: scope.locals.as_slice(),
        visible: scope.visible.as_slice(),
    };
    bounds_at(context, &place, t, own, written)
}

/// The bounds that are written in a cast to a type, which have no name for what it gives.
///
/// # Errors
///
/// Those of `bounds_at`.
pub fn unnamed_bounds(
    context: &Context,
    scope: &Scope,
    t: &CType,
    written: &BoundsText,
) -> Result<Option<Bounds>, CheckError>
    ensures { Answers (λ b. b) (declared_bounds_of (scope_of scope.now) (ctype_of t.now) (length (scope_of scope.now).locals)
        (Some (bounds_tree written.now))) result }
{
    let place = Place {
        scope,
        locals: scope.locals.as_slice(),
        visible: scope.visible.as_slice(),
    };
    let own = scope.locals.len() as u32;
    written_bounds(context, &place, t, own, written)
}
