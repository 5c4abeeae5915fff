// Casts.

ghost use Rattle.std.specs.Prelude.{◌≡◌, ◌&&◌, is_some};
ghost use Rattle.ckc_text.specs.Places.{place_at};
ghost use Rattle.pointer_modes.specs.Types.{ctype as ctype_of};
ghost use Rattle.ckc_tree.specs.Expressions.{bounds as bounds_tree};
ghost use Rattle.ckc_core.specs.Core.{expression};
ghost use Rattle.ckc_core.specs.Meaning.{bounds_of as bounds_at_node};
ghost use Rattle.region_typing_rules.specs.Scopes.{bounds_in as written_in};
ghost use Rattle.region_typing_rules.specs.Operands.{site_at};
ghost use Rattle.region_typing_rules.specs.NewMemory.{casts_to as casts_to_type, takes as takes_bounds, has_base as has_base_of, base_in as base_of, cast_checked as cast_checked_as, cast_typed, cast_bounds as cast_bounds_of};
ghost use Rattle.region_typing_scope.specs.Answering.{Answers};
ghost use Rattle.region_typing_scope.specs.OnHeap.{typed};
ghost use Rattle.region_typing_scope.specs.Points.{point as point_of};
ghost use Rattle.region_typing_scope.specs.Views.{scope as scope_of};

use crate::calls::call_bounds;
use crate::operand_tests::is_row;
use bounds_exprs::term::Bounds;
use ckc_core::program::Expr;
use ckc_text::code::Code;
use ckc_text::place::Span;
use ckc_tree::expr::{BoundsText, CastWord};
use pointer_modes::ctype::{CType, Mode};
use pointer_modes::structs::Structs;
use region_typing_flow::readings::{based_bounds, bounds_of};
use region_typing_scope::context::Context;
use region_typing_scope::declared::unnamed_bounds;
use region_typing_scope::operands::{Operand, value_of};
use region_typing_scope::point::Point;
use region_typing_scope::refusals::{CheckError, needs, refusal};
use region_typing_scope::scope::Scope;
use region_typing_scope::typed::{Typed, plain};
use region_typing_scope::types::pointer_converts;

// Whether a pointer becomes a checked one of a type: of the same element, which has bytes, as its kind converts.
fn casts_to(structs: &Structs, from: &CType, to: &CType) -> bool
    ensures { result ≡ casts_to_type structs.now (ctype_of from.now) (ctype_of to.now) }
{
    match to {
        CType::Pointer(Mode::Checked, kind, target) => {
            pointer_converts(from, *kind, to) && 0 < structs.size_of(target)
        }
        CType::Pointer(Mode::Tainted | Mode::Raw, _, _)
        | CType::Int
        | CType::Char
        | CType::Struct(_) => false,
    }
}

// Whether bounds are written exactly where a type has them at its nodes.
fn takes(to: &CType, written: Option<Option<Bounds>>) -> bool
    ensures { result ≡ takes_bounds (ctype_of to.now) written }
{
    match written {
        None => !is_row(to),
        Some(_) => is_row(to),
    }
}

// The bounds that are written.
fn bounds_in(written: Option<Option<Bounds>>) -> Option<Bounds>
    ensures { result ≡ written_in written }
{
    match written {
        None => None,
        Some(bounds) => bounds,
    }
}

// The base of bounds, where there is one.
fn base_in(bounds: Option<Bounds>) -> Option<u32>
    ensures { result ≡ base_of bounds }
{
    match bounds {
        None => None,
        Some(bounds) => bounds.base,
    }
}

// Whether a pointer has bounds with a base, where there is one.
fn has_base(base: Option<u32>, value: &Expr) -> bool
    ensures { result ≡ has_base_of base (expression value.now) }
{
    match base {
        None => true,
        Some(_) => match based_bounds(value) {
            None => false,
            Some(bounds) => bounds.base == base,
        },
    }
}

// Whether a pointer becomes one of a type by what is written for its bounds.
fn is_like(structs: &Structs, from: &CType, to: &CType, written: Option<Option<Bounds>>) -> bool
    ensures { result ≡ (casts_to_type structs.now (ctype_of from.now) (ctype_of to.now) && takes_bounds (ctype_of to.now) written) }
{
    casts_to(structs, from, to) && takes(to, written)
}

// Whether a pointer has bounds, and some with the base of those that are written.
fn is_bounded(value: &Expr, bounds: Option<Bounds>) -> bool
    ensures { result ≡ (is_some (bounds_at_node (expression value.now)) && has_base_of (base_of bounds) (expression value.now)) }
{
    bounds_of(value).is_some() && has_base(base_in(bounds), value)
}

// A cast that a run tests.
fn cast_checked(
    context: &Context,
    scope: &Scope,
    to: CType,
    t: Box<Typed>,
    written: Option<Option<Bounds>>,
    span: Span,
) -> Result<Box<Typed>, CheckError>
    ensures { Answers typed (cast_checked_as (scope_of scope.now) (ctype_of to) (typed t) written (site_at (place_at context.now) span) span) result }
{
    let Operand {
        ctype,
        zero: _,
        value: pointer,
    } = value_of(context, t, span)?;
    needs(
        is_like(&scope.structs, &ctype, &to, written),
        Code::E13,
        span,
    )?;
    let bounds = bounds_in(written);
    needs(is_bounded(&pointer, bounds), Code::E18, span)?;
    let bounds = call_bounds(&scope.structs, &to, bounds, context.site(span));
    Ok(plain(context, to, Expr::Cast { pointer, bounds })?)
}

/// A cast to a type, with what is written for its bounds.
pub fn cast(
    context: &Context,
    scope: &Scope,
    word: CastWord,
    to: CType,
    t: Box<Typed>,
    written: Option<Option<Bounds>>,
    span: Span,
) -> Result<Box<Typed>, CheckError>
    ensures { Answers typed (cast_typed word (scope_of scope.now) (ctype_of to) (typed t) written (site_at (place_at context.now) span) span) result }
{
    match word {
        CastWord::Dynamic => cast_checked(context, scope, to, t, written, span),
        CastWord::Assume => Err(refusal(Code::E15, span)),
    }
}

// The bounds that are written in a cast to a type, by what its names stand for.
fn bounds_written(
    context: &Context,
    scope: &Scope,
    to: &CType,
    written: &BoundsText,
) -> Result<Option<Option<Bounds>>, CheckError>
    ensures { Answers (λ b. b) (cast_bounds_of (scope_of scope.now) (ctype_of to.now) (bounds_tree written.now)) result }
{
    let bounds = unnamed_bounds(context, scope, to, written)?;
    Ok(Some(bounds))
}

/// The bounds that are written in a cast to a type.
pub fn cast_bounds(
    context: &Context,
    point: &Point<'_>,
    to: &CType,
    written: &BoundsText,
) -> Result<Option<Option<Bounds>>, CheckError>
    ensures { Answers (λ b. b) (cast_bounds_of (point_of point.now) (ctype_of to.now) (bounds_tree written.now)) result }
{
    bounds_written(context, point.scope, to, written)
}
