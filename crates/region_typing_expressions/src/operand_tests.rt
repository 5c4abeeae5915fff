// Tests of what operands are.

ghost use Rattle.std.specs.Prelude.{◌≡◌, ◌&&◌};
ghost use Rattle.pointer_modes.specs.Types.{ctype as ctype_of};
ghost use Rattle.ckc_core.specs.Core.{expression, place as place_of};
ghost use Rattle.region_typing_rules.specs.Verdicts.{Passes};
ghost use Rattle.region_typing_rules.specs.Types.{is_single as single_type, is_row as row_type};
ghost use Rattle.region_typing_rules.specs.Operands.{have_one_base as one_base, is_ended_element as ended_element, is_single_value as single_value, lacks_bounds as lacking_bounds, without_ptr as without_ptr_in};
ghost use Rattle.region_typing_scope.specs.Answering.{Answers};
ghost use Rattle.region_typing_scope.specs.Typed.{typed};
ghost use Rattle.region_typing_expressions.specs.Comparing.{is_number_value as number_value_of, is_pointer_value as pointer_value_of, is_comparable_value, are_comparable_values as comparable_values, is_row_value as row_value, are_related_values as related_values, is_ended_place as ended_place, is_ended_value as ended_value, is_zero_test as zero_test_of};

use bounds_exprs::term::Bounds;
use ckc_core::program::{CellPlace, Expr, Index};
use ckc_text::code::Code;
use ckc_text::place::Span;
use pointer_modes::ctype::{CType, Kind};
use region_typing_flow::readings::bounds_of;
use region_typing_scope::entailment::based;
use region_typing_scope::refusals::{CheckError, needs};
use region_typing_scope::typed::{Typed, is_zero};
use region_typing_scope::types::{are_comparable, is_number, is_pointer};

/// Whether an expression is a pointer.
pub fn is_pointer_value(t: &Typed) -> bool
    ensures { result ≡ pointer_value_of (typed t.now) }
{
    match t {
        Typed::Value { ctype, .. } => is_pointer(ctype),
        Typed::Local { ctype, .. } => is_pointer(ctype),
        Typed::Cell { ctype, .. } => is_pointer(ctype),
        Typed::Bounded { ctype, .. } => is_pointer(ctype),
        Typed::Unknown { ctype, .. } => is_pointer(ctype),
        Typed::Array { ctype, .. } => is_pointer(ctype),
        Typed::Struct { .. } => false,
    }
}

/// Whether a type is that of pointers without bounds of their own.
pub fn is_single(t: &CType) -> bool
    ensures { result ≡ single_type (ctype_of t.now) }
{
    match t {
        CType::Pointer(_, kind, _) => match kind {
            Kind::One => true,
            Kind::Array | Kind::Nt => false,
        },
        CType::Int | CType::Char | CType::Struct(_) => false,
    }
}

/// Whether a type is that of pointers that have their bounds at their nodes.
pub fn is_row(t: &CType) -> bool
    ensures { result ≡ row_type (ctype_of t.now) }
{
    match t {
        CType::Pointer(_, kind, _) => match kind {
            Kind::Array | Kind::Nt => true,
            Kind::One => false,
        },
        CType::Int | CType::Char | CType::Struct(_) => false,
    }
}

/// Whether an expression is a pointer without bounds of its own.
pub fn is_single_value(t: &Typed) -> bool
    ensures { result ≡ single_value (typed t.now) }
{
    match t {
        Typed::Value { ctype, .. } => is_single(ctype),
        Typed::Local { ctype, .. } => is_single(ctype),
        Typed::Cell { ctype, .. } => is_single(ctype),
        Typed::Bounded { ctype, .. } => is_single(ctype),
        Typed::Unknown { ctype, .. } => is_single(ctype),
        Typed::Array { ctype, .. } => is_single(ctype),
        Typed::Struct { .. } => false,
    }
}

/// Whether an expression is a pointer whose bounds are unknown.
pub fn lacks_bounds(t: &Typed) -> bool
    ensures { result ≡ lacking_bounds (typed t.now) }
{
    match t {
        Typed::Value { ctype, value, .. } => is_row(ctype) && bounds_of(value).is_none(),
        Typed::Local { ctype, bounds, .. } => is_row(ctype) && bounds.is_none(),
        Typed::Cell { ctype, bounds, .. } => is_row(ctype) && bounds.is_none(),
        Typed::Bounded { ctype, bounds, .. } => is_row(ctype) && bounds.is_none(),
        Typed::Unknown { ctype, bounds, .. } => is_row(ctype) && bounds.is_none(),
        Typed::Array { ctype, bounds, .. } => is_row(ctype) && bounds.is_none(),
        Typed::Struct { .. } => false,
    }
}

/// Refuses operands of a sum: pointers without bounds of their own, and those whose bounds are unknown.
pub fn without_ptr(left: &Typed, right: &Typed, span: Span) -> Result<(), CheckError>
    ensures { Answers (λ x. x) (without_ptr_in (typed left.now) (typed right.now) span (Passes tt)) result }
{
    let single = is_single_value(left) || is_single_value(right);
    needs(!single, Code::E19, span)?;
    let unbounded = lacks_bounds(left) || lacks_bounds(right);
    needs(!unbounded, Code::E18, span)
}

/// Whether an expression is a number.
pub fn is_number_value(t: &Typed) -> bool
    ensures { result ≡ number_value_of (typed t.now) }
{
    match t {
        Typed::Value { ctype, .. } => is_number(ctype),
        Typed::Local { ctype, .. } => is_number(ctype),
        Typed::Cell { ctype, .. } => is_number(ctype),
        Typed::Bounded { ctype, .. } => is_number(ctype),
        Typed::Unknown { ctype, .. } => is_number(ctype),
        Typed::Array { ctype, .. } => is_number(ctype),
        Typed::Struct { .. } => false,
    }
}

/// Whether the one expression is a pointer, and the other a number.
pub fn are_indexed(left: &Typed, right: &Typed) -> bool
    ensures { result ≡ (pointer_value_of (typed left.now) && number_value_of (typed right.now)) }
{
    is_pointer_value(left) && is_number_value(right)
}

// Whether an expression is a pointer that compares with those of a type.
fn is_comparable(a: &CType, right: &Typed) -> bool
    ensures { result ≡ is_comparable_value (ctype_of a.now) (typed right.now) }
{
    match right {
        Typed::Value { ctype, .. } => are_comparable(a, ctype),
        Typed::Local { ctype, .. } => are_comparable(a, ctype),
        Typed::Cell { ctype, .. } => are_comparable(a, ctype),
        Typed::Bounded { ctype, .. } => are_comparable(a, ctype),
        Typed::Unknown { ctype, .. } => are_comparable(a, ctype),
        Typed::Array { ctype, .. } => are_comparable(a, ctype),
        Typed::Struct { .. } => false,
    }
}

/// Whether two expressions are pointers of one mode and element.
pub fn are_comparable_values(left: &Typed, right: &Typed) -> bool
    ensures { result ≡ comparable_values (typed left.now) (typed right.now) }
{
    match left {
        Typed::Value { ctype, .. } => is_comparable(ctype, right),
        Typed::Local { ctype, .. } => is_comparable(ctype, right),
        Typed::Cell { ctype, .. } => is_comparable(ctype, right),
        Typed::Bounded { ctype, .. } => is_comparable(ctype, right),
        Typed::Unknown { ctype, .. } => is_comparable(ctype, right),
        Typed::Array { ctype, .. } => is_comparable(ctype, right),
        Typed::Struct { .. } => false,
    }
}

// Whether an expression is a pointer that has its bounds at its node.
fn is_row_value(t: &Typed) -> bool
    ensures { result ≡ row_value (typed t.now) }
{
    match t {
        Typed::Value { ctype, .. } => is_row(ctype),
        Typed::Local { ctype, .. } => is_row(ctype),
        Typed::Cell { ctype, .. } => is_row(ctype),
        Typed::Bounded { ctype, .. } => is_row(ctype),
        Typed::Unknown { ctype, .. } => is_row(ctype),
        Typed::Array { ctype, .. } => is_row(ctype),
        Typed::Struct { .. } => false,
    }
}

// Whether both bounds count from one base.
fn have_one_base(a: Option<Bounds>, b: Option<Bounds>) -> bool
    ensures { result ≡ one_base a b }
{
    match (a, b) {
        (Some(a), Some(b)) => a.base == b.base,
        _ => false,
    }
}

/// Whether two expressions are pointers with bounds that count from one base.
pub fn are_related_values(left: &Typed, right: &Typed) -> bool
    ensures { result ≡ related_values (typed left.now) (typed right.now) }
{
    is_row_value(left) && is_row_value(right) && have_one_base(based(left), based(right))
}

// Whether a place is an element, or the upper end, of what a null-terminated pointer leads to.
fn is_ended_place(place: &CellPlace) -> bool
    ensures { result ≡ ended_place (place_of place.now) }
{
    match place {
        CellPlace::Through {
            index: Index::Element { terminated, .. },
            ..
        } => *terminated,
        _ => false,
    }
}

// Whether a value is what stands there.
fn is_ended_element(value: &Expr) -> bool
    ensures { result ≡ ended_element (expression value.now) }
{
    match value {
        Expr::Load { cell, .. } => is_ended_place(cell),
        _ => false,
    }
}

// Whether an expression is what stands there.
fn is_ended_value(t: &Typed) -> bool
    ensures { result ≡ ended_value (typed t.now) }
{
    match t {
        Typed::Value { value, .. } => is_ended_element(value),
        Typed::Cell { place, .. } => is_ended_place(place),
        Typed::Local { .. }
        | Typed::Bounded { .. }
        | Typed::Unknown { .. }
        | Typed::Array { .. }
        | Typed::Struct { .. } => false,
    }
}

/// Whether the one expression is a number that stands there, and the other the constant 0.
pub fn is_zero_test(left: &Typed, right: &Typed) -> bool
    ensures { result ≡ zero_test_of (typed left.now) (typed right.now) }
{
    is_zero(right) && (is_number_value(left) && is_ended_value(left))
}
