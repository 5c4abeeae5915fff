// The walk over what is written in bounds.

ghost use Rattle.std.specs.Prelude.{◌≡◌, IfOk};
ghost use Rattle.ckc_text.specs.declared.place.Span.{Span};
ghost use Rattle.ckc_tree.specs.Types.{type_name as type_name_of};
ghost use Rattle.ckc_tree.specs.Expressions.{expression as expression_of, bounds as bounds_tree, SizeOf};
ghost use Rattle.ckc_tree.specs.Walks.{expression_list};
ghost use Rattle.bounds_exprs.specs.Sums.{Other, sum};
ghost use Rattle.region_typing_rules.specs.Verdicts.{Passes, passing};
ghost use Rattle.region_typing_rules.specs.DeclaredBounds.{operation_sum, sum_written, all_written, parts_written};
ghost use Rattle.region_typing_scope.specs.Answering.{Answers};
ghost use Rattle.region_typing_scope.specs.DeclaredViews.{bounded as bounded_view, place as place_view};

use crate::context::Context;
use crate::names::{Bounded, name_form};
use crate::place::Place;
use crate::refusals::CheckError;
use crate::types::{same_type, type_named};
use bounds_exprs::form::SumForm;
use ckc_text::fault::NoMemory;
use ckc_tree::expr::{BinaryOperator, BoundsText, Expr};
use ckc_tree::type_form::TypeName;

// Two operands on the heap.
fn both_boxed(
    context: &Context,
    left: SumForm,
    right: SumForm,
) -> Result<(Box<SumForm>, Box<SumForm>), NoMemory>
    ensures { IfOk result (λ both. (both.0.value ≡ left) × (both.1.value ≡ right)) }
{
    let left = context.boxed(left)?;
    let right = context.boxed(right)?;
    Ok((left, right))
}

// An operator between two operands, of which only sums, differences and products count.
fn operation_form(
    context: &Context,
    operator: BinaryOperator,
    left: SumForm,
    right: SumForm,
) -> Result<SumForm, NoMemory>
    ensures { IfOk result (λ s. sum s ≡ operation_sum operator (sum left) (sum right)) }
{
    match operator {
        BinaryOperator::Add => {
            let (left, right) = both_boxed(context, left, right)?;
            Ok(SumForm::Plus(left, right))
        }
        BinaryOperator::Subtract => {
            let (left, right) = both_boxed(context, left, right)?;
            Ok(SumForm::Minus(left, right))
        }
        BinaryOperator::Multiply => {
            let (left, right) = both_boxed(context, left, right)?;
            Ok(SumForm::Times(left, right))
        }
        BinaryOperator::Or
        | BinaryOperator::And
        | BinaryOperator::BitOr
        | BinaryOperator::BitXor
        | BinaryOperator::BitAnd
        | BinaryOperator::Equal
        | BinaryOperator::NotEqual
        | BinaryOperator::Less
        | BinaryOperator::LessEqual
        | BinaryOperator::Greater
        | BinaryOperator::GreaterEqual
        | BinaryOperator::ShiftLeft
        | BinaryOperator::ShiftRight
        | BinaryOperator::Divide
        | BinaryOperator::Remainder => Ok(SumForm::Other),
    }
}

// The bytes of a type.
fn size_form(
    context: &Context,
    place: &Place,
    p: &Bounded,
    t: &TypeName,
) -> Result<SumForm, CheckError>
    ensures { (span : Span) → Answers sum (sum_written (place_view place.now) (bounded_view p.now) (SizeOf (type_name_of t.now) span)) result }
{
    let named = type_named(context, place.scope, t)?;
    Ok(SumForm::Size {
        bytes: place.scope.structs.size_of(&named),
        element: same_type(p.element, &named),
    })
}

/// An expression in bounds for a pointer.
#[cycle(sums)]
pub fn sum_form(
    context: &Context,
    place: &Place,
    p: &Bounded,
    e: &Expr,
) -> Result<SumForm, CheckError>
    ensures { Answers sum (sum_written (place_view place.now) (bounded_view p.now) (expression_of e.now)) result }
{
    match e {
        Expr::Number { value, .. } => Ok(SumForm::Number(*value as i64)),
        Expr::Character { value, .. } => Ok(SumForm::Number(*value as i64)),
        Expr::Text { .. } => Ok(SumForm::Other),
        Expr::Name { name } => Ok(name_form(place, p, name.number)),
        Expr::Call { arguments, .. } => all_forms(context, place, p, arguments.as_slice()),
        Expr::SizeOf { type_name, .. } => size_form(context, place, p, type_name),
        Expr::Cast {
            operand,
            bounds,
            ..
        } => match bounds {
            None => other_form(context, place, p, operand),
            Some(bounds) => bounded_form(context, place, p, operand, bounds),
        },
        Expr::Malloc { size, .. } => other_form(context, place, p, size),
        Expr::Calloc { count, size, .. } => both_form(context, place, p, count, size),
        Expr::Index { base, index, .. } => both_form(context, place, p, base, index),
        Expr::Dot { base, .. } | Expr::Arrow { base, .. } => other_form(context, place, p, base),
        Expr::Unary { operand, .. } => other_form(context, place, p, operand),
        Expr::Binary {
            operator,
            left,
            right,
            ..
        } => binary_form(context, place, p, *operator, left, right),
    }
}

// An operator between two parts.
#[cycle(sums)]
fn binary_form(
    context: &Context,
    place: &Place,
    p: &Bounded,
    operator: BinaryOperator,
    left: &Expr,
    right: &Expr,
) -> Result<SumForm, CheckError>
    ensures { Answers sum (passing (sum_written (place_view place.now) (bounded_view p.now) (expression_of left.now))
        (λ a. passing (sum_written (place_view place.now) (bounded_view p.now) (expression_of right.now))
        (λ b. Passes (operation_sum operator a b)))) result }
{
    let left = sum_form(context, place, p, left)?;
    let right = sum_form(context, place, p, right)?;
    Ok(operation_form(context, operator, left, right)?)
}

// What has no place in bounds, whose part keeps the rules.
#[cycle(sums)]
fn other_form(
    context: &Context,
    place: &Place,
    p: &Bounded,
    part: &Expr,
) -> Result<SumForm, CheckError>
    ensures { Answers sum (passing (sum_written (place_view place.now) (bounded_view p.now) (expression_of part.now)) (λ _. Passes Other)) result }
{
    let _part = sum_form(context, place, p, part)?;
    Ok(SumForm::Other)
}

// What has no place in bounds, whose two parts keep the rules.
#[cycle(sums)]
fn both_form(
    context: &Context,
    place: &Place,
    p: &Bounded,
    first: &Expr,
    second: &Expr,
) -> Result<SumForm, CheckError>
    ensures { Answers sum (passing (sum_written (place_view place.now) (bounded_view p.now) (expression_of first.now))
        (λ _. passing (sum_written (place_view place.now) (bounded_view p.now) (expression_of second.now)) (λ _. Passes Other))) result }
{
    let _first = sum_form(context, place, p, first)?;
    other_form(context, place, p, second)
}

// The arguments of a call, from left to right.
#[cycle(sums)]
fn all_forms(
    context: &Context,
    place: &Place,
    p: &Bounded,
    arguments: &[Expr],
) -> Result<SumForm, CheckError>
    ensures { Answers sum (all_written (place_view place.now) (bounded_view p.now) (expression_list arguments.now)) result }
{
    for argument in arguments {
        let _argument = sum_form(context, place, p, argument)?;
    }
    Ok(SumForm::Other)
}

// A cast with bounds, which has no place in bounds.
#[cycle(sums)]
fn bounded_form(
    context: &Context,
    place: &Place,
    p: &Bounded,
    operand: &Expr,
    bounds: &BoundsText,
) -> Result<SumForm, CheckError>
    ensures { Answers sum (passing (sum_written (place_view place.now) (bounded_view p.now) (expression_of operand.now))
        (λ _. parts_written (place_view place.now) (bounded_view p.now) (bounds_tree bounds.now))) result }
{
    let _operand = sum_form(context, place, p, operand)?;
    parts_form(context, place, p, bounds)
}

// The bounds of a cast, which has no place in bounds.
#[cycle(sums)]
fn parts_form(
    context: &Context,
    place: &Place,
    p: &Bounded,
    written: &BoundsText,
) -> Result<SumForm, CheckError>
    ensures { Answers sum (parts_written (place_view place.now) (bounded_view p.now) (bounds_tree written.now)) result }
{
    match written {
        BoundsText::Count { count, .. } | BoundsText::ByteCount { count, .. } => {
            other_form(context, place, p, count)
        }
        BoundsText::Unknown { .. } => Ok(SumForm::Other),
        BoundsText::Range { low, high, .. } => both_form(context, place, p, low, high),
    }
}
