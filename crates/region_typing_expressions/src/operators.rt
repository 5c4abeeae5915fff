// The rules of operators.

ghost use Rattle.std.specs.Prelude.{◌≡◌};
ghost use Rattle.ckc_text.specs.Places.{place_at};
ghost use Rattle.act_words.specs.declared.operator.Operator.TheVariants as operators;
ghost use Rattle.ckc_core.specs.Core.{expression, Not, Sum};
ghost use Rattle.region_typing_rules.specs.Verdicts.{passing};
ghost use Rattle.region_typing_rules.specs.Operands.{site_at, sum_node as sum_node_of, number as number_typed, unary_typed as unary_of, binary_typed as binary_of, two_numbers, two_scalars, arithmetic as arithmetic_of, operator_along as operator_in, summed as summed_in, sum_typed, equated as equated_in, ordered as ordered_in, zero_test};
ghost use Rattle.region_typing_scope.specs.Answering.{Answers};
ghost use Rattle.region_typing_scope.specs.OnHeap.{typed};
ghost use Rattle.region_typing_scope.specs.Operands.{and_also, or_else, operand as operand_view};
ghost use Rattle.region_typing_scope.specs.Views.{scope as scope_of};
ghost use Rattle.region_typing_expressions.specs.Comparing.{compared as comparison_of, ordered_pointers, related as related_in};
ghost use Rattle.region_typing_expressions.specs.Equality.{tested_equality as tested_in};
ghost use Rattle.region_typing_expressions.specs.Moves.{moved as moved_by};

use crate::equality::{equality_of, tested_by};
use crate::operand_tests::{
    are_comparable_values, are_related_values, is_pointer_value, is_zero_test, without_ptr,
};
use crate::places::{address, pointed_at};
use act_words::operator::ArithmeticOperator::{
    Add, Divide, Multiply, Remainder, ShiftLeft, ShiftRight, Subtract,
};
use act_words::operator::Comparison::{Greater, GreaterEqual, Less, LessEqual};
use act_words::operator::{ArithmeticOperator, BitwiseOperator, Comparison, Operator};
use ckc_core::program::{Direction, Expr, Site};
use ckc_text::code::Code;
use ckc_text::place::Span;
use ckc_tree::expr::{BinaryOperator, UnaryOperator};
use pointer_modes::ctype::CType;
use region_typing_scope::bounds::sum_node;
use region_typing_scope::context::Context;
use region_typing_scope::operands::{Operand, number, scalar, value_of};
use region_typing_scope::refusals::{CheckError, needs};
use region_typing_scope::scope::Scope;
use region_typing_scope::typed::{Typed, plain};

// A number.
fn numeric(context: &Context, value: Expr) -> Result<Box<Typed>, CheckError>
    ensures { Answers typed (number_typed (expression value)) result }
{
    Ok(plain(context, CType::Int, value)?)
}

/// An operator before its operand.
pub fn unary(
    context: &Context,
    operator: UnaryOperator,
    t: Box<Typed>,
    site: Site,
    span: Span,
) -> Result<Box<Typed>, CheckError>
    ensures { Answers typed (unary_of operator (typed t) site span) result }
{
    match operator {
        UnaryOperator::Deref => pointed_at(context, t, site, span),
        UnaryOperator::AddressOf => address(context, t, site, span),
        UnaryOperator::Negate => {
            let operand = number(context, t, span)?;
            numeric(context, Expr::Negate { operand, site })
        }
        UnaryOperator::Not => {
            let operand = scalar(context, t, span)?;
            numeric(context, Expr::Not(operand))
        }
        UnaryOperator::Complement => {
            let operand = number(context, t, span)?;
            numeric(context, Expr::Complement(operand))
        }
    }
}

// An operator on two numbers.
fn operated(
    context: &Context,
    operator: Operator,
    left: Box<Typed>,
    right: Box<Typed>,
    span: Span,
) -> Result<Box<Typed>, CheckError>
    ensures { Answers typed (two_numbers (typed left) (typed right) span (arithmetic_of operator (site_at (place_at context.now) span))) result }
{
    let left = number(context, left, span)?;
    let right = number(context, right, span)?;
    numeric(
        context,
        Expr::Arithmetic {
            operator,
            left,
            right,
            site: context.site(span),
        },
    )
}

// A bitwise operator.
fn bitwise(
    context: &Context,
    operator: BitwiseOperator,
    left: Box<Typed>,
    right: Box<Typed>,
    span: Span,
) -> Result<Box<Typed>, CheckError>
    ensures { Answers typed (two_numbers (typed left) (typed right) span
        (arithmetic_of (operators.Bitwise operator) (site_at (place_at context.now) span))) result }
{
    operated(context, Operator::Bitwise(operator), left, right, span)
}

// An arithmetic operator.
fn arithmetic(
    context: &Context,
    operator: ArithmeticOperator,
    left: Box<Typed>,
    right: Box<Typed>,
    span: Span,
) -> Result<Box<Typed>, CheckError>
    ensures { Answers typed (two_numbers (typed left) (typed right) span
        (arithmetic_of (operators.Arithmetic operator) (site_at (place_at context.now) span))) result }
{
    operated(context, Operator::Arithmetic(operator), left, right, span)
}

/// The operator that moves so.
pub fn operator_along(direction: Direction) -> Operator
    ensures { result ≡ operator_in direction }
{
    match direction {
        Direction::Forward => Operator::Arithmetic(Add),
        Direction::Backward => Operator::Arithmetic(Subtract),
    }
}

/// A pointer that is moved by a number, with the bounds that it has then.
pub fn pointer_sum(
    scope: &Scope,
    direction: Direction,
    pointer: Box<Expr>,
    number: Box<Expr>,
    site: Site,
) -> Expr
    ensures { expression result ≡ Sum (expression pointer.value) direction (expression number.value) site
        (sum_node_of (scope_of scope.now).locals direction (expression pointer.value) (expression number.value) site) }
{
    let bounds = sum_node(scope.locals.as_slice(), direction, &pointer, &number, site);
    Expr::Sum {
        pointer,
        direction,
        number,
        site,
        bounds,
    }
}

// A pointer that is moved by a number, as an expression.
fn moved(
    context: &Context,
    scope: &Scope,
    direction: Direction,
    left: Operand,
    right: Box<Typed>,
    span: Span,
) -> Result<Box<Typed>, CheckError>
    ensures { Answers typed (moved_by (scope_of scope.now) direction (operand_view left) (typed right) (site_at (place_at context.now) span) span) result }
{
    let Operand {
        ctype,
        zero: _,
        value: pointer,
    } = left;
    let number = number(context, right, span)?;
    let value = pointer_sum(scope, direction, pointer, number, context.site(span));
    Ok(plain(context, ctype, value)?)
}

// A sum or a difference, of two numbers or of a pointer and a number.
fn summed(
    context: &Context,
    scope: &Scope,
    direction: Direction,
    left: Box<Typed>,
    right: Box<Typed>,
    span: Span,
) -> Result<Box<Typed>, CheckError>
    ensures { Answers typed (summed_in (scope_of scope.now) direction (typed left) (typed right) (site_at (place_at context.now) span) span) result }
{
    if is_pointer_value(&left) {
        let left = value_of(context, left, span)?;
        moved(context, scope, direction, left, right, span)
    } else {
        operated(context, operator_along(direction), left, right, span)
    }
}

// A sum or a difference.
fn sum(
    context: &Context,
    scope: &Scope,
    direction: Direction,
    left: Box<Typed>,
    right: Box<Typed>,
    span: Span,
) -> Result<Box<Typed>, CheckError>
    ensures { Answers typed (sum_typed (scope_of scope.now) direction (typed left) (typed right) (site_at (place_at context.now) span) span) result }
{
    without_ptr(&left, &right, span)?;
    summed(context, scope, direction, left, right, span)
}

// The first one and the second one.
fn conjunction(
    context: &Context,
    left: Box<Typed>,
    right: Box<Typed>,
    span: Span,
) -> Result<Box<Typed>, CheckError>
    ensures { Answers typed (two_scalars (typed left) (typed right) span and_also) result }
{
    let left = scalar(context, left, span)?;
    let right = scalar(context, right, span)?;
    numeric(context, Expr::AndAlso { left, right })
}

// The first one or the second one.
fn disjunction(
    context: &Context,
    left: Box<Typed>,
    right: Box<Typed>,
    span: Span,
) -> Result<Box<Typed>, CheckError>
    ensures { Answers typed (two_scalars (typed left) (typed right) span or_else) result }
{
    let left = scalar(context, left, span)?;
    let right = scalar(context, right, span)?;
    numeric(context, Expr::OrElse { left, right })
}

// Whether two expressions are equal, where an element of a null-terminated pointer may be compared with the constant 0.
fn tested(
    context: &Context,
    tests_zero: bool,
    left: Box<Typed>,
    right: Box<Typed>,
    span: Span,
) -> Result<Expr, CheckError>
    ensures { Answers expression (tested_in tests_zero (typed left) (typed right) span) result }
{
    let how = equality_of(&left, &right, span)?;
    let left = scalar(context, left, span)?;
    let right = scalar(context, right, span)?;
    Ok(tested_by(context, tests_zero, how, left, right)?)
}

// Whether two expressions are equal, as a number.
fn equal(
    context: &Context,
    left: Box<Typed>,
    right: Box<Typed>,
    span: Span,
) -> Result<Box<Typed>, CheckError>
    ensures { Answers typed (passing (equated_in (typed left) (typed right) span) number_typed) result }
{
    let value = tested(context, false, left, right, span)?;
    numeric(context, value)
}

// Whether two expressions differ, as a number: of an element of a null-terminated pointer that is compared with the constant 0
// whether it isn't the zero.
fn different(
    context: &Context,
    left: Box<Typed>,
    right: Box<Typed>,
    span: Span,
) -> Result<Box<Typed>, CheckError>
    ensures { Answers typed (passing (equated_in (typed left) (typed right) span) (λ v. number_typed (Not (zero_test (typed left) (typed right) v)))) result }
{
    let tests_zero = is_zero_test(&left, &right);
    let equal = tested(context, tests_zero, left, right, span)?;
    let equal = context.boxed(equal)?;
    numeric(context, Expr::Not(equal))
}

// The order of two pointers.
fn ordered_pair(
    context: &Context,
    comparison: Comparison,
    left: Box<Typed>,
    right: Box<Typed>,
    span: Span,
) -> Result<Box<Typed>, CheckError>
    ensures { Answers typed (two_scalars (typed left) (typed right) span (ordered_pointers comparison (site_at (place_at context.now) span))) result }
{
    let left = scalar(context, left, span)?;
    let right = scalar(context, right, span)?;
    numeric(
        context,
        Expr::Order {
            comparison,
            left,
            right,
            site: context.site(span),
        },
    )
}

// The order of two pointers of one mode and element, which need bounds that count from one base.
fn related(
    context: &Context,
    comparison: Comparison,
    left: Box<Typed>,
    right: Box<Typed>,
    span: Span,
) -> Result<Box<Typed>, CheckError>
    ensures { Answers typed (related_in comparison (typed left) (typed right) (site_at (place_at context.now) span) span) result }
{
    needs(are_related_values(&left, &right), Code::E26, span)?;
    ordered_pair(context, comparison, left, right, span)
}

// How two expressions compare.
fn ordered(
    context: &Context,
    comparison: Comparison,
    left: Box<Typed>,
    right: Box<Typed>,
    span: Span,
) -> Result<Box<Typed>, CheckError>
    ensures { Answers typed (ordered_in comparison (typed left) (typed right) (site_at (place_at context.now) span) span) result }
{
    if are_comparable_values(&left, &right) {
        related(context, comparison, left, right, span)
    } else {
        compared(context, comparison, left, right, span)
    }
}

// How two numbers compare.
fn compared(
    context: &Context,
    comparison: Comparison,
    left: Box<Typed>,
    right: Box<Typed>,
    span: Span,
) -> Result<Box<Typed>, CheckError>
    ensures { Answers typed (two_numbers (typed left) (typed right) span (comparison_of comparison)) result }
{
    let left = number(context, left, span)?;
    let right = number(context, right, span)?;
    numeric(
        context,
        Expr::Compare {
            comparison,
            left,
            right,
        },
    )
}

/// An operator between its operands.
pub fn binary(
    context: &Context,
    scope: &Scope,
    operator: BinaryOperator,
    left: Box<Typed>,
    right: Box<Typed>,
    span: Span,
) -> Result<Box<Typed>, CheckError>
    ensures { Answers typed (binary_of (scope_of scope.now) operator (typed left) (typed right) (site_at (place_at context.now) span) span) result }
{
    match operator {
        BinaryOperator::Or => disjunction(context, left, right, span),
        BinaryOperator::And => conjunction(context, left, right, span),
        BinaryOperator::BitOr => bitwise(context, BitwiseOperator::Or, left, right, span),
        BinaryOperator::BitXor => bitwise(context, BitwiseOperator::Xor, left, right, span),
        BinaryOperator::BitAnd => bitwise(context, BitwiseOperator::And, left, right, span),
        BinaryOperator::Equal => equal(context, left, right, span),
        BinaryOperator::NotEqual => different(context, left, right, span),
        BinaryOperator::Less => ordered(context, Less, left, right, span),
        BinaryOperator::LessEqual => ordered(context, LessEqual, left, right, span),
        BinaryOperator::Greater => ordered(context, Greater, left, right, span),
        BinaryOperator::GreaterEqual => ordered(context, GreaterEqual, left, right, span),
        BinaryOperator::ShiftLeft => arithmetic(context, ShiftLeft, left, right, span),
        BinaryOperator::ShiftRight => arithmetic(context, ShiftRight, left, right, span),
        BinaryOperator::Add => sum(context, scope, Direction::Forward, left, right, span),
        BinaryOperator::Subtract => sum(context, scope, Direction::Backward, left, right, span),
        BinaryOperator::Multiply => arithmetic(context, Multiply, left, right, span),
        BinaryOperator::Divide => arithmetic(context, Divide, left, right, span),
        BinaryOperator::Remainder => arithmetic(context, Remainder, left, right, span),
    }
}
