// Equality of two operands.

ghost use Rattle.std.specs.Prelude.{◌≡◌, ◌&&◌, IfOk};
ghost use Rattle.ckc_core.specs.Core.{expression};
ghost use Rattle.region_typing_scope.specs.Answering.{Answers};
ghost use Rattle.region_typing_scope.specs.Typed.{typed};
ghost use Rattle.region_typing_expressions.specs.Comparing.{is_number_value as number_value_of};
ghost use Rattle.region_typing_expressions.specs.Equality.{equality as equality_in, equated_by as equated_as, tested_by as tested_as};

use crate::operand_tests::{are_comparable_values, is_number_value, is_pointer_value};
use act_words::operator::Comparison;
use ckc_core::program::Expr;
use ckc_text::code::Code;
use ckc_text::fault::NoMemory;
use ckc_text::place::Span;
use region_typing_scope::context::Context;
use region_typing_scope::refusals::{CheckError, needs};
use region_typing_scope::typed::{Typed, is_zero};

/// How two operands are compared.
#[derive(Drop, Clone, Copy)]
pub enum Equality {
    Numbers,
    Pointers,
    /// The first operand, a pointer, with null.
    RightNull,
    /// The second operand, a pointer, with null.
    LeftNull,
}

// Whether two expressions are numbers.
fn are_number_values(left: &Typed, right: &Typed) -> bool
    ensures { result ≡ (number_value_of (typed left.now) && number_value_of (typed right.now)) }
{
    is_number_value(left) && is_number_value(right)
}

/// How two expressions are compared: numbers, pointers of one mode and element, or a pointer and 0.
pub fn equality_of(left: &Typed, right: &Typed, span: Span) -> Result<Equality, CheckError>
    ensures { Answers (λ how. how) (equality_in (typed left.now) (typed right.now) span) result }
{
    if are_number_values(left, right) {
        return Ok(Equality::Numbers);
    }
    if are_comparable_values(left, right) {
        return Ok(Equality::Pointers);
    }
    if is_pointer_value(left) && is_zero(right) {
        return Ok(Equality::RightNull);
    }
    needs(is_pointer_value(right) && is_zero(left), Code::E13, span)?;
    Ok(Equality::LeftNull)
}

// Whether two values are equal.
fn equated_by(
    context: &Context,
    how: Equality,
    left: Box<Expr>,
    right: Box<Expr>,
) -> Result<Expr, NoMemory>
    ensures { IfOk result (λ e. expression e ≡ equated_as how (expression left.value) (expression right.value)) }
{
    match how {
        Equality::Numbers => Ok(Expr::Compare {
            comparison: Comparison::Equal,
            left,
            right,
        }),
        Equality::Pointers => Ok(Expr::Same { left, right }),
        Equality::RightNull => Ok(Expr::Same {
            left,
            right: context.boxed(Expr::Null)?,
        }),
        Equality::LeftNull => Ok(Expr::Same {
            left: context.boxed(Expr::Null)?,
            right,
        }),
    }
}

/// The same, where an element of a null-terminated pointer may be compared with the constant 0.
pub fn tested_by(
    context: &Context,
    tests_zero: bool,
    how: Equality,
    left: Box<Expr>,
    right: Box<Expr>,
) -> Result<Expr, NoMemory>
    ensures { IfOk result (λ e. expression e ≡ tested_as tests_zero how (expression left.value) (expression right.value)) }
{
    if tests_zero {
        Ok(Expr::Not(left))
    } else {
        equated_by(context, how, left, right)
    }
}
