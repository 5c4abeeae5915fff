// Values as those of the types that they convert to.

ghost use Rattle.std.specs.Prelude.{◌≡◌, IfOk};
ghost use Rattle.ckc_text.specs.declared.code.Code.TheVariants.{E17};
ghost use Rattle.pointer_modes.specs.Types.{ctype as ctype_of};
ghost use Rattle.region_typing_rules.specs.Verdicts.{Passes, needs as needs_in};
ghost use Rattle.region_typing_rules.specs.Operands.{converted as converted_to, in_type as value_in_type, as_pointer};
ghost use Rattle.region_typing_scope.specs.Answering.{Answers};
ghost use Rattle.region_typing_scope.specs.Entailing.{fitted as fitted_to};
ghost use Rattle.region_typing_scope.specs.OnHeap.{expression, typed};
ghost use Rattle.region_typing_scope.specs.Views.{scope as scope_of};

use crate::context::Context;
use crate::entailment::meets_declared;
use crate::operands::{Operand, value_of};
use crate::refusals::{CheckError, needs};
use crate::scope::Scope;
use crate::typed::Typed;
use crate::types::{converts, is_number};
use bounds_exprs::term::Bounds;
use ckc_core::program::Expr;
use ckc_text::code::Code;
use ckc_text::fault::NoMemory;
use ckc_text::place::Span;
use pointer_modes::ctype::CType;

// A value as one of a type.
fn in_type(
    context: &Context,
    to: &CType,
    null: bool,
    value: Box<Expr>,
) -> Result<Box<Expr>, NoMemory>
    ensures { IfOk result (λ v. expression v ≡ value_in_type (ctype_of to.now) null (expression value)) }
{
    match to {
        CType::Char => context.boxed(Expr::LowByte(value)),
        CType::Pointer(..) => pointer_value(context, null, value),
        CType::Int | CType::Struct(_) => Ok(value),
    }
}

// A pointer, where the constant 0 is null.
fn pointer_value(context: &Context, null: bool, value: Box<Expr>) -> Result<Box<Expr>, NoMemory>
    ensures { IfOk result (λ v. expression v ≡ as_pointer null (expression value)) }
{
    if null {
        context.boxed(Expr::Null)
    } else {
        Ok(value)
    }
}

// A value as one of a type that it converts to, where its bounds were found to meet what they are asked for.
fn converted_where(
    context: &Context,
    met: bool,
    t: Box<Typed>,
    to: &CType,
    span: Span,
) -> Result<Box<Expr>, CheckError>
    ensures { Answers expression (converted_to (typed t) (ctype_of to.now) span (λ value. needs_in met E17 span (Passes value))) result }
{
    let Operand { ctype, zero, value } = value_of(context, t, span)?;
    needs(converts(&ctype, zero, to), Code::E13, span)?;
    needs(met, Code::E17, span)?;
    let null = zero && is_number(&ctype);
    Ok(in_type(context, to, null, value)?)
}

/// A value as one of a type that it converts to.
pub fn converted(
    context: &Context,
    t: Box<Typed>,
    to: &CType,
    span: Span,
) -> Result<Box<Expr>, CheckError>
    ensures { Answers expression (converted_to (typed t) (ctype_of to.now) span Passes) result }
{
    converted_where(context, true, t, to, span)
}

/// A value as one of a type that it converts to, where its bounds meet those of the type, and those that are declared for
/// where it goes, if there are any.
pub fn fitted(
    context: &Context,
    scope: &Scope,
    declared: &Option<Bounds>,
    t: Box<Typed>,
    to: &CType,
    span: Span,
) -> Result<Box<Expr>, CheckError>
    ensures { Answers expression (fitted_to (scope_of scope.now).flow declared.now (typed t) (ctype_of to.now) span) result }
{
    let met = meets_declared(&scope.flow, declared, &t, to)?;
    converted_where(context, met, t, to, span)
}
