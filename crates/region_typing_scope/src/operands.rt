// Operands as values.

ghost use Rattle.std.specs.Prelude.{false};
ghost use Rattle.pointer_modes.specs.Types.{ctype as ctype_of};
ghost use Rattle.ckc_core.specs.Core.{expression};
ghost use Rattle.region_typing_rules.specs.Verdicts.{Passes};
ghost use Rattle.region_typing_rules.specs.Operands.{number_of, scalar_of};
ghost use Rattle.region_typing_scope.specs.Answering.{Answers};
ghost use Rattle.region_typing_scope.specs.OnHeap.{typed, expression as boxed_expression};
ghost use Rattle.region_typing_scope.specs.Operands.{operand as operand_view, operand_of};

use crate::context::Context;
use crate::refusals::{CheckError, needs, refusal};
use crate::typed::Typed;
use crate::types::{copied, is_number};
use ckc_core::program::{CellPlace, Expr};
use ckc_text::code::Code;
use ckc_text::place::Span;
use pointer_modes::ctype::CType;

/// A value of a scalar type, which may be the constant 0.
#[derive(Drop)]
pub struct Operand {
    pub ctype: CType,
    pub zero: bool,
    pub value: Box<Expr>,
}

/// What an expression that is no struct is as a value.
pub fn value_of(context: &Context, t: Box<Typed>, span: Span) -> Result<Operand, CheckError>
    ensures { Answers operand_view (operand_of (typed t) span) result }
{
    match Box::into_inner(t) {
        Typed::Value { ctype, zero, value } => Ok(Operand { ctype, zero, value }),
        Typed::Local {
            ctype,
            local,
            bounds,
            ..
        } => read(context, ctype, Expr::Local { local, bounds }),
        Typed::Cell {
            ctype,
            place: cell,
            bounds,
        } => {
            let copy = copied(context, &ctype)?;
            let value = Expr::Load {
                ctype,
                cell,
                bounds,
            };
            read(context, copy, value)
        }
        Typed::Bounded {
            ctype,
            object,
            bounds,
            ..
        }
        | Typed::Unknown {
            ctype,
            object,
            bounds,
        } => {
            let copy = copied(context, &ctype)?;
            let cell = CellPlace::Direct { object, offset: 0 };
            let value = Expr::Load {
                ctype,
                cell,
                bounds,
            };
            read(context, copy, value)
        }
        Typed::Array {
            ctype,
            object,
            bounds,
        } => {
            let cell = CellPlace::Direct { object, offset: 0 };
            read(context, ctype, Expr::AddressOf { cell, bounds })
        }
        Typed::Struct { .. } => Err(refusal(Code::E13, span)),
    }
}

// A value that isn't the constant 0.
fn read(context: &Context, ctype: CType, value: Expr) -> Result<Operand, CheckError>
    ensures { Answers operand_view (Passes (record { type = ctype_of ctype; zero = false; value = expression value })) result }
{
    let value = context.boxed(value)?;
    Ok(Operand {
        ctype,
        zero: false,
        value,
    })
}

/// A number, for an operator that takes numbers.
pub fn number(context: &Context, t: Box<Typed>, span: Span) -> Result<Box<Expr>, CheckError>
    ensures { Answers boxed_expression (number_of (typed t) span Passes) result }
{
    let o = value_of(context, t, span)?;
    needs(is_number(&o.ctype), Code::E13, span)?;
    Ok(o.value)
}

/// A scalar, for a condition and for operators on truth.
pub fn scalar(context: &Context, t: Box<Typed>, span: Span) -> Result<Box<Expr>, CheckError>
    ensures { Answers boxed_expression (scalar_of (typed t) span Passes) result }
{
    let o = value_of(context, t, span)?;
    Ok(o.value)
}
