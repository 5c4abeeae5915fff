// What is known where an expression stands: of a right operand what the left one told.

ghost use Rattle.std.specs.Prelude.{◌≡◌, IfOk, OnOk};
ghost use Rattle.region_typing_rules.specs.Knowing.{knowing};
ghost use Rattle.region_typing_scope.specs.Points.{left_truth as left_truth_of, point as point_of, told_beside};
ghost use Rattle.region_typing_scope.specs.Typed.{typed as inline_typed};
ghost use Rattle.region_typing_scope.specs.Views.{scope as scope_of};

use crate::point::Point;
use crate::scope::Scope;
use crate::typed::Typed;
use bounds_flow::flow::Flow;
use ckc_core::program::Expr;
use ckc_text::fault::NoMemory;
use ckc_tree::expr::BinaryOperator;
use region_typing_flow::conditions::{place_told, told};

impl Scope {
    /// Where an expression stands that is worked out first.
    pub fn point(&self) -> Point<'_>
        ensures { point_of result ≡ scope_of self.now }
    {
        Point {
            scope: self,
            flow: &self.flow,
        }
    }
}

/// As what the left operand came out where the right one is worked out, if that tells something.
pub fn left_truth(operator: BinaryOperator) -> Option<bool>
    ensures { result ≡ left_truth_of operator }
{
    match operator {
        BinaryOperator::Or => Some(false),
        BinaryOperator::And => Some(true),
        BinaryOperator::BitOr
        | BinaryOperator::BitXor
        | BinaryOperator::BitAnd
        | BinaryOperator::Equal
        | BinaryOperator::NotEqual
        | BinaryOperator::Less
        | BinaryOperator::LessEqual
        | BinaryOperator::Greater
        | BinaryOperator::GreaterEqual
        | BinaryOperator::ShiftLeft
        | BinaryOperator::ShiftRight
        | BinaryOperator::Add
        | BinaryOperator::Subtract
        | BinaryOperator::Multiply
        | BinaryOperator::Divide
        | BinaryOperator::Remainder => None,
    }
}

// What a value tells that came out so: of a local, whether it is null, and of a cell, whether what stands there isn't zero.
fn value_told(
    point: &Point<'_>,
    value: &Typed,
    truth: bool,
    flow: &mut Flow,
) -> Result<(), NoMemory>
    requires { flow.old ≡ point.now.flow.now }
    ensures known { OnOk result (knowing flow.new (scope_of point.now.scope.now) ≡ told_beside truth (inline_typed value.now) (point_of point.now)) }
    ensures vars { flow.new.vars ≡ flow.old.vars }
{
    let locals = point.scope.locals.as_slice();
    match value {
        Typed::Value { value, .. } => told(locals, value, truth, flow),
        Typed::Local { local, bounds, .. } => {
            let value = Expr::Local {
                local: *local,
                bounds: *bounds,
            };
            told(locals, &value, truth, flow)
        }
        Typed::Cell { place, .. } if truth => place_told(locals, place, flow),
        Typed::Cell { .. }
        | Typed::Bounded { .. }
        | Typed::Unknown { .. }
        | Typed::Array { .. }
        | Typed::Struct { .. } => Ok(()),
    }
}

/// What is known behind a value that came out so.
pub fn told_by(point: &Point<'_>, value: &Typed, truth: bool) -> Result<Flow, NoMemory>
    ensures known { IfOk result (λ flow. knowing flow (scope_of point.now.scope.now) ≡ told_beside truth (inline_typed value.now) (point_of point.now)) }
    ensures vars { IfOk result (λ flow. flow.vars ≡ point.now.flow.now.vars) }
{
    let mut flow = point.flow.copy()?;
    value_told(point, value, truth, &mut flow)?;
    Ok(flow)
}
