// What is read off an expression: its term, its bounds, the local pointer that it is, and how many elements behind that it leads.

ghost use Rattle.std.specs.Prelude.{◌≡◌, List, Option, None, Some, length, map, neg_ℤ, ◌+ℤ◌, option_map};
ghost use Rattle.bounds_exprs.specs.Terms.{term_limit, within_limit};
ghost use Rattle.subsumption.specs.Graphs.{IsWithin};
ghost use Rattle.bounds_flow.specs.Conditions.{IsSmall};
ghost use Rattle.pointer_modes.specs.Types.{CType as TypeTree, ctype as ctype_of};
ghost use Rattle.ckc_core.specs.declared.program.Direction.TheVariants.{Forward, Backward};
ghost use Rattle.ckc_core.specs.declared.program.PointerBounds.{PointerBounds as NodeBounds};
ghost use Rattle.ckc_core.specs.declared.program.Site.{Site};
ghost use Rattle.ckc_core.specs.Core.{Expression, Arithmetic, Local, Sum, expression as expression_of};
ghost use Rattle.ckc_core.specs.Meaning.{bounds_of as bounds_at_node};
ghost use Rattle.region_typing_rules.specs.Readings.{term as term_of, constant as constant_of, against as against_of, sum_bounds as sum_bounds_of, own_bounds as own_bounds_of, based_bounds as based_bounds_of, with_base as with_base_of, pointer_local as pointer_local_of, behind_local as behind_local_of};
ghost use Rattle.region_typing_flow.specs.Conditions.{IsLocalBelow};
ghost use Rattle.region_typing_flow.specs.Views.{behind, constant_behind};

use act_words::operator::{ArithmeticOperator, Operator};
use bounds_exprs::expression::{add, multiply, subtract};
use bounds_exprs::term::{Bounds, Term, limited};
use ckc_core::program::{Direction, Expr, PointerBounds};
use pointer_modes::ctype::CType;

/// A local pointer, and how many elements behind it.
#[derive(Clone, Copy)]
pub struct Behind {
    pub local: u32,
    pub elements: i64,
}

/// The term of a local: it has one where it is an `int`.
pub fn local_term(locals: &[CType], local: u32) -> Option<Term>
    ensures { result ≡ term_of (map ctype_of locals.now) (Local local None) }
{
    match locals.get(local as usize) {
        Some(CType::Int) => Some(Term {
            var: Some(local),
            plus: 0,
        }),
        _ => None,
    }
}

// The term of an operation, by the terms of its operands.
pub(crate) fn combined(operator: Operator, left: Option<Term>, right: Option<Term>) -> Option<Term>
    ensures { (types : List TypeTree) (a b : Expression) (site : Site)
        → left ≡ term_of types a → right ≡ term_of types b → result ≡ term_of types (Arithmetic operator a b site) }
{
    match operator {
        Operator::Arithmetic(ArithmeticOperator::Add) => add(left, right),
        Operator::Arithmetic(ArithmeticOperator::Subtract) => subtract(left, right),
        Operator::Arithmetic(ArithmeticOperator::Multiply) => multiply(left, right),
        _ => None,
    }
}

/// The term of a number, where the locals have these types: of an `int` local, of a constant within -2^40 to 2^40, and of
/// what is put together from these. `None` where the expression has none.
pub fn term(locals: &[CType], value: &Expr) -> Option<Term>
    ensures { result ≡ term_of (map ctype_of locals.now) (expression_of value.now) }
{
    match value {
        Expr::Number(number) => limited(None, *number as i128),
        Expr::Local { local, .. } => local_term(locals, *local),
        Expr::Arithmetic {
            operator,
            left,
            right,
            ..
        } => combined(*operator, term(locals, left), term(locals, right)),
        _ => None,
    }
}

/// The number of a constant expression, which lies within -2^40 to 2^40.
pub fn constant(locals: &[CType], value: &Expr) -> Option<i64>
    ensures { result ≡ constant_of (map ctype_of locals.now) (expression_of value.now) }
{
    match term(locals, value) {
        Some(Term { var: None, plus }) => Some(plus),
        _ => None,
    }
}

/// The bounds at the node of a pointer.
pub fn bounds_of(value: &Expr) -> Option<PointerBounds>
    ensures { result ≡ bounds_at_node (expression_of value.now) }
{
    match value {
        Expr::Local { bounds, .. }
        | Expr::Load { bounds, .. }
        | Expr::AddressOf { bounds, .. }
        | Expr::Call { bounds, .. }
        | Expr::Sum { bounds, .. }
        | Expr::Allocate { bounds, .. }
        | Expr::Cast { bounds, .. } => *bounds,
        _ => None,
    }
}

/// The bounds of a pointer, as its node has them.
pub fn own_bounds(value: &Expr) -> Option<Bounds>
    ensures { result ≡ own_bounds_of (expression_of value.now) }
{
    match bounds_of(value) {
        None => None,
        Some(noted) => Some(noted.bounds),
    }
}

/// The bounds of a local pointer, which counts as their base where they have none.
pub fn local_bounds(local: u32, noted: Option<PointerBounds>) -> Option<Bounds>
    ensures { result ≡ based_bounds_of (Local local noted) }
{
    match noted {
        None => None,
        Some(noted) => {
            let Bounds { base, lo, hi } = noted.bounds;
            match base {
                None => Some(Bounds {
                    base: Some(local),
                    lo,
                    hi,
                }),
                Some(_) => Some(noted.bounds),
            }
        }
    }
}

// The bounds at a node, where they have a base.
fn with_base(noted: Option<PointerBounds>) -> Option<Bounds>
    ensures { result ≡ with_base_of (option_map (λ b. b.bounds) noted) }
{
    match noted {
        None => None,
        Some(noted) => {
            if noted.bounds.base.is_some() {
                Some(noted.bounds)
            } else {
                None
            }
        }
    }
}

/// The bounds from a base that a pointer has beside those at its node: a local pointer counts as its own base, a sum has those
/// of its pointer, and a cast has its own, where they have a base.
pub fn based_bounds(value: &Expr) -> Option<Bounds>
    ensures { result ≡ based_bounds_of (expression_of value.now) }
{
    match value {
        Expr::Local { local, bounds } => local_bounds(*local, *bounds),
        Expr::Sum { pointer, .. } => based_bounds(pointer),
        Expr::Cast { bounds, .. } => with_base(*bounds),
        _ => None,
    }
}

// By how much ends move against a pointer that is moved by a constant.
fn against(direction: Direction, number: i64) -> i64
    requires { IsWithin term_limit number }
    ensures { result ≡ against_of direction number }
{
    match direction {
        Direction::Forward => -number,
        Direction::Backward => number,
    }
}

/// The bounds of a sum, by the constant that is added and by the bounds of its pointer: these where they have a base, and else
/// with their ends moved.
pub fn sum_bounds(
    direction: Direction,
    number: Option<i64>,
    bounds: Option<Bounds>,
) -> Option<Bounds>
    requires { IsSmall number }
    ensures { result ≡ sum_bounds_of direction number bounds }
{
    match bounds {
        None => None,
        Some(ends) => {
            if ends.base.is_some() {
                return Some(ends);
            }
            match number {
                None => None,
                Some(number) => ends.moved(against(direction, number)),
            }
        }
    }
}

/// A local, where it is a pointer.
pub fn pointer(locals: &[CType], local: u32) -> Option<u32>
    ensures value { result ≡ pointer_local_of (map ctype_of locals.now) (Local local None) }
    ensures below { IsLocalBelow (length locals.now) result }
{
    match locals.get(local as usize) {
        Some(CType::Pointer(..)) => Some(local),
        _ => None,
    }
}

/// The local pointer that an expression is.
pub fn pointer_local(locals: &[CType], value: &Expr) -> Option<u32>
    ensures value { result ≡ pointer_local_of (map ctype_of locals.now) (expression_of value.now) }
    ensures below { IsLocalBelow (length locals.now) result }
{
    match value {
        Expr::Local { local, .. } => pointer(locals, *local),
        _ => None,
    }
}

// So many elements more, or fewer, where these lie within -2^40 to 2^40.
fn moved_on(elements: i64, direction: Direction, number: i64) -> Option<Term>
    ensures forward { direction ≡ Forward → result ≡ within_limit None (elements +ℤ number) }
    ensures backward { direction ≡ Backward → result ≡ within_limit None (elements +ℤ neg_ℤ number) }
{
    match direction {
        Direction::Forward => limited(None, elements as i128 + number as i128),
        Direction::Backward => limited(None, elements as i128 - number as i128),
    }
}

// A local, and so many elements behind it as a constant says.
fn behind_by(local: u32, elements: Option<Term>) -> Option<Behind>
    ensures { option_map behind result ≡ constant_behind local elements }
{
    match elements {
        None => None,
        Some(elements) => Some(Behind {
            local,
            elements: elements.plus,
        }),
    }
}

// The local pointer that a sum is, by the number that is added and by that of its pointer.
fn further(direction: Direction, number: Option<i64>, there: Option<Behind>) -> Option<Behind>
    ensures { (types : List TypeTree) (a b : Expression) (site : Site) (bounds : Option NodeBounds)
        → number ≡ constant_of types b → option_map behind there ≡ behind_local_of types a
        → option_map behind result ≡ behind_local_of types (Sum a direction b site bounds) }
{
    match (number, there) {
        (Some(number), Some(there)) => {
            let elements = moved_on(there.elements, direction, number);
            behind_by(there.local, elements)
        }
        _ => None,
    }
}

/// The local pointer that an expression is, and by how many elements it is moved, which are a constant within -2^40 to 2^40.
pub fn behind_local(locals: &[CType], value: &Expr) -> Option<Behind>
    ensures { option_map behind result ≡ behind_local_of (map ctype_of locals.now) (expression_of value.now) }
{
    match value {
        Expr::Local { local, .. } => match pointer(locals, *local) {
            None => None,
            Some(local) => Some(Behind { local, elements: 0 }),
        },
        Expr::Sum {
            pointer,
            direction,
            number,
            ..
        } => further(
            *direction,
            constant(locals, number),
            behind_local(locals, pointer),
        ),
        _ => None,
    }
}
