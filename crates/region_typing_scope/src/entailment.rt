// Whether what is known where the walk stands entails the bounds that a pointer is asked for.

ghost use Rattle.std.specs.Prelude.{◌≡◌, Some, IfOk};
ghost use Rattle.pointer_modes.specs.Types.{ctype as ctype_of};
ghost use Rattle.ckc_core.specs.Core.{expression};
ghost use Rattle.subsumption.specs.ClosedTables.{entails_terms};
ghost use Rattle.subsumption.specs.ShownTables.{is_yes as says_yes};
ghost use Rattle.bounds_flow.specs.Settling.{ends_find, bounds_find};
ghost use Rattle.region_typing_rules.specs.Operands.{is_met as is_met_by, asked_as as asked_of_kinds, asked_of as asked_of_types, meets as meets_in};
ghost use Rattle.region_typing_rules.specs.Statements.{meets_declared as meets_declared_in};
ghost use Rattle.region_typing_scope.specs.Entailing.{asked_for as asked_for_in, has_bounds as has_bounds_as, is_met_as, is_unasked as is_unasked_in, own_of, based_of};
ghost use Rattle.region_typing_scope.specs.Typed.{typed};

use crate::bounds::row_of;
use crate::typed::Typed;
use bounds_exprs::expression::constant;
use bounds_exprs::term::{Bounds, Term};
use bounds_flow::flow::Flow;
use ckc_core::program::Expr;
use ckc_text::fault::NoMemory;
use pointer_modes::ctype::{CType, Kind};
use region_typing_flow::conditions::is_null;
use region_typing_flow::readings::{based_bounds, local_bounds, own_bounds};
use region_typing_flow::sources::is_below;
use subsumption::fact::Answer;

// Whether an answer is yes.
fn is_yes(answer: &Answer) -> bool
    ensures { result ≡ says_yes answer.now }
{
    matches!(answer, Answer::Yes(_))
}

// The bounds that a pointer of the one kind is asked for as one of the other.
fn asked_as(from: Kind, to: Kind) -> Option<Bounds>
    ensures { result ≡ asked_of_kinds from to }
{
    match (from, to) {
        (Kind::Array, Kind::One) | (Kind::Nt, Kind::One) => Some(row_of(1)),
        _ => None,
    }
}

// The bounds that a value of the one type is asked for as one of the other.
fn asked_of(from: &CType, to: &CType) -> Option<Bounds>
    ensures { result ≡ asked_of_types (ctype_of from.now) (ctype_of to.now) }
{
    match from {
        CType::Pointer(_, from, _) => match to {
            CType::Pointer(_, to, _) => asked_as(*from, *to),
            CType::Int | CType::Char | CType::Struct(_) => None,
        },
        CType::Int | CType::Char | CType::Struct(_) => None,
    }
}

// The bounds that an expression is asked for as a value of a type; null is asked for none.
fn asked_for(t: &Typed, to: &CType) -> Option<Bounds>
    ensures { result ≡ asked_for_in (typed t.now) (ctype_of to.now) }
{
    match t {
        Typed::Value { ctype, zero, value } => {
            if *zero || is_null(value) {
                None
            } else {
                asked_of(ctype, to)
            }
        }
        Typed::Local { ctype, .. }
        | Typed::Cell { ctype, .. }
        | Typed::Bounded { ctype, .. }
        | Typed::Unknown { ctype, .. }
        | Typed::Array { ctype, .. } => asked_of(ctype, to),
        Typed::Struct { .. } => None,
    }
}

// The bounds of an expression, as its node has them.
fn own(t: &Typed) -> Option<Bounds>
    ensures { result ≡ own_of (typed t.now) }
{
    match t {
        Typed::Value { value, .. } => own_bounds(value),
        Typed::Local { bounds, .. }
        | Typed::Cell { bounds, .. }
        | Typed::Bounded { bounds, .. }
        | Typed::Unknown { bounds, .. }
        | Typed::Array { bounds, .. } => match bounds {
            None => None,
            Some(noted) => Some(noted.bounds),
        },
        Typed::Struct { .. } => None,
    }
}

/// The bounds from a base that an expression has beside those.
pub fn based(t: &Typed) -> Option<Bounds>
    ensures { result ≡ based_of (typed t.now) }
{
    match t {
        Typed::Value { value, .. } => based_bounds(value),
        Typed::Local { local, bounds, .. } => local_bounds(*local, *bounds),
        Typed::Cell { .. }
        | Typed::Bounded { .. }
        | Typed::Unknown { .. }
        | Typed::Array { .. }
        | Typed::Struct { .. } => None,
    }
}

// Whether the one term is at most the other wherever what is known holds. Of a variable that it hasn't a flow entails
// something only where it entails everything.
fn entails(flow: &Flow, a: &Term, b: &Term) -> Result<bool, NoMemory>
    ensures { IfOk result (λ yes. yes ≡ entails_terms a.now b.now flow.now.facts) }
{
    flow.is_flow();
    let vars = flow.vars();
    if is_below(vars, a.var) && is_below(vars, b.var) {
        let answer = flow.entails(a, b)?;
        return Ok(is_yes(&answer));
    }
    let answer = flow.entails(&constant(1), &constant(0))?;
    Ok(is_yes(&answer))
}

// Whether bounds are entailed to lie around others.
fn ends_meet(flow: &Flow, asked: &Bounds, b: &Bounds) -> Result<bool, NoMemory>
    ensures { IfOk result (λ met. met ≡ is_met_by (ends_find flow.now.facts asked.now b.now)) }
{
    if !entails(flow, &b.lo, &asked.lo)? {
        return Ok(false);
    }
    entails(flow, &asked.hi, &b.hi)
}

// Whether bounds, if there are any, are entailed to lie around others, from the same base.
fn bounds_meet(flow: &Flow, asked: &Bounds, bounds: &Option<Bounds>) -> Result<bool, NoMemory>
    ensures { IfOk result (λ met. met ≡ is_met_by (bounds_find flow.now.facts asked.now bounds.now)) }
{
    match bounds {
        None => Ok(false),
        Some(b) => {
            if asked.base == b.base {
                ends_meet(flow, asked, b)
            } else {
                Ok(false)
            }
        }
    }
}

/// Whether the bounds of an expression, without a base or with one, are entailed to lie around others.
pub fn has_bounds(flow: &Flow, t: &Typed, asked: &Bounds) -> Result<bool, NoMemory>
    ensures { IfOk result (λ met. met ≡ has_bounds_as flow.now (typed t.now) asked.now) }
{
    if bounds_meet(flow, asked, &own(t))? {
        return Ok(true);
    }
    bounds_meet(flow, asked, &based(t))
}

/// Whether the bounds of an expression, without a base or with one, are entailed to lie around those that it is asked for
/// as a value of a type.
pub fn is_met(flow: &Flow, t: &Typed, to: &CType) -> Result<bool, NoMemory>
    ensures { IfOk result (λ met. met ≡ is_met_as flow.now (typed t.now) (ctype_of to.now)) }
{
    match asked_for(t, to) {
        None => Ok(true),
        Some(asked) => has_bounds(flow, t, &asked),
    }
}

/// Whether what is given is asked for no bounds: null isn't, nor is a struct.
pub fn is_unasked(t: &Typed) -> bool
    ensures { result ≡ is_unasked_in (typed t.now) }
{
    match t {
        Typed::Value { zero, value, .. } => *zero || is_null(value),
        Typed::Local { .. }
        | Typed::Cell { .. }
        | Typed::Bounded { .. }
        | Typed::Unknown { .. }
        | Typed::Array { .. } => false,
        Typed::Struct { .. } => true,
    }
}

/// Whether the bounds of an expression as a value of a type meet those of the type, and those that are declared for where it
/// goes, if there are any.
pub fn meets_declared(
    flow: &Flow,
    declared: &Option<Bounds>,
    t: &Typed,
    to: &CType,
) -> Result<bool, NoMemory>
    ensures { IfOk result (λ met. met ≡ meets_declared_in flow.now declared.now (typed t.now) (ctype_of to.now)) }
{
    if !is_met(flow, t, to)? {
        return Ok(false);
    }
    match declared {
        None => Ok(true),
        Some(asked) => {
            if is_unasked(t) {
                return Ok(true);
            }
            has_bounds(flow, t, asked)
        }
    }
}

/// Whether the bounds of a value, without a base or with one, are entailed to lie around others; null is asked for none.
pub fn value_meets(flow: &Flow, value: &Expr, asked: &Bounds) -> Result<bool, NoMemory>
    ensures { IfOk result (λ met. met ≡ meets_in flow.now (expression value.now) (Some asked.now)) }
{
    if is_null(value) || bounds_meet(flow, asked, &own_bounds(value))? {
        return Ok(true);
    }
    bounds_meet(flow, asked, &based_bounds(value))
}
