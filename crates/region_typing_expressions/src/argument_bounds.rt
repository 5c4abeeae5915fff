// The bounds that the arguments of a call are asked for, and those of its result.

ghost use Rattle.std.specs.Prelude.{◌≡◌, None, length, map, slice_index_or, IfOk};
ghost use Rattle.pointer_modes.specs.Types.{ctype as ctype_of};
ghost use Rattle.region_typing_rules.specs.Calls.{argument_meets as argument_meets_in, at_call as at_call_in, pointers_for as pointers_in, result_at as result_at_in, terms_for as terms_in};
ghost use Rattle.region_typing_scope.specs.Answering.{Answers};
ghost use Rattle.region_typing_scope.specs.Typed.{typed as inline_typed};
ghost use Rattle.region_typing_scope.specs.Points.{point as point_of};
ghost use Rattle.region_typing_scope.specs.Views.{signature};
ghost use Rattle.region_typing_expressions.specs.Calls.{argument};
ghost use Rattle.region_typing_expressions.specs.ArgumentBounds.{first_unmet as first_unmet_in, first_unmet_of, result_bounds_of, pointer_for as pointer_for_in, term_for as term_for_in, term_of as term_of_in, unless_unmet as unless_unmet_at};

use crate::calls::Argument;
use bounds_exprs::term::{Bounds, Term};
use bounds_flow::flow::Flow;
use ckc_text::code::Code;
use ckc_text::fault::NoMemory;
use ckc_text::place::Span;
use pointer_modes::ctype::CType;
use region_typing_flow::readings::{local_term, pointer, pointer_local, term};
use region_typing_scope::context::Context;
use region_typing_scope::entailment::{has_bounds, is_met, is_unasked};
use region_typing_scope::point::Point;
use region_typing_scope::refusals::{CheckError, refusal};
use region_typing_scope::signature::{Signature, bounds_in};
use region_typing_scope::typed::Typed;

// What stands for each parameter at a call: the term of its argument, and the local pointer that this is.
#[derive(Drop)]
struct Passed {
    terms: Vec<Option<Term>>,
    pointers: Vec<Option<u32>>,
}

/// The bounds at a call: where the first argument stands whose bounds aren't met, and the bounds that are declared for its
/// result, over what stands for the parameters.
#[derive(Drop)]
pub struct BoundsAtCall {
    pub unmet: Option<Span>,
    pub result: Option<Bounds>,
}

// The term of an argument.
fn term_of(locals: &[CType], t: &Typed) -> Option<Term>
    ensures { result ≡ term_of_in (map ctype_of locals.now) (inline_typed t.now) }
{
    match t {
        Typed::Value { value, .. } => term(locals, value),
        Typed::Local { local, .. } => local_term(locals, *local),
        Typed::Cell { .. }
        | Typed::Bounded { .. }
        | Typed::Unknown { .. }
        | Typed::Array { .. }
        | Typed::Struct { .. } => None,
    }
}

// The term that stands for a parameter of a type.
fn term_for(locals: &[CType], t: &Typed, to: &CType) -> Option<Term>
    ensures { result ≡ term_for_in (map ctype_of locals.now) (inline_typed t.now) (ctype_of to.now) }
{
    match to {
        CType::Int => term_of(locals, t),
        CType::Char | CType::Struct(_) | CType::Pointer(..) => None,
    }
}

// The local pointer that stands for a parameter.
fn pointer_for(locals: &[CType], t: &Typed) -> Option<u32>
    ensures { result ≡ pointer_for_in (map ctype_of locals.now) (inline_typed t.now) }
{
    match t {
        Typed::Value { value, .. } => pointer_local(locals, value),
        Typed::Local { local, .. } => pointer(locals, *local),
        Typed::Cell { .. }
        | Typed::Bounded { .. }
        | Typed::Unknown { .. }
        | Typed::Array { .. }
        | Typed::Struct { .. } => None,
    }
}

// The terms that stand for the parameters.
fn terms_for(
    context: &Context,
    locals: &[CType],
    arguments: &[Argument],
    types: &[CType],
) -> Result<Vec<Option<Term>>, NoMemory>
    requires { length arguments.now ≡ length types.now }
    ensures { IfOk result (λ terms. terms.items ≡ terms_in (map ctype_of locals.now) (map argument arguments.now) (map ctype_of types.now)) }
{
    let mut terms = Vec::new(context.alloc());
    for i in 0..arguments.len() {
        terms.push(term_for(locals, &arguments[i].typed, &types[i]))?;
    }
    Ok(terms)
}

// The local pointers that stand for the parameters.
fn pointers_for(
    context: &Context,
    locals: &[CType],
    arguments: &[Argument],
) -> Result<Vec<Option<u32>>, NoMemory>
    ensures { IfOk result (λ pointers. pointers.items ≡ pointers_in (map ctype_of locals.now) (map argument arguments.now)) }
{
    let mut pointers = Vec::new(context.alloc());
    for a in arguments {
        pointers.push(pointer_for(locals, &a.typed))?;
    }
    Ok(pointers)
}

// The pointer at an index, where there is one.
fn pointer_at(pointers: &[Option<u32>], index: usize) -> Option<u32>
    ensures { result ≡ slice_index_or pointers.now index None }
{
    if index < pointers.len() {
        pointers[index]
    } else {
        None
    }
}

// The bounds of a parameter over what stands for the parameters.
fn at_call(passed: &Passed, b: &Bounds) -> Option<Bounds>
    ensures { result ≡ at_call_in passed.now.terms.items passed.now.pointers.items b.now }
{
    let ends = b.subst_all(passed.terms.as_slice());
    match b.base {
        None => ends,
        Some(p) => match (pointer_at(passed.pointers.as_slice(), p as usize), ends) {
            (Some(base), Some(Bounds { lo, hi, .. })) => Some(Bounds {
                base: Some(base),
                lo,
                hi,
            }),
            _ => None,
        },
    }
}

// Whether the bounds of an argument meet those that are declared for its parameter, or those of its type.
fn argument_meets(
    flow: &Flow,
    passed: &Passed,
    t: &Typed,
    to: &CType,
    declared: Option<Bounds>,
) -> Result<bool, NoMemory>
    ensures { IfOk result (λ met. met ≡ argument_meets_in flow.now passed.now.terms.items passed.now.pointers.items (inline_typed t.now)
        (ctype_of to.now) declared) }
{
    match declared {
        None => is_met(flow, t, to),
        Some(b) => {
            if is_unasked(t) {
                return Ok(true);
            }
            match at_call(passed, &b) {
                None => Ok(false),
                Some(asked) => has_bounds(flow, t, &asked),
            }
        }
    }
}

// Where the first argument stands whose bounds aren't met, by what stands for the parameters.
fn first_unmet_by(
    flow: &Flow,
    passed: &Passed,
    f: &Signature,
    arguments: &[Argument],
) -> Result<Option<Span>, NoMemory>
    requires { length arguments.now ≡ length f.now.parameters.items }
    ensures { IfOk result (λ unmet. unmet ≡ first_unmet_in flow.now passed.now.terms.items passed.now.pointers.items
        (map argument arguments.now) (signature f.now).parameters (signature f.now).bounds) }
{
    let types = f.parameters.as_slice();
    for i in 0..arguments.len() {
        let argument = &arguments[i];
        let declared = f.bounds_of(i);
        if !argument_meets(flow, passed, &argument.typed, &types[i], declared)? {
            return Ok(Some(argument.span));
        }
    }
    Ok(None)
}

// The bounds of a result over what stands for the parameters; none where something doesn't stand there.
fn result_at(terms: &[Option<Term>], bounds: Option<Bounds>) -> Option<Bounds>
    ensures { result ≡ result_at_in terms.now bounds }
{
    match bounds {
        None => None,
        Some(b) => b.subst_all(terms),
    }
}

/// The bounds at a call of a function.
pub fn bounds_at_call(
    context: &Context,
    point: &Point<'_>,
    f: &Signature,
    arguments: &[Argument],
) -> Result<BoundsAtCall, NoMemory>
    requires { length arguments.now ≡ length f.now.parameters.items }
    ensures unmet { IfOk result (λ at_call. at_call.unmet ≡ first_unmet_of (point_of point.now) (signature f.now) (map argument arguments.now)) }
    ensures bounds { IfOk result (λ at_call. at_call.result ≡ result_bounds_of (point_of point.now) (signature f.now) (map argument arguments.now)) }
{
    let locals = point.scope.locals.as_slice();
    let passed = Passed {
        terms: terms_for(context, locals, arguments, f.parameters.as_slice())?,
        pointers: pointers_for(context, locals, arguments)?,
    };
    let unmet = first_unmet_by(point.flow, &passed, f, arguments)?;
    let declared = bounds_in(&f.result_bounds);
    let result = result_at(passed.terms.as_slice(), declared);
    Ok(BoundsAtCall { unmet, result })
}

/// Refuses an argument whose bounds aren't met, where there is one.
pub fn unless_unmet(unmet: Option<Span>) -> Result<(), CheckError>
    ensures { Answers (λ x. x) (unless_unmet_at unmet) result }
{
    match unmet {
        None => Ok(()),
        Some(span) => Err(refusal(Code::E17, span)),
    }
}
