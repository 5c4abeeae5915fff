// What conditions tell.

ghost use Rattle.std.specs.Prelude.{◌≡◌, ◌<◌, ◌≤◌, Bool, Option, Some, length, map, not, slice_get, IfOk, OnOk};
ghost use Rattle.bounds_exprs.specs.declared.term.Term.{Term as TermTree};
ghost use Rattle.bounds_flow.specs.declared.steps.Test.TheVariants.{Compare};
ghost use Rattle.bounds_flow.specs.Flows.{Knowledge, assumed, rejoined};
ghost use Rattle.pointer_modes.specs.Types.{ctype as ctype_of};
ghost use Rattle.ckc_core.specs.declared.program.Direction.TheVariants.{Forward};
ghost use Rattle.ckc_core.specs.declared.program.PointerBounds.{PointerBounds};
ghost use Rattle.ckc_core.specs.declared.program.Site.{Site};
ghost use Rattle.ckc_core.specs.Core.{Sum, expression as expression_of, place as place_of};
ghost use Rattle.region_typing_rules.specs.Readings.{compared as compared_by, element_told as element_told_of, elements_told as elements_told_of, is_ended_local as is_ended_local_of, is_null as is_null_at, null_told as null_told_of, place_told as place_told_of, same_told as same_told_of, told as told_of};
ghost use Rattle.region_typing_flow.specs.Conditions.{IsLocalBelow, IsTermSmall};

use crate::readings::{pointer_local, term};
use act_words::operator::Comparison;
use bounds_exprs::term::Term;
use bounds_flow::flow::Flow;
use bounds_flow::steps::{How, Test};
use ckc_core::program::{CellPlace, Direction, Expr, Index};
use ckc_text::fault::NoMemory;
use pointer_modes::ctype::{CType, Kind, Mode};

// The comparison, as a flow is told it.
fn how(comparison: Comparison) -> How
    ensures { (a b : TermTree) (truth : Bool) (f : Knowledge) → compared_by comparison (Some a) (Some b) truth f ≡ assumed (Compare result a b) truth f }
{
    match comparison {
        Comparison::Equal => How::Eq,
        Comparison::NotEqual => How::Ne,
        Comparison::Less => How::Lt,
        Comparison::LessEqual => How::Le,
        Comparison::Greater => How::Gt,
        Comparison::GreaterEqual => How::Ge,
    }
}

// Two numbers compare so, or don't, where both have terms.
fn compared(
    comparison: Comparison,
    left: Option<Term>,
    right: Option<Term>,
    truth: bool,
    flow: &mut Flow,
) -> Result<(), NoMemory>
    requires left { IsTermSmall flow.old.vars left }
    requires right { IsTermSmall flow.old.vars right }
    ensures ok { OnOk result (flow.new ≡ compared_by comparison left right truth flow.old) }
    ensures vars { flow.new.vars ≡ flow.old.vars }
{
    match (left, right) {
        (Some(left), Some(right)) => {
            let how = how(comparison);
            flow.assume(&Test::Compare { how, left, right }, truth)
        }
        _ => Ok(()),
    }
}

// A pointer isn't null, or is.
fn null_told(local: Option<u32>, truth: bool, flow: &mut Flow) -> Result<(), NoMemory>
    requires { IsLocalBelow flow.old.vars local }
    ensures ok { OnOk result (flow.new ≡ null_told_of local truth flow.old) }
    ensures vars { flow.new.vars ≡ flow.old.vars }
{
    match local {
        None => Ok(()),
        Some(var) => flow.assume(&Test::NotNull { var }, truth),
    }
}

/// Whether an expression is the null pointer.
pub fn is_null(value: &Expr) -> bool
    ensures { result ≡ is_null_at (expression_of value.now) }
{
    matches!(value, Expr::Null)
}

// Two pointers are the same, or aren't.
fn same_told(
    locals: &[CType],
    left: &Expr,
    right: &Expr,
    truth: bool,
    flow: &mut Flow,
) -> Result<(), NoMemory>
    requires { length locals.now ≤ flow.old.vars }
    ensures ok { OnOk result (flow.new ≡ same_told_of (map ctype_of locals.now) (expression_of left.now) (expression_of right.now) truth flow.old) }
    ensures vars { flow.new.vars ≡ flow.old.vars }
{
    if is_null(right) {
        null_told(pointer_local(locals, left), !truth, flow)
    } else if is_null(left) {
        null_told(pointer_local(locals, right), !truth, flow)
    } else {
        Ok(())
    }
}

// Whether a local is a checked null-terminated pointer.
fn is_ended_local(locals: &[CType], local: u32) -> bool
    ensures { result ≡ is_ended_local_of (slice_get (map ctype_of locals.now) local) }
{
    matches!(
        locals.get(local as usize),
        Some(CType::Pointer(Mode::Checked, Kind::Nt, _))
    )
}

// The element of a local at an index isn't zero, where the local is a pointer to such elements and the index has a term.
fn element_told(
    locals: &[CType],
    local: u32,
    index: Option<Term>,
    flow: &mut Flow,
) -> Result<(), NoMemory>
    requires few { length locals.now ≤ flow.old.vars }
    requires index_small { IsTermSmall flow.old.vars index }
    ensures ok { OnOk result (flow.new ≡ element_told_of (is_ended_local_of (slice_get (map ctype_of locals.now) local)) local index flow.old) }
    ensures vars { flow.new.vars ≡ flow.old.vars }
{
    if !is_ended_local(locals, local) {
        return Ok(());
    }
    match index {
        None => Ok(()),
        Some(index) => {
            flow.widen(local, &index)?;
            Ok(())
        }
    }
}

// What stands at a number of elements behind a sum isn't zero, where the sum leads on from a local.
fn summed_told(
    locals: &[CType],
    pointer: &Expr,
    elements: &Expr,
    number: &Expr,
    flow: &mut Flow,
) -> Result<(), NoMemory>
    requires { length locals.now ≤ flow.old.vars }
    ensures ok { (site : Site) (bounds : Option PointerBounds) → OnOk result
        (flow.new ≡ elements_told_of (map ctype_of locals.now) (Sum (expression_of pointer.now) Forward (expression_of elements.now) site
        bounds) (expression_of number.now) flow.old) }
    ensures vars { flow.new.vars ≡ flow.old.vars }
{
    match (pointer, number) {
        (Expr::Local { local, .. }, Expr::Number(0)) => {
            element_told(locals, *local, term(locals, elements), flow)
        }
        _ => Ok(()),
    }
}

// What stands at a number of elements behind a pointer isn't zero: `p[e]` and `*p`, and `*(p + e)`.
fn elements_told(
    locals: &[CType],
    pointer: &Expr,
    number: &Expr,
    flow: &mut Flow,
) -> Result<(), NoMemory>
    requires { length locals.now ≤ flow.old.vars }
    ensures ok { OnOk result (flow.new ≡ elements_told_of (map ctype_of locals.now) (expression_of pointer.now) (expression_of number.now) flow.old) }
    ensures vars { flow.new.vars ≡ flow.old.vars }
{
    match pointer {
        Expr::Local { local, .. } => element_told(locals, *local, term(locals, number), flow),
        Expr::Sum {
            pointer,
            direction: Direction::Forward,
            number: elements,
            ..
        } => summed_told(locals, pointer, elements, number, flow),
        _ => Ok(()),
    }
}

/// What a flow becomes where what stands at a place isn't zero. Where no memory is found, it has as many variables as before.
pub fn place_told(locals: &[CType], cell: &CellPlace, flow: &mut Flow) -> Result<(), NoMemory>
    requires { length locals.now ≤ flow.old.vars }
    ensures ok { OnOk result (flow.new ≡ place_told_of (map ctype_of locals.now) (place_of cell.now) flow.old) }
    ensures vars { flow.new.vars ≡ flow.old.vars }
{
    match cell {
        CellPlace::Through {
            pointer,
            index: Index::Element {
                number,
                terminated: true,
            },
            ..
        } => elements_told(locals, pointer, number, flow),
        _ => Ok(()),
    }
}

// Both conditions came out so, the second behind the first.
#[cycle(told)]
fn both(
    locals: &[CType],
    left: &Expr,
    right: &Expr,
    truth: bool,
    flow: &mut Flow,
) -> Result<(), NoMemory>
    requires { length locals.now ≤ flow.old.vars }
    ensures ok { OnOk result (flow.new ≡ told_of (map ctype_of locals.now) (expression_of right.now) truth
        (told_of (map ctype_of locals.now) (expression_of left.now) truth flow.old)) }
    ensures vars { flow.new.vars ≡ flow.old.vars }
{
    told(locals, left, truth, flow)?;
    told(locals, right, truth, flow)
}

// The way on which the first of two conditions came out so; gives the one on which the second did, where the first came out
// otherwise.
#[cycle(told)]
fn parted(
    locals: &[CType],
    left: &Expr,
    right: &Expr,
    truth: bool,
    flow: &mut Flow,
) -> Result<Flow, NoMemory>
    requires { length locals.now ≤ flow.old.vars }
    ensures first { OnOk result (flow.new ≡ told_of (map ctype_of locals.now) (expression_of left.now) truth flow.old) }
    ensures second { IfOk result (λ second. second ≡ told_of (map ctype_of locals.now) (expression_of right.now) truth
        (told_of (map ctype_of locals.now) (expression_of left.now) (not truth) flow.old)) }
    ensures second_vars { IfOk result (λ second. second.vars ≡ flow.old.vars) }
    ensures vars { flow.new.vars ≡ flow.old.vars }
{
    let mut second = flow.copy()?;
    told(locals, left, !truth, &mut second)?;
    told(locals, right, truth, &mut second)?;
    told(locals, left, truth, flow)?;
    Ok(second)
}

// One of two conditions came out so: the first, or the second where the first came out otherwise. What was known before is
// kept only in bundles, where it is asked for.
#[cycle(told)]
fn either(
    locals: &[CType],
    left: &Expr,
    right: &Expr,
    truth: bool,
    flow: &mut Flow,
) -> Result<(), NoMemory>
    requires { length locals.now ≤ flow.old.vars }
    ensures ok { OnOk result (flow.new ≡ rejoined flow.old (told_of (map ctype_of locals.now) (expression_of left.now) truth flow.old)
        (told_of (map ctype_of locals.now) (expression_of right.now) truth
        (told_of (map ctype_of locals.now) (expression_of left.now) (not truth) flow.old))) }
    ensures vars { flow.new.vars ≡ flow.old.vars }
{
    if !flow.is_bundled() {
        let second = parted(locals, left, right, truth, flow)?;
        return flow.join(&second);
    }
    let before = flow.copy()?;
    let second = parted(locals, left, right, truth, flow)?;
    flow.rejoin(&second, &before)
}

/// What a flow becomes by a condition that came out so. Where no memory is found, it has as many variables as before.
#[cycle(told)]
pub fn told(
    locals: &[CType],
    condition: &Expr,
    truth: bool,
    flow: &mut Flow,
) -> Result<(), NoMemory>
    requires { length locals.now ≤ flow.old.vars }
    ensures ok { OnOk result (flow.new ≡ told_of (map ctype_of locals.now) (expression_of condition.now) truth flow.old) }
    ensures vars { flow.new.vars ≡ flow.old.vars }
{
    match condition {
        Expr::AndAlso { left, right } => {
            if truth {
                both(locals, left, right, true, flow)
            } else {
                either(locals, left, right, false, flow)
            }
        }
        Expr::OrElse { left, right } => {
            if truth {
                either(locals, left, right, true, flow)
            } else {
                both(locals, left, right, false, flow)
            }
        }
        Expr::Not(operand) => told(locals, operand, !truth, flow),
        Expr::Compare {
            comparison,
            left,
            right,
        } => {
            let left = term(locals, left);
            let right = term(locals, right);
            compared(*comparison, left, right, truth, flow)
        }
        Expr::Same { left, right } => same_told(locals, left, right, truth, flow),
        Expr::Load { cell, .. } if truth => place_told(locals, cell, flow),
        Expr::Local { .. } => null_told(pointer_local(locals, condition), truth, flow),
        _ => Ok(()),
    }
}
