// What assignments and the ends of scopes make of a flow.

ghost use Rattle.std.specs.Prelude.{◌≡◌, ◌+◌, ◌-◌, ◌<◌, ◌≤◌, None, length, map, option_map, slice_get, OnOk};
ghost use Rattle.pointer_modes.specs.Types.{ctype as ctype_of};
ghost use Rattle.ckc_core.specs.declared.program.Site.{Site};
ghost use Rattle.ckc_core.specs.Core.{Arithmetic, Local, expression as expression_of, statement as statement_of};
ghost use Rattle.region_typing_rules.specs.Readings.{is_not_null as is_not_null_in, term as term_of};
ghost use Rattle.region_typing_rules.specs.Knowing.{assigned_by, count_assigned, measured_local as measured_local_of, moved_from, value_assigned, without_locals};
ghost use Rattle.region_typing_flow.specs.Conditions.{IsLocalBelow};
ghost use Rattle.region_typing_flow.specs.Views.{behind, tracked as tracked_by};

use crate::readings::{Behind, behind_local, combined, local_term, pointer_local, term};
use crate::sources::source;
use act_words::operator::Operator;
use bounds_flow::flow::Flow;
use bounds_flow::steps::Source;
use ckc_core::program::{Expr, Stmt};
use ckc_text::fault::NoMemory;
use pointer_modes::ctype::{CType, Kind};

// What a flow tracks of a local.
#[derive(Clone, Copy)]
enum Tracked {
    /// Its number: of an `int`.
    Number,
    /// Its bounds, and whether it is null: of a pointer of a kind.
    Bounds(Kind),
    /// Nothing.
    Nothing,
}

// What a flow tracks of a local, by its type.
fn tracked_of(locals: &[CType], local: u32) -> Tracked
    ensures { result ≡ tracked_by (slice_get (map ctype_of locals.now) local) }
{
    match locals.get(local as usize) {
        Some(CType::Int) => Tracked::Number,
        Some(CType::Pointer(_, kind, _)) => Tracked::Bounds(*kind),
        _ => Tracked::Nothing,
    }
}

// The constant, where a pointer is assigned itself plus a constant.
fn moved(local: u32, there: Option<Behind>) -> Option<i64>
    ensures { result ≡ moved_from local (option_map behind there) }
{
    match there {
        None => None,
        Some(there) => {
            if there.local == local {
                Some(there.elements)
            } else {
                None
            }
        }
    }
}

// Whether a pointer is known not to be null: a place, or a local of which that is known.
fn is_not_null(locals: &[CType], flow: &Flow, value: &Expr) -> bool
    requires { length locals.now ≤ flow.now.vars }
    ensures { result ≡ is_not_null_in (map ctype_of locals.now) flow.now (expression_of value.now) }
{
    if let Expr::AddressOf { .. } = value {
        return true;
    }
    match pointer_local(locals, value) {
        None => false,
        Some(local) => flow.not_null(local),
    }
}

// The local pointer whose elements before the zero an expression counts.
fn measured_local(locals: &[CType], value: &Expr) -> Option<u32>
    ensures value { result ≡ measured_local_of (map ctype_of locals.now) (expression_of value.now) }
    ensures below { IsLocalBelow (length locals.now) result }
{
    match value {
        Expr::Length { pointer, .. } => pointer_local(locals, pointer),
        _ => None,
    }
}

// An `int` local is assigned a value: how many elements stand before the zero of a local pointer, or another number.
fn set_number(locals: &[CType], local: u32, value: &Expr, flow: &mut Flow) -> Result<(), NoMemory>
    requires few { length locals.now ≤ flow.old.vars }
    requires below { local < length locals.now }
    ensures ok { OnOk result (flow.new ≡ count_assigned local (measured_local_of (map ctype_of locals.now) (expression_of value.now))
        (term_of (map ctype_of locals.now) (expression_of value.now)) flow.old) }
    ensures vars { flow.new.vars ≡ flow.old.vars }
{
    match measured_local(locals, value) {
        None => {
            let to = term(locals, value);
            flow.assign_int(local, to)
        }
        Some(pointer) => flow.strlen(local, pointer),
    }
}

// A local is assigned a value.
fn set(locals: &[CType], local: u32, value: &Expr, flow: &mut Flow) -> Result<(), NoMemory>
    requires { length locals.now ≤ flow.old.vars }
    ensures ok { OnOk result (flow.new ≡ value_assigned (slice_get (map ctype_of locals.now) local) (map ctype_of locals.now) local
        (expression_of value.now) flow.old) }
    ensures vars { flow.new.vars ≡ flow.old.vars }
{
    match tracked_of(locals, local) {
        Tracked::Number => set_number(locals, local, value, flow),
        Tracked::Bounds(kind) => {
            let from = source(flow.vars(), kind, flow.declared(local), value);
            let moved = moved(local, behind_local(locals, value));
            let known = is_not_null(locals, flow, value);
            flow.assign_pointer(local, &from, moved, known)
        }
        Tracked::Nothing => Ok(()),
    }
}

// A local is assigned what an operator makes of it and a value.
fn update(
    locals: &[CType],
    local: u32,
    operator: Operator,
    value: &Expr,
    flow: &mut Flow,
) -> Result<(), NoMemory>
    requires { length locals.now ≤ flow.old.vars }
    ensures ok { (site : Site) → OnOk result (flow.new ≡ value_assigned (slice_get (map ctype_of locals.now) local)
        (map ctype_of locals.now) local (Arithmetic operator (Local local None) (expression_of value.now) site) flow.old) }
    ensures vars { flow.new.vars ≡ flow.old.vars }
{
    match tracked_of(locals, local) {
        Tracked::Number => {
            let to = combined(operator, local_term(locals, local), term(locals, value));
            flow.assign_int(local, to)
        }
        Tracked::Bounds(_) => flow.assign_pointer(local, &Source::Lost, None, false),
        Tracked::Nothing => Ok(()),
    }
}

/// What a flow becomes by an assignment, or any other statement that is no block, branch or loop. Where no memory is found, it
/// has as many variables as before.
pub fn assign(locals: &[CType], statement: &Stmt, flow: &mut Flow) -> Result<(), NoMemory>
    requires { length locals.now ≤ flow.old.vars }
    ensures ok { OnOk result (flow.new ≡ assigned_by (map ctype_of locals.now) (statement_of statement.now) flow.old) }
    ensures vars { flow.new.vars ≡ flow.old.vars }
{
    match statement {
        Stmt::SetLocal { local, value } => set(locals, *local, value, flow),
        Stmt::UpdateLocal {
            local,
            operator,
            value,
            ..
        } => update(locals, *local, *operator, value, flow),
        _ => Ok(()),
    }
}

/// What a flow becomes where so many variables leave their scope, from one on. Where no memory is found, it has as many
/// variables as before.
pub fn leave(local: u32, count: u32, flow: &mut Flow) -> Result<(), NoMemory>
    requires { local + count ≤ flow.old.vars }
    ensures ok { OnOk result (flow.new ≡ without_locals local count flow.old) }
    ensures vars { flow.new.vars ≡ flow.old.vars }
{
    flow.is_flow();
    for i in 0..count {
        flow.leave(local + i)?;
    }
    Ok(())
}
