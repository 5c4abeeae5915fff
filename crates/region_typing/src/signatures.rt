// Declarations of functions, and whether they agree.

ghost use Rattle.std.specs.Prelude.{◌≡◌, ◌<◌, ◌≤◌, ◌&&◌, None, length, map, IfOk};
ghost use Rattle.std.specs.Option.{option_map};
ghost use Rattle.ckc_tree.specs.Items.{function as function_tree};
ghost use Rattle.pointer_modes.specs.Types.{ctype as ctype_of};
ghost use Rattle.region_typing_rules.specs.Scopes.{function_named};
ghost use Rattle.region_typing_rules.specs.Items.{same_types as same_types_of, same_result as same_result_of, same_kind as same_kind_of, agrees as agrees_of, all_scalar as all_scalar_of, scalar_result as scalar_result_of, signature_of as signature_in, with_function};
ghost use Rattle.region_typing_scope.specs.Answering.{Answers};
ghost use Rattle.region_typing_scope.specs.Views.{scope as scope_of, signature};
ghost use Rattle.region_typing.specs.Parameters.{parameter as parameter_of, heading as heading_view};
ghost use Rattle.region_typing.specs.Signatures.{declared as declared_view, declared_function};

use crate::functions::{copied_result, result_type};
use crate::parameters::heading;
use crate::prototype::{Heading, Prototype, TypedParameter};
use bounds_exprs::term::Bounds;
use ckc_text::fault::NoMemory;
use ckc_tree::item::{Function, FunctionKind};
use pointer_modes::ctype::CType;
use region_typing_scope::context::Context;
use region_typing_scope::refusals::CheckError;
use region_typing_scope::scope::Scope;
use region_typing_scope::signature::{Signature, all_same_written, copied_bounds, same_written};
use region_typing_scope::types::{copied, is_scalar, same_type};

fn same_types(a: &[CType], b: &[CType]) -> bool
    ensures { result ≡ same_types_of (map ctype_of a.now) (map ctype_of b.now) }
{
    match a {
        [] => b.is_empty(),
        [t, ts @ ..] => match b {
            [] => false,
            [u, us @ ..] => same_type(t, u) && same_types(ts, us),
        },
    }
}

fn same_result(a: &Option<CType>, b: &Option<CType>) -> bool
    ensures { result ≡ same_result_of (option_map ctype_of a.now) (option_map ctype_of b.now) }
{
    match a {
        None => b.is_none(),
        Some(t) => match b {
            None => false,
            Some(u) => same_type(t, u),
        },
    }
}

fn same_kind(a: FunctionKind, b: FunctionKind) -> bool
    ensures { result ≡ same_kind_of a b }
{
    match (a, b) {
        (FunctionKind::Trusted, FunctionKind::Trusted) => true,
        (FunctionKind::Tainted, FunctionKind::Tainted) => true,
        (FunctionKind::Callback, FunctionKind::Callback) => true,
        _ => false,
    }
}

/// Whether a declaration agrees with the first one of its name, if there is one.
pub fn agrees(scope: &Scope, f: &Signature) -> bool
    ensures { result ≡ agrees_of (function_named (scope_of scope.now).functions f.now.name) (signature f.now) }
{
    match scope.function(f.name) {
        None => true,
        Some(known) => {
            same_kind(known.kind, f.kind)
                && (same_types(known.parameters.as_slice(), f.parameters.as_slice())
                    && (same_result(&known.result, &f.result)
                        && (all_same_written(known.bounds.as_slice(), f.bounds.as_slice())
                            && same_written(&known.result_bounds, &f.result_bounds))))
        }
    }
}

fn all_scalar(types: &[CType]) -> bool
    ensures { result ≡ all_scalar_of (map ctype_of types.now) }
{
    match types {
        [] => true,
        [t, ts @ ..] => is_scalar(t) && all_scalar(ts),
    }
}

fn scalar_result(t: &Option<CType>) -> bool
    ensures { result ≡ scalar_result_of (option_map ctype_of t.now) }
{
    match t {
        None => true,
        Some(t) => is_scalar(t),
    }
}

/// Whether the parameters and the result of a function are scalars.
pub fn is_scalar_signature(f: &Signature) -> bool
    ensures { result ≡ (all_scalar_of (signature f.now).parameters && scalar_result_of (signature f.now).result) }
{
    all_scalar(f.parameters.as_slice()) && scalar_result(&f.result)
}

/// A copy of types.
pub fn copied_types(context: &Context, types: &[CType]) -> Result<Vec<CType>, NoMemory>
    ensures { IfOk result (λ v. map ctype_of v.items ≡ map ctype_of types.now) }
{
    let mut copies = Vec::new(context.alloc());
    for t in types {
        copies.push(copied(context, t)?)?;
    }
    Ok(copies)
}

// The types of parameters.
fn types_of(context: &Context, parameters: &[TypedParameter]) -> Result<Vec<CType>, NoMemory>
    ensures { IfOk result (λ v. map ctype_of v.items ≡ map (λ p. p.type) (map parameter_of parameters.now)) }
{
    let mut types = Vec::new(context.alloc());
    for p in parameters {
        types.push(copied(context, &p.ctype)?)?;
    }
    Ok(types)
}

// What is written for the bounds of parameters.
fn bounds_of(
    context: &Context,
    parameters: &[TypedParameter],
) -> Result<Vec<Option<Option<Bounds>>>, NoMemory>
    ensures { IfOk result (λ v. v.items ≡ map (λ p. p.bounds) (map parameter_of parameters.now)) }
{
    let mut bounds = Vec::new(context.alloc());
    for p in parameters {
        bounds.push(p.bounds)?;
    }
    Ok(bounds)
}

// The signature of a function that returns a type, with its heading.
fn signature_of(
    context: &Context,
    d: &Function,
    returned: Option<CType>,
    heading: &Heading,
) -> Result<Signature, NoMemory>
    requires { length heading.now.parameters.items ≤ 16 }
    ensures { IfOk result (λ f. signature f ≡ signature_in (function_tree d.now) (option_map ctype_of returned) (heading_view heading.now).0
        (heading_view heading.now).1) }
{
    let parameters = heading.parameters.as_slice();
    Ok(Signature {
        name: d.name.number,
        text: d.name.name.copy(context.alloc())?,
        kind: d.kind,
        parameters: types_of(context, parameters)?,
        bounds: bounds_of(context, parameters)?,
        result: returned,
        result_bounds: heading.bounds,
    })
}

/// A declaration of a function.
pub fn declared(context: &Context, scope: &Scope, d: &Function) -> Result<Prototype, CheckError>
    ensures { Answers declared_view (declared_function (scope_of scope.now) (function_tree d.now)) result }
{
    let returned = result_type(context, scope, &d.result, d.stars)?;
    let heading = heading(context, scope, &d.parameters, &returned, &d.bounds)?;
    let signature = signature_of(context, d, returned, &heading)?;
    Ok(Prototype {
        signature,
        parameters: heading.parameters,
    })
}

/// A copy of a signature.
pub fn copied_signature(context: &Context, f: &Signature) -> Result<Signature, NoMemory>
    ensures { IfOk result (λ copy. signature copy ≡ signature f.now) }
{
    Ok(Signature {
        name: f.name,
        text: f.text.copy(context.alloc())?,
        kind: f.kind,
        parameters: copied_types(context, f.parameters.as_slice())?,
        bounds: copied_bounds(context, f.bounds.as_slice())?,
        result: copied_result(context, &f.result)?,
        result_bounds: f.result_bounds,
    })
}

/// Makes a function known, where its name wasn't declared before.
pub fn declare(context: &Context, scope: &mut Scope, f: &Signature) -> Result<(), NoMemory>
    requires { function_named (scope_of scope.old).functions f.now.name ≡ None → length scope.old.functions.items < 4096 }
    ensures { IfOk result (λ _. scope_of scope.new ≡ with_function (function_named (scope_of scope.old).functions f.now.name)
        (signature f.now) (scope_of scope.old)) }
{
    match scope.function(f.name) {
        Some(_) => Ok(()),
        None => {
            let copy = copied_signature(context, f)?;
            scope.add_function(copy)
        }
    }
}
