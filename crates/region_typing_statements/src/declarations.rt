// Declarations of locals.

ghost use Rattle.std.specs.Prelude.{◌<◌, map, length, IfOk};
ghost use Rattle.ckc_text.specs.Places.{place_at};
ghost use Rattle.ckc_tree.specs.Types.{type_tree};
ghost use Rattle.ckc_tree.specs.Statements.{declarator as declarator_tree, declaration as declaration_tree};
ghost use Rattle.pointer_modes.specs.Types.{ctype as ctype_of};
ghost use Rattle.region_typing_rules.specs.Statements.{few_locals as few_locals_in, plain_local as plain_local_of, declarator as declarator_of, declarators as declarators_of, declaration as declaration_of};
ghost use Rattle.region_typing_rules.specs.Verdicts.{Passes};
ghost use Rattle.region_typing_scope.specs.Answering.{Answers};
ghost use Rattle.region_typing_scope.specs.Views.{scope as scope_of};
ghost use Rattle.region_typing_scope.specs.OnHeap.{statement};
ghost use Rattle.region_typing_statements.specs.Walks.{Walks, declared_local};

use crate::core_forms::{both, nothing};
use crate::initial_values::from_zero;
use crate::local_arrays::{array_local, first_length};
use ckc_core::program::Stmt;
use ckc_text::code::Code;
use ckc_text::place::Span;
use ckc_tree::stmt::{Declaration, Declarator};
use ckc_tree::type_form::TypeForm;
use pointer_modes::ctype::CType;
use region_typing_scope::context::Context;
use region_typing_scope::declared::declared_bounds;
use region_typing_scope::initial_cells::is_length;
use region_typing_scope::refusals::{CheckError, needs};
use region_typing_scope::scope::Scope;
use region_typing_scope::types::{base_type, copied, without_stars};

// Refuses one local too many: the flow has a variable for each, and 256 at most.
fn few_locals(scope: &Scope, span: Span) -> Result<(), CheckError>
    ensures few { Answers (λ x. x) (few_locals_in (scope_of scope.now) span (Passes tt)) result }
    ensures room { IfOk result (λ _. length scope.now.locals.items < scope.now.flow.vars) }
{
    needs(scope.has_room(), Code::E08, span)?;
    Ok(())
}

// A local more that is no array, with the bounds that are declared for it, which is given what it is at first.
fn declared(
    context: &Context,
    scope: &mut Scope,
    d: &Declarator,
    t: &CType,
    span: Span,
) -> Result<Box<Stmt>, CheckError>
    requires { length scope.old.locals.items < scope.old.flow.vars }
    ensures { Walks statement (declared_local (place_at context.now) (scope_of scope.old) (declarator_tree d.now) (ctype_of t.now) span)
        scope.old result scope.new }
{
    let local = scope.locals.len() as u32;
    let kept = copied(context, t)?;
    scope.add_local(d.name.number, kept)?;
    let bounds = declared_bounds(context, scope, t, local, &d.bounds)?;
    scope.declare(bounds)?;
    from_zero(context, scope, &d.initializer, t, local, span)
}

// One local of a declaration that is no array.
fn plain_local(
    context: &Context,
    scope: &mut Scope,
    base: &TypeForm,
    t: &CType,
    span: Span,
    d: &Declarator,
) -> Result<Box<Stmt>, CheckError>
    requires { length scope.old.locals.items < scope.old.flow.vars }
    ensures { Walks statement (plain_local_of (place_at context.now) (scope_of scope.old) (type_tree base.now) (ctype_of t.now) span
        (declarator_tree d.now)) scope.old result scope.new }
{
    let given = copied(context, t)?;
    let t = without_stars(base, d.stars, given)?;
    declared(context, scope, d, &t, span)
}

// One local of a declaration.
fn declarator(
    context: &Context,
    scope: &mut Scope,
    base: &TypeForm,
    t: &CType,
    span: Span,
    d: &Declarator,
) -> Result<Box<Stmt>, CheckError>
    ensures { Walks statement (declarator_of (place_at context.now) (scope_of scope.old) (type_tree base.now) (ctype_of t.now) span
        (declarator_tree d.now)) scope.old result scope.new }
{
    few_locals(scope, span)?;
    match d.array {
        None => plain_local(context, scope, base, t, span, d),
        Some(array) => array_local(context, scope, base, t, span, d, array.length),
    }
}

// The locals of a declaration.
fn declarators(
    context: &Context,
    scope: &mut Scope,
    base: &TypeForm,
    t: &CType,
    span: Span,
    ds: &[Declarator],
) -> Result<Box<Stmt>, CheckError>
    ensures { Walks statement (declarators_of (place_at context.now) (scope_of scope.old) (type_tree base.now) (ctype_of t.now) span
        (map declarator_tree ds.now)) scope.old result scope.new }
{
    match ds {
        [] => Ok(nothing(context)?),
        [first, others @ ..] => {
            let first = declarator(context, scope, base, t, span, first)?;
            let rest = declarators(context, scope, base, t, span, others)?;
            Ok(both(context, first, rest)?)
        }
    }
}

/// A declaration of locals.
pub fn declaration(
    context: &Context,
    scope: &mut Scope,
    d: &Declaration,
) -> Result<Box<Stmt>, CheckError>
    ensures { Walks statement (declaration_of (place_at context.now) (scope_of scope.old) (declaration_tree d.now)) scope.old result scope.new }
{
    few_locals(scope, d.span)?;
    let elements = first_length(d.declarators.as_slice());
    needs(is_length(elements), Code::E08, d.span)?;
    let t = base_type(context, scope, &d.base)?;
    declarators(
        context,
        scope,
        &d.base,
        &t,
        d.span,
        d.declarators.as_slice(),
    )
}
