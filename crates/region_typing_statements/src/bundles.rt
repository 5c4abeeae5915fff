// Bundles of assignments.

ghost use Rattle.std.specs.Prelude.{◌≡◌, ◌∷◌, [], map};
ghost use Rattle.std.specs.List.{list_all};
ghost use Rattle.ckc_text.specs.Places.{place_at};
ghost use Rattle.ckc_tree.specs.Statements.{assignment as assignment_tree};
ghost use Rattle.ckc_core.specs.Core.{statements_of};
ghost use Rattle.region_typing_rules.specs.Statements.{are_locals as are_locals_in, bundle as bundle_in};
ghost use Rattle.region_typing_scope.specs.OnHeap.{statement as statement_of};
ghost use Rattle.region_typing_scope.specs.Views.{scope as scope_of};
ghost use Rattle.region_typing_statements.specs.Marks.{seen};
ghost use Rattle.region_typing_statements.specs.Parts.{unsettled_assignment as unsettled_in, unsettled};
ghost use Rattle.region_typing_statements.specs.Walks.{Walks};

use crate::core_forms::{block, push};
use ckc_core::program::Stmt;
use ckc_text::code::Code;
use ckc_text::place::Span;
use ckc_tree::expr::Expr;
use ckc_tree::stmt::Assignment;
use region_typing_expressions::assignments::assignment;
use region_typing_scope::context::Context;
use region_typing_scope::refusals::{CheckError, needs};
use region_typing_scope::scope::Scope;
use region_typing_scope::visible::{Visible, innermost};

// Whether an assignment is one to a local.
fn is_to_local(visible: &[Visible], written: &Assignment) -> bool
    ensures { result ≡ are_locals_in (seen visible.now) (assignment_tree written.now ∷ []) }
{
    let target = match written {
        Assignment::Store { target, .. } => target,
        Assignment::Step { target, .. } => target,
    };
    match &**target {
        Expr::Name { name } => innermost(visible, name.number).is_some(),
        _ => false,
    }
}

// Whether all of these assign locals.
fn are_locals(visible: &[Visible], written: &[Assignment]) -> bool
    ensures { result ≡ list_all (λ a. are_locals_in (seen visible.now) (assignment_tree a ∷ [])) written.now }
{
    written.iter().all(|a| is_to_local(visible, a))
}

// An assignment, and what it makes known, which isn't settled.
fn unsettled_assignment(
    context: &Context,
    scope: &mut Scope,
    written: &Assignment,
) -> Result<Box<Stmt>, CheckError>
    ensures { Walks statement_of (unsettled_in (place_at context.now) (scope_of scope.old) (assignment_tree written.now)) scope.old result scope.new }
{
    let built = assignment(context, scope, written)?;
    scope.assign(&built)?;
    Ok(built)
}

// Assignments in their order, of which none is settled.
fn assignments(
    context: &Context,
    scope: &mut Scope,
    written: &[Assignment],
) -> Result<Vec<Stmt>, CheckError>
    ensures { Walks (λ v. statements_of v.items) (unsettled (place_at context.now) (scope_of scope.old) (map assignment_tree written.now))
        scope.old result scope.new }
{
    let mut built = Vec::new(context.alloc());
    for listed in written {
        let next = unsettled_assignment(context, scope, listed)?;
        push(&mut built, next)?;
    }
    Ok(built)
}

/// A bundle at a span: its assignments, which are to locals (E21), and the settling of them all (E20, E17).
pub fn bundle(
    context: &Context,
    scope: &mut Scope,
    written: &[Assignment],
    span: Span,
) -> Result<Box<Stmt>, CheckError>
    ensures { Walks statement_of (bundle_in (place_at context.now) (scope_of scope.old) (map assignment_tree written.now) span) scope.old result scope.new }
{
    scope.begin_bundle();
    let built = assignments(context, scope, written)?;
    let to_locals = are_locals(scope.visible.as_slice(), written);
    needs(to_locals, Code::E21, span)?;
    scope.end_bundle(span)?;
    Ok(block(context, built)?)
}
