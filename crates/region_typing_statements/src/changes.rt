// Where a body first assigns a parameter that the bounds of its function's result name.

ghost use Rattle.std.specs.Prelude.{◌≡◌, Some, length, map, IfOk, OnOk};
ghost use Rattle.std.specs.Option.{option_map};
ghost use Rattle.ckc_tree.specs.Expressions.{expression as expression_tree};
ghost use Rattle.ckc_tree.specs.Statements.{assignment as assignment_tree, for_initial as initial_tree, statement as statement_tree};
ghost use Rattle.ckc_tree.specs.Items.{statement_list};
ghost use Rattle.region_typing_rules.specs.Items.{names};
ghost use Rattle.region_typing_rules.specs.KeptParameters.{first_of as first_of_two, target_changed as target_changed_of, assignment_changed as assignment_changed_of, bundle_changed as bundle_changed_of, step_changed as step_changed_of, first_changed as first_changed_of, changed as changed_of, all_changed as all_changed_of};
ghost use Rattle.region_typing_scope.specs.Views.{scope as scope_of};
ghost use Rattle.region_typing_statements.specs.Marks.{seen, turns_changed};

use crate::assigned::{hide_by, hide_first};
use bounds_exprs::term::Bounds;
use ckc_text::fault::NoMemory;
use ckc_text::place::Span;
use ckc_tree::expr::Expr;
use ckc_tree::stmt::{Assignment, ForInitial, Stmt};
use region_typing_scope::context::Context;
use region_typing_scope::scope::Scope;
use region_typing_scope::visible::{Visible, innermost};

// What stands first, or else what stands later.
fn first_of(first: Option<Span>, later: Option<Span>) -> Option<Span>
    ensures { result ≡ first_of_two first later }
{
    match first {
        None => later,
        Some(span) => Some(span),
    }
}

// Where a local is assigned that the bounds name.
fn target_changed(bounds: &Bounds, visible: &[Visible], target: &Expr, span: Span) -> Option<Span>
    ensures { result ≡ target_changed_of (names (Some bounds.now)) (seen visible.now) (expression_tree target.now) span }
{
    if let Expr::Name { name } = target {
        if let Some(local) = innermost(visible, name.number) {
            if bounds.names(local) {
                return Some(span);
            }
        }
    }
    None
}

// Where an assignment assigns such a local.
fn assignment_changed(bounds: &Bounds, visible: &[Visible], written: &Assignment) -> Option<Span>
    ensures { result ≡ assignment_changed_of (names (Some bounds.now)) (seen visible.now) (assignment_tree written.now) }
{
    match written {
        Assignment::Store { target, span, .. } => target_changed(bounds, visible, target, *span),
        Assignment::Step { target, span, .. } => target_changed(bounds, visible, target, *span),
    }
}

// Where the first one of assignments assigns such a local.
fn bundle_changed(bounds: &Bounds, visible: &[Visible], written: &[Assignment]) -> Option<Span>
    ensures { result ≡ bundle_changed_of (names (Some bounds.now)) (seen visible.now) (map assignment_tree written.now) }
{
    for listed in written {
        let changed = assignment_changed(bounds, visible, listed);
        if changed.is_some() {
            return changed;
        }
    }
    None
}

// Where an assignment assigns such a local, if there is one.
fn step_changed(bounds: &Bounds, visible: &[Visible], step: &Option<Assignment>) -> Option<Span>
    ensures { result ≡ step_changed_of (names (Some bounds.now)) (seen visible.now) (option_map assignment_tree step.now) }
{
    match step {
        None => None,
        Some(step) => assignment_changed(bounds, visible, step),
    }
}

// Where what stands first in the head of a `for` assigns such a local.
fn first_changed(bounds: &Bounds, visible: &[Visible], initial: &ForInitial) -> Option<Span>
    ensures { result ≡ first_changed_of (names (Some bounds.now)) (seen visible.now) (initial_tree initial.now) }
{
    match initial {
        ForInitial::Nothing | ForInitial::Declare { .. } => None,
        ForInitial::Assign { assignment } => assignment_changed(bounds, visible, assignment),
    }
}

// Where a statement first assigns such a local.
#[cycle(changes)]
fn changed(
    written: &Stmt,
    bounds: &Bounds,
    beyond: u32,
    visible: &mut Vec<Visible>,
) -> Result<Option<Span>, NoMemory>
    ensures changed { IfOk result (λ span. span ≡ changed_of (names (Some bounds.now)) beyond (seen visible.old.items) (statement_tree written.now)) }
    ensures kept { OnOk result (visible.new.items ≡ visible.old.items) }
{
    match written {
        Stmt::Block { statements, .. } => {
            all_changed(statements.as_slice(), bounds, beyond, visible)
        }
        Stmt::Bundle { assignments, .. } => {
            let names = visible.as_slice();
            Ok(bundle_changed(bounds, names, assignments.as_slice()))
        }
        Stmt::Assign { assignment, .. } => {
            Ok(assignment_changed(bounds, visible.as_slice(), assignment))
        }
        Stmt::If {
            consequent,
            alternative,
            ..
        } => {
            let first = changed(consequent, bounds, beyond, visible)?;
            match alternative {
                None => Ok(first),
                Some(alternative) => {
                    let later = changed(alternative, bounds, beyond, visible)?;
                    Ok(first_of(first, later))
                }
            }
        }
        Stmt::While { body, .. } => changed(body, bounds, beyond, visible),
        Stmt::For {
            initial,
            step,
            body,
            ..
        } => turns_change(body, bounds, beyond, initial, step, visible),
        _ => Ok(None),
    }
}

// Where a `for` first assigns such a local.
#[cycle(changes)]
fn turns_change(
    body: &Stmt,
    bounds: &Bounds,
    beyond: u32,
    initial: &ForInitial,
    step: &Option<Assignment>,
    visible: &mut Vec<Visible>,
) -> Result<Option<Span>, NoMemory>
    ensures changed { IfOk result (λ span. span ≡ turns_changed (names (Some bounds.now)) beyond (seen visible.old.items)
        (initial_tree initial.now) (option_map assignment_tree step.now) (statement_tree body.now)) }
    ensures kept { OnOk result (visible.new.items ≡ visible.old.items) }
{
    let outside = visible.len();
    let first = first_changed(bounds, visible.as_slice(), initial);
    hide_first(visible, beyond, initial)?;
    let stepped = step_changed(bounds, visible.as_slice(), step);
    let later = changed(body, bounds, beyond, visible)?;
    visible.truncate(outside);
    Ok(first_of(first, first_of(stepped, later)))
}

// Where the statements of a block first assign such a local.
#[cycle(changes)]
fn all_changed(
    written: &[Stmt],
    bounds: &Bounds,
    beyond: u32,
    visible: &mut Vec<Visible>,
) -> Result<Option<Span>, NoMemory>
    ensures changed { IfOk result (λ span. span ≡ all_changed_of (names (Some bounds.now)) beyond (seen visible.old.items) (statement_list written.now)) }
    ensures kept { OnOk result (visible.new.items ≡ visible.old.items) }
{
    let outside = visible.len();
    let mut first = None;
    for listed in written {
        let later = changed(listed, bounds, beyond, visible)?;
        first = first_of(first, later);
        hide_by(visible, beyond, listed)?;
    }
    visible.truncate(outside);
    Ok(first)
}

/// Where the body of a function, as it is entered, first assigns a parameter that the bounds of the result name. A name that is
/// declared in the body stands for none of them.
pub fn first_change(
    context: &Context,
    scope: &Scope,
    written: &[Stmt],
) -> Result<Option<Span>, NoMemory>
    ensures { IfOk result (λ span. span ≡ all_changed_of (names (scope_of scope.now).result_bounds) (length (scope_of scope.now).locals)
        (scope_of scope.now).visible (statement_list written.now)) }
{
    match &scope.result_bounds {
        None => Ok(None),
        Some(bounds) => {
            let beyond = scope.locals.len() as u32;
            let mut visible = Vec::from_slice(context.alloc(), scope.visible.as_slice())?;
            all_changed(written, bounds, beyond, &mut visible)
        }
    }
}
