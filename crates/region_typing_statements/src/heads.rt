// What stands in the heads of statements.

ghost use Rattle.std.specs.Option.{option_map};
ghost use Rattle.ckc_text.specs.Places.{place_at};
ghost use Rattle.ckc_tree.specs.Statements.{on_heap, assignment as assignment_tree, for_initial as initial_tree};
ghost use Rattle.region_typing_rules.specs.Statements.{optional_condition as optional_condition_of, optional_step as optional_step_of, first_part as first_part_of};
ghost use Rattle.region_typing_scope.specs.Answering.{Answers};
ghost use Rattle.region_typing_scope.specs.Views.{scope as scope_of};
ghost use Rattle.region_typing_scope.specs.OnHeap.{expression, statement};
ghost use Rattle.region_typing_statements.specs.Walks.{Walks};

use crate::core_forms::nothing;
use crate::declarations::declaration;
use crate::simple_statements::assign;
use ckc_core::program::{Expr, Stmt};
use ckc_tree::expr;
use ckc_tree::stmt::{Assignment, ForInitial};
use region_typing_expressions::assignments::condition;
use region_typing_scope::context::Context;
use region_typing_scope::refusals::CheckError;
use region_typing_scope::scope::Scope;

/// The condition of a loop, which holds where it isn't written.
pub fn optional_condition(
    context: &Context,
    scope: &Scope,
    written: &Option<Box<expr::Expr>>,
) -> Result<Box<Expr>, CheckError>
    ensures { Answers expression (optional_condition_of (place_at context.now) (scope_of scope.now) (option_map on_heap written.now)) result }
{
    match written {
        None => Ok(context.boxed(Expr::Number(1))?),
        Some(written) => condition(context, scope, written),
    }
}

/// What follows each turn of a loop.
pub fn optional_step(
    context: &Context,
    scope: &mut Scope,
    written: &Option<Assignment>,
) -> Result<Box<Stmt>, CheckError>
    ensures { Walks statement (optional_step_of (place_at context.now) (scope_of scope.old) (option_map assignment_tree written.now))
        scope.old result scope.new }
{
    match written {
        None => Ok(nothing(context)?),
        Some(written) => assign(context, scope, written),
    }
}

/// What stands first in the head of a `for`.
pub fn first_part(
    context: &Context,
    scope: &mut Scope,
    written: &ForInitial,
) -> Result<Box<Stmt>, CheckError>
    ensures { Walks statement (first_part_of (place_at context.now) (scope_of scope.old) (initial_tree written.now)) scope.old result scope.new }
{
    match written {
        ForInitial::Nothing => Ok(nothing(context)?),
        ForInitial::Declare {
            declaration: written,
        } => declaration(context, scope, written),
        ForInitial::Assign {
            assignment: written,
        } => assign(context, scope, written),
    }
}
