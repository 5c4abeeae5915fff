// Statements that have no statements.

ghost use Rattle.std.specs.Prelude.{◌≡◌, IfOk};
ghost use Rattle.std.specs.Option.{option_map};
ghost use Rattle.ckc_text.specs.Places.{place_at};
ghost use Rattle.ckc_tree.specs.Expressions.{expression as expression_tree};
ghost use Rattle.ckc_tree.specs.Statements.{on_heap, assignment as assignment_tree};
ghost use Rattle.pointer_modes.specs.Types.{ctype as ctype_of};
ghost use Rattle.ckc_text.specs.declared.code.Code.TheVariants.{E30};
ghost use Rattle.ckc_core.specs.Core.{Break, Continue};
ghost use Rattle.region_typing_rules.specs.Verdicts.{Passes, passing, needs as needs_in};
ghost use Rattle.region_typing_rules.specs.Knowing.{cut, broken, continued};
ghost use Rattle.region_typing_rules.specs.Statements.{return as return_of, returned_nothing as nothing_as, alone as alone_of, assigning};
ghost use Rattle.region_typing_scope.specs.Answering.{Answers};
ghost use Rattle.region_typing_scope.specs.Views.{scope as scope_of};
ghost use Rattle.region_typing_expressions.specs.Calls.{called as called_as};
ghost use Rattle.region_typing_scope.specs.OnHeap.{statement};
ghost use Rattle.region_typing_statements.specs.Parts.{call_statement, value_returned as value_returned_in, converted_return, refused_value as refused_value_in};
ghost use Rattle.region_typing_statements.specs.Walks.{Walks};

use ckc_core::program::Stmt;
use ckc_text::code::Code;
use ckc_text::fault::NoMemory;
use ckc_text::place::Span;
use ckc_tree::expr::Expr;
use ckc_tree::stmt::Assignment;
use pointer_modes::ctype::CType;
use region_typing_expressions::assignments::assignment;
use region_typing_expressions::calls::Called;
use region_typing_expressions::expressions::{call_typed, typed};
use region_typing_scope::context::Context;
use region_typing_scope::conversions::fitted;
use region_typing_scope::refusals::{CheckError, needs, refusal};
use region_typing_scope::scope::Scope;

// A call whose result is left.
fn alone(context: &Context, call: Called) -> Result<Box<Stmt>, NoMemory>
    ensures { IfOk result (λ s. statement s ≡ alone_of (called_as call)) }
{
    match call {
        Called::Gives { ctype: _, value } => context.boxed(Stmt::Evaluate(value)),
        Called::GivesNothing { call } => Ok(call),
    }
}

/// A statement that is a call.
pub fn call_alone(context: &Context, scope: &Scope, call: &Expr) -> Result<Box<Stmt>, CheckError>
    ensures { Answers statement (call_statement (place_at context.now) (scope_of scope.now) (expression_tree call.now)) result }
{
    let call = call_typed(context, scope, call)?;
    Ok(alone(context, call)?)
}

// A return without a value.
fn returned_nothing(
    context: &Context,
    result_type: &Option<CType>,
    span: Span,
) -> Result<Box<Stmt>, CheckError>
    ensures { Answers statement (nothing_as (option_map ctype_of result_type.now) span) result }
{
    match result_type {
        None => Ok(context.boxed(Stmt::ReturnNothing)?),
        Some(_) => Err(refusal(Code::E13, span)),
    }
}

// A value that is returned where there is no result.
fn refused_value(
    context: &Context,
    scope: &Scope,
    written: &Expr,
    span: Span,
) -> Result<Box<Stmt>, CheckError>
    ensures { Answers statement (refused_value_in (place_at context.now) (scope_of scope.now) (expression_tree written.now) span) result }
{
    typed(context, scope, written)?;
    Err(refusal(Code::E13, span))
}

// A return of a value that converts, and whose bounds are met.
fn return_value(
    context: &Context,
    scope: &Scope,
    t: &CType,
    written: &Expr,
    span: Span,
) -> Result<Box<Stmt>, CheckError>
    ensures { Answers statement (converted_return (place_at context.now) (scope_of scope.now) (ctype_of t.now) (expression_tree written.now) span) result }
{
    let given = typed(context, scope, written)?;
    let value = fitted(context, scope, &scope.result_bounds, given, t, span)?;
    Ok(context.boxed(Stmt::Return(value))?)
}

// A return of a value, where the function has a result.
fn value_returned(
    context: &Context,
    scope: &Scope,
    written: &Expr,
    span: Span,
) -> Result<Box<Stmt>, CheckError>
    ensures { Answers statement (value_returned_in (place_at context.now) (scope_of scope.now) (scope_of scope.now).result
        (expression_tree written.now) span) result }
{
    match &scope.result {
        None => refused_value(context, scope, written, span),
        Some(t) => return_value(context, scope, t, written, span),
    }
}

// What a return becomes, which has a value where the function has a result.
fn returned(
    context: &Context,
    scope: &Scope,
    written: &Option<Box<Expr>>,
    span: Span,
) -> Result<Box<Stmt>, CheckError>
    ensures { Answers statement (return_of (place_at context.now) (scope_of scope.now) (option_map on_heap written.now) span) result }
{
    match written {
        None => returned_nothing(context, &scope.result, span),
        Some(written) => value_returned(context, scope, written, span),
    }
}

/// A return, behind which no way leads on.
pub fn return_from(
    context: &Context,
    scope: &mut Scope,
    written: &Option<Box<Expr>>,
    span: Span,
) -> Result<Box<Stmt>, CheckError>
    ensures { Walks statement (passing (return_of (place_at context.now) (scope_of scope.old) (option_map on_heap written.now) span)
        (λ x. Passes (x, cut (scope_of scope.old)))) scope.old result scope.new }
{
    let built = returned(context, scope, written, span)?;
    scope.cut()?;
    Ok(built)
}

/// A `break`, which stands in a loop.
pub fn break_from(context: &Context, scope: &mut Scope, span: Span) -> Result<Box<Stmt>, CheckError>
    ensures { Walks statement (needs_in (scope_of scope.old).in_loop E30 span (Passes (Break, broken (scope_of scope.old)))) scope.old result scope.new }
{
    needs(scope.in_loop, Code::E30, span)?;
    scope.break_off()?;
    Ok(context.boxed(Stmt::Break)?)
}

/// A `continue`, which stands in a loop.
pub fn continue_with(
    context: &Context,
    scope: &mut Scope,
    span: Span,
) -> Result<Box<Stmt>, CheckError>
    ensures { Walks statement (needs_in (scope_of scope.old).in_loop E30 span (Passes (Continue, continued (scope_of scope.old)))) scope.old result scope.new }
{
    needs(scope.in_loop, Code::E30, span)?;
    scope.go_on()?;
    Ok(context.boxed(Stmt::Continue)?)
}

/// An assignment, and what is known behind it.
pub fn assign(
    context: &Context,
    scope: &mut Scope,
    written: &Assignment,
) -> Result<Box<Stmt>, CheckError>
    ensures { Walks statement (assigning (place_at context.now) (scope_of scope.old) (assignment_tree written.now)) scope.old result scope.new }
{
    let built = assignment(context, scope, written)?;
    scope.settle(&built, written.span())?;
    Ok(built)
}
