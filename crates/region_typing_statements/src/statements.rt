// Statements.

ghost use Rattle.std.specs.Prelude.{◌≡◌, ◌≤◌, length, IfOk, OnOk};
ghost use Rattle.std.specs.Option.{option_map};
ghost use Rattle.ckc_text.specs.Places.{place_at};
ghost use Rattle.ckc_tree.specs.Expressions.{expression as expression_tree};
ghost use Rattle.ckc_tree.specs.Statements.{on_heap, assignment as assignment_tree, for_initial as initial_tree, statement as statement_tree, Block};
ghost use Rattle.ckc_tree.specs.Items.{statement_list};
ghost use Rattle.ckc_core.specs.Core.{statements_of, Loop};
ghost use Rattle.region_typing_rules.specs.Verdicts.{Passes};
ghost use Rattle.region_typing_rules.specs.Knowing.{at_loop, knowing};
ghost use Rattle.region_typing_rules.specs.Statements.{statement as statement_in, statements as statements_in};
ghost use Rattle.region_typing_scope.specs.Views.{scope as scope_of};
ghost use Rattle.region_typing_scope.specs.OnHeap.{expression as expression_of, statement as statement_of};
ghost use Rattle.region_typing_scope.specs.Tracked.{HasVars};
ghost use Rattle.region_typing_statements.specs.Walks.{Walks};
ghost use Rattle.region_typing_statements.specs.Parts.{IsStructured, nested as nested_in, branched, guarded as guarded_in, then_branch as branch_in, branch_ended as branch_ended_in, if_alone as if_in, otherwise as otherwise_in, turns as turns_in, step_behind as step_behind_in, over, while_loop as while_in, for_loop as for_in};

use crate::assigned::assigned_in;
use crate::bundles::bundle;
use crate::core_forms;
use crate::core_forms::{both, choice, nothing, push, repeated};
use crate::declarations::declaration;
use crate::heads::{first_part, optional_condition, optional_step};
use crate::marks::is_checked;
use crate::simple_statements::{assign, break_from, call_alone, continue_with, return_from};
use bounds_flow::flow::Flow;
use ckc_core::program::{Expr, Stmt};
use ckc_text::code::Code;
use ckc_text::fault::NoMemory;
use ckc_text::place::Span;
use ckc_tree::stmt::{Assignment, ForInitial, Mark};
use ckc_tree::{expr, stmt};
use region_typing_expressions::assignments::condition;
use region_typing_scope::context::Context;
use region_typing_scope::refusals::{CheckError, needs};
use region_typing_scope::scope::{Scope, Ways};

/// A statement.
#[cycle(statements)]
pub fn statement(
    context: &Context,
    scope: &mut Scope,
    written: &stmt::Stmt,
) -> Result<Box<Stmt>, CheckError>
    ensures { Walks statement_of (statement_in (place_at context.now) (scope_of scope.old) (statement_tree written.now)) scope.old result scope.new }
{
    match written {
        stmt::Stmt::Block { .. }
        | stmt::Stmt::If { .. }
        | stmt::Stmt::While { .. }
        | stmt::Stmt::For { .. } => structured(context, scope, written),
        stmt::Stmt::Bundle { assignments, span } => {
            bundle(context, scope, assignments.as_slice(), *span)
        }
        stmt::Stmt::Declare {
            declaration: written,
            ..
        } => declaration(context, scope, written),
        stmt::Stmt::Assign {
            assignment: written,
            ..
        } => assign(context, scope, written),
        stmt::Stmt::Call { call, .. } => call_alone(context, scope, call),
        stmt::Stmt::Empty { .. } => Ok(nothing(context)?),
        stmt::Stmt::Return { value, span } => return_from(context, scope, value, *span),
        stmt::Stmt::Break { span } => break_from(context, scope, *span),
        stmt::Stmt::Continue { span } => continue_with(context, scope, *span),
    }
}

// A statement that has statements.
#[cycle(statements)]
fn structured(
    context: &Context,
    scope: &mut Scope,
    written: &stmt::Stmt,
) -> Result<Box<Stmt>, CheckError>
    requires { IsStructured written.now }
    ensures { Walks statement_of (statement_in (place_at context.now) (scope_of scope.old) (statement_tree written.now)) scope.old result scope.new }
{
    match written {
        stmt::Stmt::Block {
            mark,
            statements: inner,
            span,
        } => block(context, scope, inner.as_slice(), *mark, *span),
        stmt::Stmt::If {
            condition: test,
            consequent,
            alternative,
            ..
        } => match alternative {
            None => if_alone(context, scope, consequent, test),
            Some(alternative) => {
                let around = scope.in_loop;
                let first = then_branch(context, scope, consequent, around, test)?;
                otherwise(context, scope, alternative, first)
            }
        },
        stmt::Stmt::While {
            condition: test,
            body,
            ..
        } => while_loop(context, scope, body, test),
        stmt::Stmt::For {
            initial,
            condition: test,
            step,
            body,
            ..
        } => for_loop(context, scope, body, initial, test, step),
        _ => unreachable!(),
    }
}

// A block.
#[cycle(statements)]
fn block(
    context: &Context,
    scope: &mut Scope,
    inner: &[stmt::Stmt],
    mark: Option<Mark>,
    span: Span,
) -> Result<Box<Stmt>, CheckError>
    ensures { Walks statement_of (statement_in (place_at context.now) (scope_of scope.old) (Block mark (statement_list inner.now) span))
        scope.old result scope.new }
{
    let start = scope.block_start();
    let checked = is_checked(scope, mark);
    let built = statements(context, scope, inner)?;
    scope.leave(start)?;
    needs(checked, Code::E15, span)?;
    Ok(core_forms::block(context, built)?)
}

/// A condition with the statement that runs where it holds, and what is known where it doesn't.
#[derive(Drop)]
pub struct Branch {
    pub condition: Box<Expr>,
    pub consequent: Box<Stmt>,
    pub otherwise: Flow,
}

// Goes the way on which the condition doesn't hold. What was known here takes the place of what is known there.
fn turned(scope: &mut Scope, first: Branch) -> Branch
    requires { first.otherwise.vars ≡ scope.old.flow.vars }
    ensures kept { result ≡ record first { otherwise = scope.old.flow } }
    ensures known { scope_of scope.new ≡ knowing first.otherwise (scope_of scope.old) }
    ensures seen { scope.new.visible.items ≡ scope.old.visible.items }
    ensures size { scope.new.flow.vars ≡ scope.old.flow.vars }
{
    let Branch {
        condition,
        consequent,
        otherwise,
    } = first;
    let otherwise = scope.turn_to(otherwise);
    Branch {
        condition,
        consequent,
        otherwise,
    }
}

// A branch with its alternative, behind which its ways meet.
fn branch_ended(
    context: &Context,
    scope: &mut Scope,
    first: Branch,
    alternative: Box<Stmt>,
) -> Result<Box<Stmt>, CheckError>
    requires { first.otherwise.vars ≡ scope.old.flow.vars }
    ensures { Walks statement_of (branch_ended_in (branched first) (statement_of alternative, scope_of scope.old)) scope.old result scope.new }
{
    let Branch {
        condition,
        consequent,
        otherwise,
    } = first;
    scope.meet(otherwise)?;
    Ok(choice(context, condition, consequent, alternative)?)
}

// Comes to the head of a loop, and gives what is known of the loop around.
fn loop_head(
    context: &Context,
    scope: &mut Scope,
    body: &stmt::Stmt,
    step: &Option<Assignment>,
) -> Result<Ways, NoMemory>
    ensures known { OnOk result (scope_of scope.new ≡ at_loop (statement_tree body.now) (option_map assignment_tree step.now) (scope_of scope.old)) }
    ensures around { IfOk result (λ ways. ways ≡ record { outside = scope.old.outside; breaks = scope.old.breaks; continues = scope.old.continues }) }
    ensures few { IfOk result (λ ways. ways.outside ≤ length scope.old.locals.items) }
    ensures seen { OnOk result (scope.new.visible.items ≡ scope.old.visible.items) }
    ensures size { OnOk result (scope.new.flow.vars ≡ scope.old.flow.vars) }
{
    let assigned = assigned_in(context, scope, body, step)?;
    scope.enter_loop(assigned.as_slice())
}

// What follows each turn of a loop, behind its body, whose end meets its `continue`s.
fn step_behind(
    context: &Context,
    scope: &mut Scope,
    step: &Option<Assignment>,
) -> Result<Box<Stmt>, CheckError>
    ensures { Walks statement_of (step_behind_in (place_at context.now) (scope_of scope.old) (option_map assignment_tree step.now)) scope.old result scope.new }
{
    scope.end_turn()?;
    optional_step(context, scope, step)
}

// A loop of its turns and what follows each, behind which the loop around is the innermost one again.
fn loop_ended(
    context: &Context,
    scope: &mut Scope,
    around: Ways,
    turn: Branch,
    step: Box<Stmt>,
) -> Result<Box<Stmt>, CheckError>
    requires outside { around.outside ≤ length scope.old.locals.items }
    requires size { turn.otherwise.vars ≡ scope.old.flow.vars }
    requires breaks { HasVars scope.old.flow.vars around.breaks }
    requires continues { HasVars scope.old.flow.vars around.continues }
    ensures { Walks statement_of (Passes (
      Loop (expression_of turn.condition) (statement_of turn.consequent) (statement_of step),
      over
          around.outside turn.otherwise around.breaks around.continues (scope_of scope.old),
    )) scope.old result scope.new }
{
    let Branch {
        condition,
        consequent,
        otherwise,
    } = turn;
    scope.leave_loop(otherwise, around)?;
    Ok(repeated(context, condition, consequent, step)?)
}

// A statement that runs where a condition holds, in a loop or not.
#[cycle(statements)]
fn guarded(
    context: &Context,
    scope: &mut Scope,
    written: &stmt::Stmt,
    in_loop: bool,
    condition: Box<Expr>,
) -> Result<Branch, CheckError>
    ensures walks { Walks branched (guarded_in (place_at context.now) (scope_of scope.old) in_loop (expression_of condition)
        (statement_tree written.now)) scope.old result scope.new }
    ensures size { IfOk result (λ b. b.otherwise.vars ≡ scope.new.flow.vars) }
{
    let otherwise = scope.part(&condition)?;
    let consequent = nested(context, scope, in_loop, written)?;
    Ok(Branch {
        condition,
        consequent,
        otherwise,
    })
}

// A condition with the statement that runs where it holds, in a loop or not.
#[cycle(statements)]
fn then_branch(
    context: &Context,
    scope: &mut Scope,
    consequent: &stmt::Stmt,
    in_loop: bool,
    test: &expr::Expr,
) -> Result<Branch, CheckError>
    ensures walks { Walks branched (branch_in (place_at context.now) (scope_of scope.old) in_loop (expression_tree test.now)
        (statement_tree consequent.now)) scope.old result scope.new }
    ensures size { IfOk result (λ b. b.otherwise.vars ≡ scope.new.flow.vars) }
{
    let condition = condition(context, scope, test)?;
    guarded(context, scope, consequent, in_loop, condition)
}

// A branch alone.
#[cycle(statements)]
fn if_alone(
    context: &Context,
    scope: &mut Scope,
    consequent: &stmt::Stmt,
    test: &expr::Expr,
) -> Result<Box<Stmt>, CheckError>
    ensures { Walks statement_of (if_in (place_at context.now) (scope_of scope.old) (expression_tree test.now)
        (statement_tree consequent.now)) scope.old result scope.new }
{
    let around = scope.in_loop;
    let first = then_branch(context, scope, consequent, around, test)?;
    let nothing = nothing(context)?;
    branch_ended(context, scope, first, nothing)
}

// The alternative of a branch.
#[cycle(statements)]
fn otherwise(
    context: &Context,
    scope: &mut Scope,
    alternative: &stmt::Stmt,
    first: Branch,
) -> Result<Box<Stmt>, CheckError>
    requires { first.otherwise.vars ≡ scope.old.flow.vars }
    ensures { Walks statement_of (otherwise_in (place_at context.now) (branched first, scope_of scope.old) (statement_tree alternative.now))
        scope.old result scope.new }
{
    let around = scope.in_loop;
    let walked = turned(scope, first);
    let second = nested(context, scope, around, alternative)?;
    branch_ended(context, scope, walked, second)
}

// A loop with a condition alone.
#[cycle(statements)]
fn while_loop(
    context: &Context,
    scope: &mut Scope,
    body: &stmt::Stmt,
    test: &expr::Expr,
) -> Result<Box<Stmt>, CheckError>
    ensures { Walks statement_of (while_in (place_at context.now) (scope_of scope.old) (expression_tree test.now) (statement_tree body.now))
        scope.old result scope.new }
{
    let nothing = nothing(context)?;
    let around = loop_head(context, scope, body, &None)?;
    let turn = then_branch(context, scope, body, true, test)?;
    loop_ended(context, scope, around, turn, nothing)
}

// A loop with a head.
#[cycle(statements)]
fn for_loop(
    context: &Context,
    scope: &mut Scope,
    body: &stmt::Stmt,
    initial: &ForInitial,
    test: &Option<Box<expr::Expr>>,
    step: &Option<Assignment>,
) -> Result<Box<Stmt>, CheckError>
    ensures { Walks statement_of (for_in (place_at context.now) (scope_of scope.old) (initial_tree initial.now)
        (option_map on_heap test.now) (option_map assignment_tree step.now) (statement_tree body.now)) scope.old result scope.new }
{
    let start = scope.block_start();
    let first = first_part(context, scope, initial)?;
    let turns = turns(context, scope, body, test, step)?;
    scope.leave(start)?;
    Ok(both(context, first, turns)?)
}

// The turns of a loop with a head.
#[cycle(statements)]
fn turns(
    context: &Context,
    scope: &mut Scope,
    body: &stmt::Stmt,
    test: &Option<Box<expr::Expr>>,
    step: &Option<Assignment>,
) -> Result<Box<Stmt>, CheckError>
    ensures { Walks statement_of (turns_in (place_at context.now) (scope_of scope.old) (statement_tree body.now)
        (option_map on_heap test.now) (option_map assignment_tree step.now)) scope.old result scope.new }
{
    let around = loop_head(context, scope, body, step)?;
    let test = optional_condition(context, scope, test)?;
    let turn = guarded(context, scope, body, true, test)?;
    let step = step_behind(context, scope, step)?;
    loop_ended(context, scope, around, turn, step)
}

// A statement whose locals are gone behind it.
#[cycle(statements)]
fn nested(
    context: &Context,
    scope: &mut Scope,
    in_loop: bool,
    written: &stmt::Stmt,
) -> Result<Box<Stmt>, CheckError>
    ensures { Walks statement_of (nested_in (place_at context.now) (scope_of scope.old) in_loop (statement_tree written.now)) scope.old result scope.new }
{
    let start = scope.block_start();
    scope.set_in_loop(in_loop);
    let inner = statement(context, scope, written)?;
    scope.leave(start)?;
    Ok(inner)
}

/// Statements, in their order.
#[cycle(statements)]
pub fn statements(
    context: &Context,
    scope: &mut Scope,
    written: &[stmt::Stmt],
) -> Result<Vec<Stmt>, CheckError>
    ensures { Walks (λ v. statements_of v.items) (statements_in (place_at context.now) (scope_of scope.old) (statement_list written.now))
        scope.old result scope.new }
{
    let mut built = Vec::new(context.alloc());
    for listed in written {
        let next = statement(context, scope, listed)?;
        push(&mut built, next)?;
    }
    Ok(built)
}
