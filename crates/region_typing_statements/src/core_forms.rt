// Statements of the core that have statements. What is built stays behind a `Box` while more is walked.

ghost use Rattle.std.specs.Prelude.{◌≡◌, ◌++◌, ◌∷◌, [], IfOk, OnOk};
ghost use Rattle.ckc_core.specs.Core.{statements_of, Nothing, Block, If, Loop};
ghost use Rattle.region_typing_rules.specs.Statements.{both as both_of};
ghost use Rattle.region_typing_scope.specs.OnHeap.{expression as expression_of, statement as statement_of};

use ckc_core::program::{Expr, Stmt};
use ckc_text::fault::NoMemory;
use region_typing_scope::context::Context;

/// Nothing.
pub fn nothing(context: &Context) -> Result<Box<Stmt>, NoMemory>
    ensures { IfOk result (λ s. statement_of s ≡ Nothing) }
{
    context.boxed(Stmt::Nothing)
}

/// Statements in their order.
pub fn block(context: &Context, statements: Vec<Stmt>) -> Result<Box<Stmt>, NoMemory>
    ensures { IfOk result (λ s. statement_of s ≡ Block (statements_of statements.items)) }
{
    context.boxed(Stmt::Block(statements))
}

/// A statement more.
pub fn push(statements: &mut Vec<Stmt>, next: Box<Stmt>) -> Result<(), NoMemory>
    ensures { OnOk result (statements.new.items ≡ statements.old.items ++ next.value ∷ []) }
{
    statements.reserve(1)?;
    statements.push_reserved(Box::into_inner(next));
    Ok(())
}

/// Two statements in a row.
pub fn both(context: &Context, first: Box<Stmt>, second: Box<Stmt>) -> Result<Box<Stmt>, NoMemory>
    ensures { IfOk result (λ s. statement_of s ≡ both_of (statement_of first) (statement_of second)) }
{
    let mut statements = Vec::new(context.alloc());
    statements.reserve(2)?;
    statements.push_reserved(Box::into_inner(first));
    statements.push_reserved(Box::into_inner(second));
    block(context, statements)
}

/// A branch, or else another statement.
pub fn choice(
    context: &Context,
    condition: Box<Expr>,
    consequent: Box<Stmt>,
    alternative: Box<Stmt>,
) -> Result<Box<Stmt>, NoMemory>
    ensures { IfOk result (λ s. statement_of s ≡ If (expression_of condition) (statement_of consequent) (statement_of alternative)) }
{
    context.boxed(Stmt::If {
        condition,
        consequent,
        alternative,
    })
}

/// A loop with what follows each turn.
pub fn repeated(
    context: &Context,
    condition: Box<Expr>,
    body: Box<Stmt>,
    step: Box<Stmt>,
) -> Result<Box<Stmt>, NoMemory>
    ensures { IfOk result (λ s. statement_of s ≡ Loop (expression_of condition) (statement_of body) (statement_of step)) }
{
    context.boxed(Stmt::Loop {
        condition,
        body,
        step,
    })
}
