// The names in statements.

ghost use Rattle.std.specs.Prelude.{◌++◌};
ghost use Rattle.std.specs.Option.{option_map};
ghost use Rattle.ckc_tree.specs.Statements.{assignment as assignment_of, for_initial as initial_of, on_heap, statement as statement_of};
ghost use Rattle.ckc_names_rules.specs.Mentions.{optional_mentions, expression_mentions, assignment_mentions, for_initial_mentions, in_block, statement_mentions};
ghost use Rattle.ckc_names.specs.Slices.{block_mentions};
ghost use Rattle.ckc_names.specs.Progress.{Passes};

use crate::declarations::{
    assignment, assignments, declaration, optional_assignment, optional_expression,
};
use crate::expressions::expression;
use crate::resolver::Resolver;
use ckc_tree::expr::Expr;
use ckc_tree::stmt::{Assignment, ForInitial, Stmt};

// What stands first in the head of a `for`.
fn for_initial(resolver: &mut Resolver, written: &ForInitial)
    ensures { Passes (for_initial_mentions (initial_of written.now)) resolver.old resolver.new }
{
    match written {
        ForInitial::Nothing => {}
        ForInitial::Declare { declaration: first } => declaration(resolver, first),
        ForInitial::Assign { assignment: first } => assignment(resolver, first),
    }
}

// The names in the head of a `for`.
fn head(
    resolver: &mut Resolver,
    initial: &ForInitial,
    condition: &Option<Box<Expr>>,
    step: &Option<Assignment>,
)
    ensures { Passes (for_initial_mentions (initial_of initial.now) ++ (optional_mentions expression_mentions
        (option_map on_heap condition.now) ++ optional_mentions assignment_mentions (option_map assignment_of step.now))) resolver.old
        resolver.new }
{
    for_initial(resolver, initial);
    optional_expression(resolver, condition);
    optional_assignment(resolver, step);
}

/// The names in a statement.
#[cycle(statements)]
pub fn statement(resolver: &mut Resolver, written: &Stmt)
    ensures { Passes (statement_mentions (statement_of written.now)) resolver.old resolver.new }
{
    match written {
        Stmt::Block {
            statements: inner,
            ..
        } => {
            resolver.open();
            statements(resolver, inner.as_slice());
            resolver.close();
        }
        Stmt::Bundle {
            assignments: inner,
            ..
        } => assignments(resolver, inner.as_slice()),
        Stmt::Declare {
            declaration: inner,
            ..
        } => declaration(resolver, inner),
        Stmt::Assign {
            assignment: inner,
            ..
        } => assignment(resolver, inner),
        Stmt::Call { call, .. } => expression(resolver, call),
        Stmt::If {
            condition,
            consequent,
            alternative,
            ..
        } => match alternative {
            None => {
                expression(resolver, condition);
                nested(resolver, consequent);
            }
            Some(alternative) => {
                expression(resolver, condition);
                nested(resolver, consequent);
                nested(resolver, alternative);
            }
        },
        Stmt::While {
            condition,
            body,
            ..
        } => {
            expression(resolver, condition);
            nested(resolver, body);
        }
        Stmt::For {
            initial,
            condition,
            step,
            body,
            ..
        } => {
            resolver.open();
            head(resolver, initial, condition, step);
            nested(resolver, body);
            resolver.close();
        }
        Stmt::Return { value, .. } => optional_expression(resolver, value),
        Stmt::Empty { .. } | Stmt::Break { .. } | Stmt::Continue { .. } => {}
    }
}

// The names in a statement that is a block of its own.
#[cycle(statements)]
fn nested(resolver: &mut Resolver, written: &Stmt)
    ensures { Passes (in_block (statement_mentions (statement_of written.now))) resolver.old resolver.new }
{
    resolver.open();
    statement(resolver, written);
    resolver.close();
}

/// The names in statements, in their order.
#[cycle(statements)]
pub fn statements(resolver: &mut Resolver, written: &[Stmt])
    ensures { Passes (block_mentions written.now) resolver.old resolver.new }
{
    for listed in written {
        statement(resolver, listed);
    }
}
