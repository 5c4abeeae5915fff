// Printing of assignments.

ghost use Rattle.std.specs.Prelude.{◌≡◌, ◌++◌, map};
ghost use Rattle.std.specs.List.{flat_map};
ghost use Rattle.ckc_tree.specs.Expressions.{expression};
ghost use Rattle.ckc_tree.specs.Statements.{assignment};
ghost use Rattle.ckc_printer.specs.Pieces.{kind_text};
ghost use Rattle.ckc_printer.specs.ExpressionPieces.{is_binary, target_pieces};
ghost use Rattle.ckc_printer.specs.StatementPieces.{store_kind, step_kind, assignment_pieces, bundled_pieces};
ghost use Rattle.ckc_printer.specs.Output.{Puts};
ghost use Rattle.ckc_printer.specs.Spaced.{spaced_text};

use crate::expressions::put_expr;
use crate::output::Output;
use crate::signs::{put, put_if};
use ckc_tree::expr::Expr;
use ckc_tree::stmt::{Assignment, StepOperator, StepSide, StoreOperator};

/// An operator that stores.
fn store_text(operator: StoreOperator) -> &'static [u8]
    ensures { result.now ≡ kind_text (store_kind operator) }
{
    match operator {
        StoreOperator::Set => b"=",
        StoreOperator::Add => b"+=",
        StoreOperator::Subtract => b"-=",
    }
}

/// An operator that adds or takes one.
fn step_text(operator: StepOperator) -> &'static [u8]
    ensures { result.now ≡ kind_text (step_kind operator) }
{
    match operator {
        StepOperator::Increment => b"++",
        StepOperator::Decrement => b"--",
    }
}

/// Whether it stands in parentheses as a target.
fn is_binary_expr(expr: &Expr) -> bool
    ensures { result ≡ is_binary (expression expr.now) }
{
    matches!(expr, Expr::Binary { .. })
}

/// What is stored to.
#[tactic(auto, using(crate::proofs::Texts::spaced_around))]
fn put_target(out: &mut Output, target: &Expr)
    ensures { Puts out.old out.new (spaced_text (target_pieces (expression target.now))) }
{
    let binary = is_binary_expr(target);
    put_if(out, binary, b"(");
    put_expr(out, target);
    put_if(out, binary, b")");
}

/// An assignment without the semicolon behind it.
#[tactic(auto, using(crate::proofs::Texts::spaced_append))]
pub fn put_assignment(out: &mut Output, written: &Assignment)
    ensures { Puts out.old out.new (spaced_text (assignment_pieces (assignment written.now))) }
{
    match written {
        Assignment::Store {
            operator,
            target,
            value,
            span: _,
        } => {
            put_target(out, target);
            put(out, store_text(*operator));
            put_expr(out, value);
        }
        Assignment::Step {
            operator,
            side: StepSide::Before,
            target,
            span: _,
        } => {
            put(out, step_text(*operator));
            put_target(out, target);
        }
        Assignment::Step {
            operator,
            side: StepSide::After,
            target,
            span: _,
        } => {
            put_target(out, target);
            put(out, step_text(*operator));
        }
    }
}

/// An assignment, with its semicolon.
#[tactic(auto, using(crate::proofs::Texts::spaced_append))]
pub fn put_ended_assignment(out: &mut Output, written: &Assignment)
    ensures { Puts out.old out.new (spaced_text (bundled_pieces (assignment written.now))) }
{
    put_assignment(out, written);
    put(out, b";")
}

/// The assignments of a bundle, with a semicolon behind each.
#[tactic(auto, using(crate::proofs::Texts::spaced_append))]
pub fn bundled(out: &mut Output, listed: &[Assignment])
    ensures { Puts out.old out.new (spaced_text (flat_map bundled_pieces (map assignment listed.now))) }
{
    for written in listed {
        put_ended_assignment(out, written);
    }
}
