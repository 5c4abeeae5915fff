// Printing of statements.

ghost use Rattle.std.specs.Prelude.{◌∷◌, [], ◌++◌, map};
ghost use Rattle.std.specs.Option.{option_map};
ghost use Rattle.ckc_tree.specs.Expressions.{expression};
ghost use Rattle.ckc_tree.specs.Statements.{assignment, declaration, for_initial, on_heap, statement};
ghost use Rattle.ckc_tree.specs.Items.{statement_list};
ghost use Rattle.ckc_printer.specs.ExpressionPieces.{expression_pieces};
ghost use Rattle.ckc_printer.specs.StatementPieces.{declaration_pieces, mark_pieces, initial_pieces, optional_expression_pieces, optional_assignment_pieces, for_head_pieces, statement_pieces, statements_pieces};
ghost use Rattle.ckc_printer.specs.Parts.{bundle_pieces, return_pieces, ended_pieces, block_pieces, if_else_pieces, for_pieces};
ghost use Rattle.ckc_printer.specs.Output.{Puts};
ghost use Rattle.ckc_printer.specs.Spaced.{spaced, spaced_text};

use crate::assignments::{bundled, put_assignment, put_ended_assignment};
use crate::declarations::put_declaration;
use crate::expressions::put_expr;
use crate::output::Output;
use crate::signs::put;
use ckc_tree::expr::Expr;
use ckc_tree::stmt::{Assignment, Declaration, ForInitial, Mark, Stmt};

/// The word before a block or a function, if one is written.
pub fn optional_mark(out: &mut Output, mark: Option<Mark>)
    ensures { Puts out.old out.new (spaced_text (mark_pieces mark)) }
{
    match mark {
        Some(Mark::Checked) => put(out, b"_Checked"),
        Some(Mark::Unchecked) => put(out, b"_Unchecked"),
        None => {}
    }
}

/// What stands first in the head of a `for`.
fn for_start(out: &mut Output, initial: &ForInitial)
    ensures { Puts out.old out.new (spaced_text (initial_pieces (for_initial initial.now))) }
{
    match initial {
        ForInitial::Nothing => {}
        ForInitial::Declare { declaration } => put_declaration(out, declaration),
        ForInitial::Assign { assignment } => put_assignment(out, assignment),
    }
}

/// An expression, if one is written.
fn optional_expr(out: &mut Output, written: &Option<Box<Expr>>)
    ensures { Puts out.old out.new (spaced_text (optional_expression_pieces (option_map on_heap written.now))) }
{
    match written {
        Some(expr) => put_expr(out, expr),
        None => {}
    }
}

/// An assignment, if one is written.
fn optional_assignment(out: &mut Output, written: &Option<Assignment>)
    ensures { Puts out.old out.new (spaced_text (optional_assignment_pieces (option_map assignment written.now))) }
{
    match written {
        Some(assignment) => put_assignment(out, assignment),
        None => {}
    }
}

/// The head of a `for`, from its word to its parenthesis.
#[tactic(auto, using(crate::proofs::Texts::spaced_append))]
fn for_head(
    out: &mut Output,
    initial: &ForInitial,
    condition: &Option<Box<Expr>>,
    step: &Option<Assignment>,
)
    ensures { Puts out.old out.new (spaced_text (for_head_pieces (for_initial initial.now) (option_map on_heap condition.now)
        (option_map assignment step.now))) }
{
    put(out, b"for (");
    for_start(out, initial);
    put(out, b";");
    optional_expr(out, condition);
    put(out, b";");
    optional_assignment(out, step);
    put(out, b")");
}

/// A word, and a condition in parentheses behind it.
#[tactic(auto, using(crate::proofs::Texts::spaced_append))]
fn put_tested(out: &mut Output, word: &[u8], condition: &Expr)
    ensures { Puts out.old out.new (spaced word.now ++ (spaced (40 ∷ []) ++ (spaced_text (expression_pieces (expression condition.now)) ++ spaced (41 ∷ [])))) }
{
    put(out, word);
    put(out, b"(");
    put_expr(out, condition);
    put(out, b")");
}

/// A bundle.
#[tactic(auto, using(crate::proofs::Texts::spaced_append))]
fn put_bundle(out: &mut Output, assignments: &[Assignment])
    ensures { Puts out.old out.new (spaced_text (bundle_pieces (map assignment assignments.now))) }
{
    put(out, b"_Bundled {");
    bundled(out, assignments);
    put(out, b"}");
}

/// A `return`.
#[tactic(auto, using(crate::proofs::Texts::spaced_append))]
fn put_return(out: &mut Output, value: &Option<Box<Expr>>)
    ensures { Puts out.old out.new (spaced_text (return_pieces (option_map on_heap value.now))) }
{
    put(out, b"return");
    optional_expr(out, value);
    put(out, b";")
}

/// A declaration, with its semicolon.
#[tactic(auto, using(crate::proofs::Texts::spaced_append))]
fn put_ended_declaration(out: &mut Output, written: &Declaration)
    ensures { Puts out.old out.new (spaced_text (ended_pieces (declaration_pieces (declaration written.now)))) }
{
    put_declaration(out, written);
    put(out, b";")
}

/// A call, with its semicolon.
#[tactic(auto, using(crate::proofs::Texts::spaced_append))]
fn put_ended_call(out: &mut Output, call: &Expr)
    ensures { Puts out.old out.new (spaced_text (ended_pieces (expression_pieces (expression call.now)))) }
{
    put_expr(out, call);
    put(out, b";")
}

/// A statement.
#[cycle(statements)]
#[tactic(auto, using(crate::proofs::Texts::spaced_append))]
fn put_stmt(out: &mut Output, stmt: &Stmt)
    ensures { Puts out.old out.new (spaced_text (statement_pieces (statement stmt.now))) }
{
    match stmt {
        Stmt::Block {
            mark,
            statements,
            ..
        } => put_block(out, *mark, statements.as_slice()),
        Stmt::Bundle { assignments, .. } => put_bundle(out, assignments.as_slice()),
        Stmt::Declare { declaration, .. } => put_ended_declaration(out, declaration),
        Stmt::Assign { assignment, .. } => put_ended_assignment(out, assignment),
        Stmt::Call { call, .. } => put_ended_call(out, call),
        Stmt::Empty { .. } => put(out, b";"),
        Stmt::If {
            condition,
            consequent,
            alternative,
            ..
        } => match alternative {
            Some(alternative) => put_if_else(out, condition, consequent, alternative),
            None => put_guarded(out, b"if", condition, consequent),
        },
        Stmt::While {
            condition,
            body,
            ..
        } => put_guarded(out, b"while", condition, body),
        Stmt::For {
            initial,
            condition,
            step,
            body,
            ..
        } => put_for(out, initial, condition, step, body),
        Stmt::Return { value, .. } => put_return(out, value),
        Stmt::Break { .. } => put(out, b"break ;"),
        Stmt::Continue { .. } => put(out, b"continue ;"),
    }
}

/// A word, a condition in parentheses, and the statement behind them.
#[cycle(statements)]
fn put_guarded(out: &mut Output, word: &[u8], condition: &Expr, body: &Stmt)
    ensures { Puts out.old out.new (spaced word.now ++ (spaced (40 ∷ [])
        ++ (spaced_text (expression_pieces (expression condition.now)) ++ spaced (41 ∷ []))) ++ spaced_text
        (statement_pieces (statement body.now))) }
{
    put_tested(out, word, condition);
    put_stmt(out, body);
}

/// An `if` with its `else`.
#[cycle(statements)]
#[tactic(auto, using(crate::proofs::Texts::spaced_append))]
fn put_if_else(out: &mut Output, condition: &Expr, consequent: &Stmt, alternative: &Stmt)
    ensures { Puts out.old out.new (spaced_text (if_else_pieces (expression condition.now) (statement consequent.now) (statement alternative.now))) }
{
    put_guarded(out, b"if", condition, consequent);
    put(out, b"else");
    put_stmt(out, alternative);
}

/// A `for`.
#[cycle(statements)]
#[tactic(auto, using(crate::proofs::Texts::spaced_append))]
fn put_for(
    out: &mut Output,
    initial: &ForInitial,
    condition: &Option<Box<Expr>>,
    step: &Option<Assignment>,
    body: &Stmt,
)
    ensures { Puts out.old out.new (spaced_text (for_pieces (for_initial initial.now) (option_map on_heap condition.now)
        (option_map assignment step.now) (statement body.now))) }
{
    for_head(out, initial, condition, step);
    put_stmt(out, body);
}

/// The statements of a block.
#[cycle(statements)]
#[tactic(auto, using(crate::proofs::Texts::spaced_append))]
fn put_stmts(out: &mut Output, stmts: &[Stmt])
    ensures { Puts out.old out.new (spaced_text (statements_pieces (statement_list stmts.now))) }
{
    for stmt in stmts {
        put_stmt(out, stmt);
    }
}

/// A block, with the word before it.
#[cycle(statements)]
#[tactic(auto, using(crate::proofs::Texts::spaced_append))]
pub fn put_block(out: &mut Output, mark: Option<Mark>, stmts: &[Stmt])
    ensures { Puts out.old out.new (spaced_text (block_pieces mark (statement_list stmts.now))) }
{
    optional_mark(out, mark);
    put(out, b"{");
    put_stmts(out, stmts);
    put(out, b"}");
}
