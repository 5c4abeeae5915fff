// The strings of statements and of bodies.

ghost use Rattle.std.specs.Prelude.{◌≡◌, ◌++◌, map, IfOk};
ghost use Rattle.std.specs.Option.{option_map};
ghost use Rattle.ckc_tree.specs.Statements.{declarator, assignment, for_initial, on_heap, statement};
ghost use Rattle.ckc_tree.specs.Items.{statement_list, body as body_of};
ghost use Rattle.ckc_tree.specs.Texts.{text, optional_texts, declarators_texts, assignment_texts, assignments_texts, optional_assignment_texts, initial_texts, statement_texts, statements_texts, body_texts};

use crate::expr::Expr;
use crate::expression_texts::{push_expression_texts, push_initializer_texts, push_optional_texts};
use crate::item::Block;
use crate::stmt::{Assignment, Declarator, ForInitial, Stmt};
use crate::text::Text;
use ckc_text::fault::NoMemory;
use std::alloc::Global;

// Puts the strings of the initial values of variables behind others.
fn push_declarators_texts(
    alloc: Global,
    declarators: &[Declarator],
    texts: &mut Vec<Text>,
) -> Result<(), NoMemory>
    ensures { IfOk result (λ _. map text texts.new.items ≡ map text texts.old.items ++ declarators_texts (map declarator declarators.now)) }
{
    for written in declarators {
        push_initializer_texts(alloc, &written.initializer, texts)?;
    }
    Ok(())
}

// Puts the strings of an assignment behind others.
fn push_assignment_texts(
    alloc: Global,
    written: &Assignment,
    texts: &mut Vec<Text>,
) -> Result<(), NoMemory>
    ensures { IfOk result (λ _. map text texts.new.items ≡ map text texts.old.items ++ assignment_texts (assignment written.now)) }
{
    match written {
        Assignment::Store { target, value, .. } => {
            push_expression_texts(alloc, target, texts)?;
            push_expression_texts(alloc, value, texts)
        }
        Assignment::Step { target, .. } => push_expression_texts(alloc, target, texts),
    }
}

// Puts the strings of assignments behind others.
fn push_assignments_texts(
    alloc: Global,
    assignments: &[Assignment],
    texts: &mut Vec<Text>,
) -> Result<(), NoMemory>
    ensures { IfOk result (λ _. map text texts.new.items ≡ map text texts.old.items ++ assignments_texts (map assignment assignments.now)) }
{
    for written in assignments {
        push_assignment_texts(alloc, written, texts)?;
    }
    Ok(())
}

// Puts the strings of an assignment behind others, if there is one.
fn push_optional_assignment_texts(
    alloc: Global,
    written: &Option<Assignment>,
    texts: &mut Vec<Text>,
) -> Result<(), NoMemory>
    ensures { IfOk result (λ _. map text texts.new.items ≡ map text texts.old.items ++ optional_assignment_texts (option_map assignment written.now)) }
{
    match written {
        None => Ok(()),
        Some(written) => push_assignment_texts(alloc, written, texts),
    }
}

// Puts the strings of what stands first in the head of a `for` behind others.
fn push_initial_texts(
    alloc: Global,
    written: &ForInitial,
    texts: &mut Vec<Text>,
) -> Result<(), NoMemory>
    ensures { IfOk result (λ _. map text texts.new.items ≡ map text texts.old.items ++ initial_texts (for_initial written.now)) }
{
    match written {
        ForInitial::Nothing => Ok(()),
        ForInitial::Declare { declaration } => {
            push_declarators_texts(alloc, declaration.declarators.as_slice(), texts)
        }
        ForInitial::Assign { assignment } => push_assignment_texts(alloc, assignment, texts),
    }
}

// Puts the strings of the head of a `for` behind others.
fn push_head_texts(
    alloc: Global,
    initial: &ForInitial,
    condition: &Option<Box<Expr>>,
    step: &Option<Assignment>,
    texts: &mut Vec<Text>,
) -> Result<(), NoMemory>
    ensures { IfOk result (λ _. map text texts.new.items ≡ map text texts.old.items
        ++ (initial_texts (for_initial initial.now) ++ (optional_texts (option_map on_heap condition.now) ++ optional_assignment_texts
        (option_map assignment step.now)))) }
{
    push_initial_texts(alloc, initial, texts)?;
    push_optional_texts(alloc, condition, texts)?;
    push_optional_assignment_texts(alloc, step, texts)
}

// Puts the strings of a statement behind others.
#[cycle(statements)]
fn push_statement_texts(
    alloc: Global,
    written: &Stmt,
    texts: &mut Vec<Text>,
) -> Result<(), NoMemory>
    ensures { IfOk result (λ _. map text texts.new.items ≡ map text texts.old.items ++ statement_texts (statement written.now)) }
{
    match written {
        Stmt::Block { statements, .. } => push_statements_texts(
            alloc,
            statements.as_slice(),
            texts,
        ),
        Stmt::Bundle { assignments, .. } => {
            push_assignments_texts(alloc, assignments.as_slice(), texts)
        }
        Stmt::Declare { declaration, .. } => {
            push_declarators_texts(alloc, declaration.declarators.as_slice(), texts)
        }
        Stmt::Assign { assignment, .. } => push_assignment_texts(alloc, assignment, texts),
        Stmt::Call { call, .. } => push_expression_texts(alloc, call, texts),
        Stmt::Empty { .. } | Stmt::Break { .. } | Stmt::Continue { .. } => Ok(()),
        Stmt::If {
            condition,
            consequent,
            alternative,
            ..
        } => {
            push_expression_texts(alloc, condition, texts)?;
            push_statement_texts(alloc, consequent, texts)?;
            match alternative {
                None => Ok(()),
                Some(alternative) => push_statement_texts(alloc, alternative, texts),
            }
        }
        Stmt::While {
            condition,
            body,
            ..
        } => {
            push_expression_texts(alloc, condition, texts)?;
            push_statement_texts(alloc, body, texts)
        }
        Stmt::For {
            initial,
            condition,
            step,
            body,
            ..
        } => {
            push_head_texts(alloc, initial, condition, step, texts)?;
            push_statement_texts(alloc, body, texts)
        }
        Stmt::Return { value, .. } => push_optional_texts(alloc, value, texts),
    }
}

// Puts the strings of the statements of a block behind others.
#[cycle(statements)]
fn push_statements_texts(
    alloc: Global,
    statements: &[Stmt],
    texts: &mut Vec<Text>,
) -> Result<(), NoMemory>
    ensures { IfOk result (λ _. map text texts.new.items ≡ map text texts.old.items ++ statements_texts (statement_list statements.now)) }
{
    for written in statements {
        push_statement_texts(alloc, written, texts)?;
    }
    Ok(())
}

/// Puts the strings of the body of a function behind others, in the order of the source; those in bounds aren't among them. Where
/// memory runs out, some of them may stand there already.
pub fn push_body_texts(alloc: Global, body: &Block, texts: &mut Vec<Text>) -> Result<(), NoMemory>
    ensures { IfOk result (λ _. map text texts.new.items ≡ map text texts.old.items ++ body_texts (body_of body.now)) }
{
    push_statements_texts(alloc, body.statements.as_slice(), texts)
}
