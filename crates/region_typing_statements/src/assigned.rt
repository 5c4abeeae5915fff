// Which locals a loop assigns.

ghost use Rattle.std.specs.Prelude.{◌≡◌, ◌<◌, ◌≤◌, ◌++◌, ◌∷◌, [], length, map, slice_set, true, IfOk, OnOk};
ghost use Rattle.std.specs.List.{All};
ghost use Rattle.std.specs.Option.{option_map};
ghost use Rattle.ckc_tree.specs.Expressions.{expression as expression_tree};
ghost use Rattle.ckc_tree.specs.Statements.{assignment as assignment_tree, for_initial as initial_tree, declarator as declarator_tree, statement as statement_tree};
ghost use Rattle.ckc_tree.specs.Items.{statement_list};
ghost use Rattle.region_typing_rules.specs.Knowing.{target_marked, assignment_marked, bundle_marked, step_marked, hiding, hidden_by, hidden_first, first_marked, marked, all_marked, numbers_marked, assigned_in as assigned_of};
ghost use Rattle.region_typing_scope.specs.Views.{scope as scope_of};
ghost use Rattle.region_typing_statements.specs.Marks.{seen, turns_marked, Adds};

use ckc_text::fault::NoMemory;
use ckc_tree::expr::Expr;
use ckc_tree::stmt::{Assignment, Declarator, ForInitial, Stmt};
use region_typing_scope::context::Context;
use region_typing_scope::scope::Scope;
use region_typing_scope::visible::{Visible, innermost};

// A mark for the local that is assigned, where it is one of those that have marks.
fn mark_target(visible: &[Visible], target: &Expr, marks: &mut Vec<bool>)
    ensures { marks.new.items ≡ target_marked (seen visible.now) (expression_tree target.now) marks.old.items }
{
    if let Expr::Name { name } = target {
        if let Some(local) = innermost(visible, name.number) {
            mark_local(local, marks);
        }
    }
}

// A mark for a local, where it is one of those that have marks.
fn mark_local(local: u32, marks: &mut Vec<bool>)
    ensures { marks.new.items ≡ slice_set marks.old.items local true }
{
    if (local as usize) < marks.len() {
        marks[local as usize] = true;
    }
}

// A mark for the local of an assignment.
fn mark_assignment(visible: &[Visible], written: &Assignment, marks: &mut Vec<bool>)
    ensures { marks.new.items ≡ assignment_marked (seen visible.now) (assignment_tree written.now) marks.old.items }
{
    match written {
        Assignment::Store { target, .. } => mark_target(visible, target, marks),
        Assignment::Step { target, .. } => mark_target(visible, target, marks),
    }
}

// Marks for the locals of assignments.
fn mark_bundle(visible: &[Visible], written: &[Assignment], marks: &mut Vec<bool>)
    ensures { marks.new.items ≡ bundle_marked (seen visible.now) (map assignment_tree written.now) marks.old.items }
{
    for listed in written {
        mark_assignment(visible, listed, marks);
    }
}

// A mark for the local of an assignment, where there is one.
fn mark_step(visible: &[Visible], step: &Option<Assignment>, marks: &mut Vec<bool>)
    ensures { marks.new.items ≡ step_marked (seen visible.now) (option_map assignment_tree step.now) marks.old.items }
{
    if let Some(step) = step {
        mark_assignment(visible, step, marks);
    }
}

// A mark for the local that what stands first in the head of a `for` assigns.
fn mark_first(visible: &[Visible], initial: &ForInitial, marks: &mut Vec<bool>)
    ensures { marks.new.items ≡ first_marked (seen visible.now) (initial_tree initial.now) marks.old.items }
{
    if let ForInitial::Assign { assignment } = initial {
        mark_assignment(visible, assignment, marks);
    }
}

// Hides the locals of the names that are declared.
fn hide(visible: &mut Vec<Visible>, beyond: u32, declared: &[Declarator]) -> Result<(), NoMemory>
    ensures hidden { OnOk result (seen visible.new.items ≡ hiding beyond (map declarator_tree declared.now) (seen visible.old.items)) }
    ensures added { OnOk result (Adds visible.old.items visible.new.items) }
{
    for listed in declared {
        visible.push(Visible {
            name: listed.name.number,
            local: beyond,
        })?;
    }
    Ok(())
}

// Hides the locals of the names that a statement declares for those behind it.
pub(crate) fn hide_by(
    visible: &mut Vec<Visible>,
    beyond: u32,
    written: &Stmt,
) -> Result<(), NoMemory>
    ensures hidden { OnOk result (seen visible.new.items ≡ hidden_by beyond (statement_tree written.now) (seen visible.old.items)) }
    ensures added { OnOk result (Adds visible.old.items visible.new.items) }
{
    match written {
        Stmt::Declare { declaration, .. } => {
            hide(visible, beyond, declaration.declarators.as_slice())
        }
        _ => Ok(()),
    }
}

// Hides the locals of the names that are declared first in the head of a `for`.
pub(crate) fn hide_first(
    visible: &mut Vec<Visible>,
    beyond: u32,
    initial: &ForInitial,
) -> Result<(), NoMemory>
    ensures hidden { OnOk result (seen visible.new.items ≡ hidden_first beyond (initial_tree initial.now) (seen visible.old.items)) }
    ensures added { OnOk result (Adds visible.old.items visible.new.items) }
{
    match initial {
        ForInitial::Declare { declaration } => {
            hide(visible, beyond, declaration.declarators.as_slice())
        }
        _ => Ok(()),
    }
}

// Marks for the locals that a statement assigns.
#[cycle(marks)]
fn mark_statement(
    written: &Stmt,
    beyond: u32,
    visible: &mut Vec<Visible>,
    marks: &mut Vec<bool>,
) -> Result<(), NoMemory>
    ensures marked { OnOk result (marks.new.items ≡ marked beyond (seen visible.old.items) (statement_tree written.now) marks.old.items) }
    ensures kept { OnOk result (visible.new.items ≡ visible.old.items) }
{
    match written {
        Stmt::Block { statements, .. } => {
            mark_statements(statements.as_slice(), beyond, visible, marks)
        }
        Stmt::Bundle { assignments, .. } => {
            mark_bundle(visible.as_slice(), assignments.as_slice(), marks);
            Ok(())
        }
        Stmt::Assign { assignment, .. } => {
            mark_assignment(visible.as_slice(), assignment, marks);
            Ok(())
        }
        Stmt::If {
            consequent,
            alternative,
            ..
        } => {
            mark_statement(consequent, beyond, visible, marks)?;
            match alternative {
                None => Ok(()),
                Some(alternative) => mark_statement(alternative, beyond, visible, marks),
            }
        }
        Stmt::While { body, .. } => mark_statement(body, beyond, visible, marks),
        Stmt::For {
            initial,
            step,
            body,
            ..
        } => mark_turns(body, beyond, initial, step, visible, marks),
        _ => Ok(()),
    }
}

// Marks for the locals that a `for` assigns.
#[cycle(marks)]
fn mark_turns(
    body: &Stmt,
    beyond: u32,
    initial: &ForInitial,
    step: &Option<Assignment>,
    visible: &mut Vec<Visible>,
    marks: &mut Vec<bool>,
) -> Result<(), NoMemory>
    ensures marked { OnOk result (marks.new.items ≡ turns_marked beyond (seen visible.old.items) (initial_tree initial.now)
        (option_map assignment_tree step.now) (statement_tree body.now) marks.old.items) }
    ensures kept { OnOk result (visible.new.items ≡ visible.old.items) }
{
    let outside = visible.len();
    mark_first(visible.as_slice(), initial, marks);
    hide_first(visible, beyond, initial)?;
    mark_statement(body, beyond, visible, marks)?;
    mark_step(visible.as_slice(), step, marks);
    visible.truncate(outside);
    Ok(())
}

// Marks for the locals that the statements of a block assign.
#[cycle(marks)]
fn mark_statements(
    written: &[Stmt],
    beyond: u32,
    visible: &mut Vec<Visible>,
    marks: &mut Vec<bool>,
) -> Result<(), NoMemory>
    ensures marked { OnOk result (marks.new.items ≡ all_marked beyond (seen visible.old.items) (statement_list written.now) marks.old.items) }
    ensures kept { OnOk result (visible.new.items ≡ visible.old.items) }
{
    let outside = visible.len();
    for listed in written {
        mark_statement(listed, beyond, visible, marks)?;
        hide_by(visible, beyond, listed)?;
    }
    visible.truncate(outside);
    Ok(())
}

// The number of a local more, where it has a mark.
fn add_marked(numbers: &mut Vec<u32>, local: u32, marked: bool) -> Result<(), NoMemory>
    ensures { OnOk result (numbers.new.items ≡ numbers.old.items ++ numbers_marked local (marked ∷ [])) }
{
    if marked {
        numbers.push(local)?;
    }
    Ok(())
}

// The numbers of those that have a mark.
fn numbers(context: &Context, marks: &[bool]) -> Result<Vec<u32>, NoMemory>
    requires { length marks.now ≤ 256 }
    ensures { IfOk result (λ numbers. numbers.items ≡ numbers_marked 0 marks.now) }
{
    let mut numbers = Vec::new(context.alloc());
    let mut local: u32 = 0;
    for marked in marks {
        add_marked(&mut numbers, local, *marked)?;
        local += 1;
    }
    Ok(numbers)
}

/// The numbers of the locals that a loop assigns, in its body and behind its turns, from the lowest on. A name that is declared
/// in the body stands for none of them.
pub fn assigned_in(
    context: &Context,
    scope: &Scope,
    body: &Stmt,
    step: &Option<Assignment>,
) -> Result<Vec<u32>, NoMemory>
    ensures known { IfOk result (λ numbers. numbers.items ≡ assigned_of (scope_of scope.now) (statement_tree body.now) (option_map assignment_tree step.now)) }
    ensures below { IfOk result (λ numbers. All (λ local. local < length scope.now.locals.items) numbers.items) }
{
    let count = scope.locals.len();
    let mut marks = vec![in context.alloc(); false; count]?;
    let mut visible = Vec::from_slice(context.alloc(), scope.visible.as_slice())?;
    mark_statement(body, count as u32, &mut visible, &mut marks)?;
    mark_step(visible.as_slice(), step, &mut marks);
    numbers(context, marks.as_slice())
}
