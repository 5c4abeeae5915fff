// Statements of built forms.

ghost use Rattle.std.specs.Prelude.{◌≡◌, ◌&&◌};
ghost use Rattle.std.specs.List.{list_all};
ghost use Rattle.std.specs.Option.{option_map};
ghost use Rattle.ckc_tree.specs.Expressions.{bounds};
ghost use Rattle.ckc_tree.specs.Statements.{initializer, declarator, declaration, assignment, for_initial, on_heap, statement};
ghost use Rattle.built_forms.specs.Built as built;

use crate::expressions::{built_bounds, built_expression, built_type};
use ckc_tree::expr::{BoundsText, Expr};
use ckc_tree::stmt::{Assignment, Declaration, Declarator, ForInitial, Initializer, Stmt};

fn built_initializer(written: &Initializer) -> bool
    ensures { result ≡ built.built_initializer (initializer written.now) }
{
    match written {
        Initializer::Value { value } => built_expression(value),
        Initializer::List { .. } => true,
    }
}

fn built_optional_initializer(written: &Option<Initializer>) -> bool
    ensures { result ≡ built.optional built.built_initializer (option_map initializer written.now) }
{
    match written {
        None => true,
        Some(initializer) => built_initializer(initializer),
    }
}

/// Whether bounds have only forms that are built, where some are written.
pub fn built_optional_bounds(written: &Option<BoundsText>) -> bool
    ensures { result ≡ built.optional built.built_bounds (option_map bounds written.now) }
{
    match written {
        None => true,
        Some(bounds) => built_bounds(bounds),
    }
}

// Whether a variable has only forms that are built; it may have bounds.
fn built_declarator(written: &Declarator) -> bool
    ensures { result ≡ built.built_declarator (declarator written.now) }
{
    built_optional_bounds(&written.bounds) && built_optional_initializer(&written.initializer)
}

/// Whether variables have only forms that are built.
pub fn built_declarators(declarators: &[Declarator]) -> bool
    ensures { result ≡ list_all (λ d. built.built_declarator (declarator d)) declarators.now }
{
    declarators.iter().all(|d| built_declarator(d))
}

fn built_declaration(written: &Declaration) -> bool
    ensures { result ≡ built.built_declaration (declaration written.now) }
{
    built_type(&written.base) && built_declarators(written.declarators.as_slice())
}

fn built_assignment(written: &Assignment) -> bool
    ensures { result ≡ built.built_assignment (assignment written.now) }
{
    match written {
        Assignment::Store { target, value, .. } => {
            built_expression(target) && built_expression(value)
        }
        Assignment::Step { target, .. } => built_expression(target),
    }
}

fn built_assignments(written: &[Assignment]) -> bool
    ensures { result ≡ list_all (λ a. built.built_assignment (assignment a)) written.now }
{
    written.iter().all(|a| built_assignment(a))
}

fn built_initial(written: &ForInitial) -> bool
    ensures { result ≡ built.built_initial (for_initial written.now) }
{
    match written {
        ForInitial::Nothing => true,
        ForInitial::Declare { declaration } => built_declaration(declaration),
        ForInitial::Assign { assignment } => built_assignment(assignment),
    }
}

fn built_optional(written: &Option<Box<Expr>>) -> bool
    ensures { result ≡ built.optional built.built_expression (option_map on_heap written.now) }
{
    match written {
        None => true,
        Some(value) => built_expression(value),
    }
}

// Whether the head of a `for` has only forms that are built.
fn built_head(
    initial: &ForInitial,
    condition: &Option<Box<Expr>>,
    step: &Option<Assignment>,
) -> bool
    ensures { result ≡ (built.built_initial (for_initial initial.now)
        && (built.optional built.built_expression (option_map on_heap condition.now)
        && built.optional built.built_assignment (option_map assignment step.now))) }
{
    let steps = match step {
        None => true,
        Some(step) => built_assignment(step),
    };
    built_initial(initial) && built_optional(condition) && steps
}

/// Whether a statement has only forms that are built.
#[cycle(statements)]
pub fn built_statement(written: &Stmt) -> bool
    ensures { result ≡ built.built_statement (statement written.now) }
{
    match written {
        Stmt::Block { statements, .. } => built_block(statements.as_slice()),
        Stmt::Bundle { assignments, .. } => built_assignments(assignments.as_slice()),
        Stmt::Declare { declaration, .. } => built_declaration(declaration),
        Stmt::Assign { assignment, .. } => built_assignment(assignment),
        Stmt::Call { call, .. } => built_expression(call),
        Stmt::Empty { .. } | Stmt::Break { .. } | Stmt::Continue { .. } => true,
        Stmt::If {
            condition,
            consequent,
            alternative,
            ..
        } => match alternative {
            None => built_expression(condition) && built_statement(consequent),
            Some(alternative) => {
                built_expression(condition)
                    && built_statement(consequent)
                    && built_statement(alternative)
            }
        },
        Stmt::While {
            condition,
            body,
            ..
        } => built_expression(condition) && built_statement(body),
        Stmt::For {
            initial,
            condition,
            step,
            body,
            ..
        } => built_head(initial, condition, step) && built_statement(body),
        Stmt::Return { value, .. } => built_optional(value),
    }
}

/// Whether the statements of a block have only forms that are built.
#[cycle(statements)]
pub fn built_block(statements: &[Stmt]) -> bool
    ensures { result ≡ list_all (λ x. built.built_statement (statement x)) statements.now }
{
    for inner in statements {
        if !built_statement(inner) {
            return false;
        }
    }
    true
}
