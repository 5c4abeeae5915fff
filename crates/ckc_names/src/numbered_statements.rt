// The numbers of the names in declarations, assignments and statements.

ghost use Rattle.std.specs.Prelude.{◌≡◌, length, map};
ghost use Rattle.std.specs.Option.{option_map};
ghost use Rattle.ckc_tree.specs.Statements.{initializer as initializer_of, declarator as declarator_of, declaration as declaration_of, assignment as assignment_of, for_initial as initial_of, statement as statement_of};
ghost use Rattle.ckc_tree.specs.Numbers.{number_initializer, number_declarator, number_declaration, number_assignment, number_initial, number_statement};
ghost use Rattle.ckc_names_rules.specs.Given.{number_in};

use crate::name_list::NameList;
use crate::numbered_expressions::{
    expression, name, optional_bounds, optional_expression, type_form,
};
use ckc_tree::stmt::{Assignment, Declaration, Declarator, ForInitial, Initializer, Stmt};

// Gives the names in what a variable is initialised with their numbers, where it is.
fn optional_initializer(names: &NameList, written: &mut Option<Initializer>)
    ensures { option_map initializer_of written.new ≡ option_map (number_initializer (number_in names.now)) (option_map initializer_of written.old) }
{
    match written {
        Some(Initializer::Value { value }) => expression(names, value),
        _ => {}
    }
}

fn declarator(names: &NameList, written: &mut Declarator)
    ensures { declarator_of written.new ≡ number_declarator (number_in names.now) (declarator_of written.old) }
{
    name(names, &mut written.name);
    optional_bounds(names, &mut written.bounds);
    optional_initializer(names, &mut written.initializer);
}

/// Gives the names in declarators their numbers.
pub fn declarators(names: &NameList, written: &mut [Declarator])
    ensures all { length written.new ≡ length written.old }
    ensures walked { map declarator_of written.new ≡ map (number_declarator (number_in names.now)) (map declarator_of written.old) }
{
    for listed in written {
        declarator(names, listed);
    }
}

fn declaration(names: &NameList, written: &mut Declaration)
    ensures { declaration_of written.new ≡ number_declaration (number_in names.now) (declaration_of written.old) }
{
    type_form(names, &mut written.base);
    declarators(names, written.declarators.as_mut_slice());
}

fn assignment(names: &NameList, written: &mut Assignment)
    ensures { assignment_of written.new ≡ number_assignment (number_in names.now) (assignment_of written.old) }
{
    match written {
        Assignment::Store { target, value, .. } => {
            expression(names, target);
            expression(names, value);
        }
        Assignment::Step { target, .. } => expression(names, target),
    }
}

fn optional_assignment(names: &NameList, written: &mut Option<Assignment>)
    ensures { option_map assignment_of written.new ≡ option_map (number_assignment (number_in names.now)) (option_map assignment_of written.old) }
{
    match written {
        None => {}
        Some(written) => assignment(names, written),
    }
}

fn assignments(names: &NameList, written: &mut [Assignment])
    ensures all { length written.new ≡ length written.old }
    ensures walked { map assignment_of written.new ≡ map (number_assignment (number_in names.now)) (map assignment_of written.old) }
{
    for listed in written {
        assignment(names, listed);
    }
}

fn for_initial(names: &NameList, written: &mut ForInitial)
    ensures { initial_of written.new ≡ number_initial (number_in names.now) (initial_of written.old) }
{
    match written {
        ForInitial::Nothing => {}
        ForInitial::Declare { declaration: first } => declaration(names, first),
        ForInitial::Assign { assignment: first } => assignment(names, first),
    }
}

// Gives the names in a statement their numbers.
#[cycle(numbered)]
fn statement(names: &NameList, written: &mut Stmt)
    ensures { statement_of written.new ≡ number_statement (number_in names.now) (statement_of written.old) }
{
    match written {
        Stmt::Block {
            statements: inner,
            ..
        } => statements(names, inner.as_mut_slice()),
        Stmt::Bundle {
            assignments: inner,
            ..
        } => assignments(names, inner.as_mut_slice()),
        Stmt::Declare {
            declaration: inner,
            ..
        } => declaration(names, inner),
        Stmt::Assign {
            assignment: inner,
            ..
        } => assignment(names, inner),
        Stmt::Call { call, .. } => expression(names, call),
        Stmt::If {
            condition,
            consequent,
            alternative,
            ..
        } => {
            expression(names, condition);
            statement(names, consequent);
            match alternative {
                None => {}
                Some(alternative) => statement(names, alternative),
            }
        }
        Stmt::While {
            condition,
            body,
            ..
        } => {
            expression(names, condition);
            statement(names, body);
        }
        Stmt::For {
            initial,
            condition,
            step,
            body,
            ..
        } => {
            for_initial(names, initial);
            optional_expression(names, condition);
            optional_assignment(names, step);
            statement(names, body);
        }
        Stmt::Return { value, .. } => optional_expression(names, value),
        Stmt::Empty { .. } | Stmt::Break { .. } | Stmt::Continue { .. } => {}
    }
}

/// Gives the names in statements their numbers.
#[cycle(numbered)]
pub fn statements(names: &NameList, written: &mut [Stmt])
    ensures all { length written.new ≡ length written.old }
    ensures walked { map statement_of written.new ≡ map (number_statement (number_in names.now)) (map statement_of written.old) }
{
    for listed in written {
        statement(names, listed);
    }
}
