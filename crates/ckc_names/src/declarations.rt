// The names in declarations and assignments.

ghost use Rattle.std.specs.Option.{option_map};
ghost use Rattle.std.specs.List.{flat_map};
ghost use Rattle.ckc_tree.specs.Expressions.{bounds as bounds_of};
ghost use Rattle.ckc_tree.specs.Statements.{initializer as initializer_of, declarator as declarator_of, declaration as declaration_of, assignment as assignment_of, on_heap};
ghost use Rattle.ckc_names_rules.specs.Mentions.{optional_mentions, expression_mentions, bounds_mentions, initializer_mentions, declarator_mentions, declaration_mentions, assignment_mentions};
ghost use Rattle.ckc_names.specs.Progress.{Passes};

use crate::expressions::{bounds, expression, type_form};
use crate::resolver::Resolver;
use ckc_tree::expr::{BoundsText, Expr};
use ckc_tree::stmt::{Assignment, Declaration, Declarator, Initializer};

/// The names in bounds, where some are written.
pub fn optional_bounds(resolver: &mut Resolver, written: &Option<BoundsText>)
    ensures { Passes (optional_mentions bounds_mentions (option_map bounds_of written.now)) resolver.old resolver.new }
{
    match written {
        None => {}
        Some(written) => bounds(resolver, written),
    }
}

/// The names in an expression, where one is written.
pub fn optional_expression(resolver: &mut Resolver, written: &Option<Box<Expr>>)
    ensures { Passes (optional_mentions expression_mentions (option_map on_heap written.now)) resolver.old resolver.new }
{
    match written {
        None => {}
        Some(written) => expression(resolver, written),
    }
}

// The names in what a variable is initialised with, where it is.
fn optional_initializer(resolver: &mut Resolver, written: &Option<Initializer>)
    ensures { Passes (optional_mentions initializer_mentions (option_map initializer_of written.now)) resolver.old resolver.new }
{
    match written {
        Some(Initializer::Value { value }) => expression(resolver, value),
        _ => {}
    }
}

// A variable is visible from its name on.
fn declarator(resolver: &mut Resolver, written: &Declarator)
    ensures { Passes (declarator_mentions (declarator_of written.now)) resolver.old resolver.new }
{
    resolver.declare(&written.name);
    optional_bounds(resolver, &written.bounds);
    optional_initializer(resolver, &written.initializer);
}

/// The names in declarators.
pub fn declarators(resolver: &mut Resolver, written: &[Declarator])
    ensures { Passes (flat_map (λ x. declarator_mentions (declarator_of x)) written.now) resolver.old resolver.new }
{
    for listed in written {
        declarator(resolver, listed);
    }
}

/// The names in a declaration.
pub fn declaration(resolver: &mut Resolver, written: &Declaration)
    ensures { Passes (declaration_mentions (declaration_of written.now)) resolver.old resolver.new }
{
    type_form(resolver, &written.base);
    declarators(resolver, written.declarators.as_slice());
}

/// The names in an assignment.
pub fn assignment(resolver: &mut Resolver, written: &Assignment)
    ensures { Passes (assignment_mentions (assignment_of written.now)) resolver.old resolver.new }
{
    match written {
        Assignment::Store { target, value, .. } => {
            expression(resolver, target);
            expression(resolver, value);
        }
        Assignment::Step { target, .. } => expression(resolver, target),
    }
}

/// The names in an assignment, where one is written.
pub fn optional_assignment(resolver: &mut Resolver, written: &Option<Assignment>)
    ensures { Passes (optional_mentions assignment_mentions (option_map assignment_of written.now)) resolver.old resolver.new }
{
    match written {
        None => {}
        Some(written) => assignment(resolver, written),
    }
}

/// The names in assignments.
pub fn assignments(resolver: &mut Resolver, written: &[Assignment])
    ensures { Passes (flat_map (λ x. assignment_mentions (assignment_of x)) written.now) resolver.old resolver.new }
{
    for listed in written {
        assignment(resolver, listed);
    }
}
