// The names in types, expressions and bounds.

ghost use Rattle.ckc_tree.specs.Types.{type_tree};
ghost use Rattle.ckc_tree.specs.Expressions.{expression as expression_of, bounds as bounds_of};
ghost use Rattle.ckc_names_rules.specs.Mentions.{type_mentions, expression_mentions, bounds_mentions};
ghost use Rattle.ckc_names.specs.Slices.{arguments_mentions};
ghost use Rattle.ckc_names.specs.Progress.{Passes};

use crate::resolver::Resolver;
use ckc_tree::expr::{BoundsText, Expr};
use ckc_tree::type_form::TypeForm;

/// The tag in a type, if it has one.
pub fn type_form(resolver: &mut Resolver, base: &TypeForm)
    ensures { Passes (type_mentions (type_tree base.now)) resolver.old resolver.new }
{
    match base {
        TypeForm::Int { .. } | TypeForm::Char { .. } => {}
        TypeForm::Struct { tag, .. } => resolver.use_tag(tag),
        TypeForm::Pointer { element, .. } => type_form(resolver, element),
    }
}

/// The names in an expression.
#[cycle(expressions)]
pub fn expression(resolver: &mut Resolver, written: &Expr)
    ensures { Passes (expression_mentions (expression_of written.now)) resolver.old resolver.new }
{
    match written {
        Expr::Number { .. } | Expr::Character { .. } | Expr::Text { .. } => {}
        Expr::Name { name } => resolver.use_value(name),
        Expr::Call {
            callee,
            arguments,
            ..
        } => {
            resolver.call(callee);
            expressions(resolver, arguments.as_slice());
        }
        Expr::SizeOf { type_name, .. } => type_form(resolver, &type_name.base),
        Expr::Cast {
            type_name,
            operand,
            bounds: limits,
            ..
        } => match limits {
            None => {
                type_form(resolver, &type_name.base);
                expression(resolver, operand);
            }
            Some(limits) => {
                type_form(resolver, &type_name.base);
                expression(resolver, operand);
                bounds(resolver, limits);
            }
        },
        Expr::Malloc {
            type_name,
            size,
            ..
        } => {
            type_form(resolver, &type_name.base);
            expression(resolver, size);
        }
        Expr::Calloc {
            type_name,
            count,
            size,
            ..
        } => {
            type_form(resolver, &type_name.base);
            expression(resolver, count);
            expression(resolver, size);
        }
        Expr::Index { base, index, .. } => {
            expression(resolver, base);
            expression(resolver, index);
        }
        Expr::Dot { base, member, .. } => {
            expression(resolver, base);
            resolver.select(member);
        }
        Expr::Arrow { base, member, .. } => {
            expression(resolver, base);
            resolver.select(member);
        }
        Expr::Unary { operand, .. } => expression(resolver, operand),
        Expr::Binary { left, right, .. } => {
            expression(resolver, left);
            expression(resolver, right);
        }
    }
}

// The names in arguments, from left to right.
#[cycle(expressions)]
fn expressions(resolver: &mut Resolver, arguments: &[Expr])
    ensures { Passes (arguments_mentions arguments.now) resolver.old resolver.new }
{
    for argument in arguments {
        expression(resolver, argument);
    }
}

/// The names in bounds.
#[cycle(expressions)]
pub fn bounds(resolver: &mut Resolver, written: &BoundsText)
    ensures { Passes (bounds_mentions (bounds_of written.now)) resolver.old resolver.new }
{
    match written {
        BoundsText::Count { count, .. } | BoundsText::ByteCount { count, .. } => {
            expression(resolver, count)
        }
        BoundsText::Unknown { .. } => {}
        BoundsText::Range { low, high, .. } => {
            expression(resolver, low);
            expression(resolver, high);
        }
    }
}
