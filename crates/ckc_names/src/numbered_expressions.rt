// The numbers of the names in types, expressions and bounds.

ghost use Rattle.std.specs.Prelude.{◌≡◌, length, map};
ghost use Rattle.std.specs.Option.{option_map};
ghost use Rattle.ckc_tree.specs.Types.{type_tree};
ghost use Rattle.ckc_tree.specs.Expressions.{expression as expression_of, bounds as bounds_of};
ghost use Rattle.ckc_tree.specs.Statements.{on_heap};
ghost use Rattle.ckc_tree.specs.Numbers.{number_name, number_type, number_expression, number_bounds};
ghost use Rattle.ckc_names_rules.specs.Given.{number_in};

use crate::name_list::NameList;
use ckc_tree::expr::{BoundsText, Expr};
use ckc_tree::identifier::Identifier;
use ckc_tree::type_form::TypeForm;

/// Gives a name its number.
pub fn name(names: &NameList, name: &mut Identifier)
    ensures { name.new ≡ number_name (number_in names.now) name.old }
{
    let number = names.find(name.name.as_bytes());
    name.number = number;
}

/// Gives the tag in a type its number, if it has one.
pub fn type_form(names: &NameList, base: &mut TypeForm)
    ensures { type_tree base.new ≡ number_type (number_in names.now) (type_tree base.old) }
{
    match base {
        TypeForm::Int { .. } | TypeForm::Char { .. } => {}
        TypeForm::Struct { tag, .. } => name(names, tag),
        TypeForm::Pointer { element, .. } => type_form(names, element),
    }
}

/// Gives the names in an expression their numbers.
#[cycle(numbered)]
pub fn expression(names: &NameList, written: &mut Expr)
    ensures { expression_of written.new ≡ number_expression (number_in names.now) (expression_of written.old) }
{
    match written {
        Expr::Number { .. } | Expr::Character { .. } | Expr::Text { .. } => {}
        Expr::Name { name: inner } => name(names, inner),
        Expr::Call {
            callee,
            arguments,
            ..
        } => {
            name(names, callee);
            expressions(names, arguments.as_mut_slice());
        }
        Expr::SizeOf { type_name, .. } => type_form(names, &mut type_name.base),
        Expr::Cast {
            type_name,
            operand,
            bounds: limits,
            ..
        } => {
            type_form(names, &mut type_name.base);
            expression(names, operand);
            match limits {
                None => {}
                Some(limits) => bounds(names, limits),
            }
        }
        Expr::Malloc {
            type_name,
            size,
            ..
        } => {
            type_form(names, &mut type_name.base);
            expression(names, size);
        }
        Expr::Calloc {
            type_name,
            count,
            size,
            ..
        } => {
            type_form(names, &mut type_name.base);
            expression(names, count);
            expression(names, size);
        }
        Expr::Index { base, index, .. } => {
            expression(names, base);
            expression(names, index);
        }
        Expr::Dot { base, member, .. } => {
            expression(names, base);
            name(names, member);
        }
        Expr::Arrow { base, member, .. } => {
            expression(names, base);
            name(names, member);
        }
        Expr::Unary { operand, .. } => expression(names, operand),
        Expr::Binary { left, right, .. } => {
            expression(names, left);
            expression(names, right);
        }
    }
}

// Gives the names in arguments their numbers.
#[cycle(numbered)]
fn expressions(names: &NameList, arguments: &mut [Expr])
    ensures all { length arguments.new ≡ length arguments.old }
    ensures walked { map expression_of arguments.new ≡ map (number_expression (number_in names.now)) (map expression_of arguments.old) }
{
    for argument in arguments {
        expression(names, argument);
    }
}

/// Gives the names in bounds their numbers.
#[cycle(numbered)]
pub fn bounds(names: &NameList, written: &mut BoundsText)
    ensures { bounds_of written.new ≡ number_bounds (number_in names.now) (bounds_of written.old) }
{
    match written {
        BoundsText::Count { count, .. } => expression(names, count),
        BoundsText::ByteCount { count, .. } => expression(names, count),
        BoundsText::Unknown { .. } => {}
        BoundsText::Range { low, high, .. } => {
            expression(names, low);
            expression(names, high);
        }
    }
}

/// Gives the names in bounds their numbers, where some are written.
pub fn optional_bounds(names: &NameList, written: &mut Option<BoundsText>)
    ensures { option_map bounds_of written.new ≡ option_map (number_bounds (number_in names.now)) (option_map bounds_of written.old) }
{
    match written {
        None => {}
        Some(written) => bounds(names, written),
    }
}

/// Gives the names in an expression their numbers, where one is written.
pub fn optional_expression(names: &NameList, written: &mut Option<Box<Expr>>)
    ensures { option_map on_heap written.new ≡ option_map (number_expression (number_in names.now)) (option_map on_heap written.old) }
{
    match written {
        None => {}
        Some(written) => expression(names, written),
    }
}
