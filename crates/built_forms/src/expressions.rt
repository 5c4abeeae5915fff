// Types and expressions of built forms.

ghost use Rattle.std.specs.Prelude.{◌≡◌};
ghost use Rattle.std.specs.List.{list_all};
ghost use Rattle.ckc_tree.specs.Types.{type_tree};
ghost use Rattle.ckc_tree.specs.Expressions.{bounds, expression};
ghost use Rattle.built_forms.specs.Built as built;

use ckc_tree::expr::{BoundsText, Expr, MallocWord};
use ckc_tree::type_form::{PointerMode, TypeForm};

/// Whether a type has only forms that are built.
pub fn built_type(base: &TypeForm) -> bool
    ensures { result ≡ built.built_type (type_tree base.now) }
{
    match base {
        TypeForm::Int { .. } | TypeForm::Char { .. } | TypeForm::Struct { .. } => true,
        TypeForm::Pointer { word, element, .. } => is_checked(word.mode) && built_type(element),
    }
}

fn is_checked(mode: PointerMode) -> bool
    ensures { result ≡ built.is_checked_mode mode }
{
    match mode {
        PointerMode::Checked => true,
        PointerMode::Tainted => false,
    }
}

/// Whether a type is that of a number.
pub fn is_number_type(base: &TypeForm) -> bool
    ensures { result ≡ built.is_number_type (type_tree base.now) }
{
    match base {
        TypeForm::Int { .. } | TypeForm::Char { .. } => true,
        TypeForm::Struct { .. } | TypeForm::Pointer { .. } => false,
    }
}

fn is_built_malloc(word: MallocWord) -> bool
    ensures { result ≡ built.is_built_malloc word }
{
    match word {
        MallocWord::Malloc => true,
        MallocWord::TMalloc => false,
    }
}

/// Whether an expression has only forms that are built.
#[cycle(expressions)]
pub fn built_expression(written: &Expr) -> bool
    ensures { result ≡ built.built_expression (expression written.now) }
{
    match written {
        Expr::Number { .. } | Expr::Character { .. } | Expr::Text { .. } | Expr::Name { .. } =>
            true,
        Expr::Call { arguments, .. } => built_arguments(arguments.as_slice()),
        Expr::SizeOf { type_name, .. } => built_type(&type_name.base),
        Expr::Cast {
            type_name,
            operand,
            bounds: Some(bounds),
            ..
        } => built_type(&type_name.base) && built_expression(operand) && built_bounds(bounds),
        Expr::Cast {
            type_name,
            operand,
            ..
        } => built_type(&type_name.base) && built_expression(operand),
        Expr::Malloc {
            word,
            type_name,
            size,
            ..
        } => is_built_malloc(*word) && built_type(&type_name.base) && built_expression(size),
        Expr::Calloc {
            type_name,
            count,
            size,
            ..
        } => built_type(&type_name.base) && built_expression(count) && built_expression(size),
        Expr::Index { base, index, .. } => built_expression(base) && built_expression(index),
        Expr::Dot { base, .. } | Expr::Arrow { base, .. } => built_expression(base),
        Expr::Unary { operand, .. } => built_expression(operand),
        Expr::Binary { left, right, .. } => built_expression(left) && built_expression(right),
    }
}

// Whether all arguments have only forms that are built.
#[cycle(expressions)]
fn built_arguments(arguments: &[Expr]) -> bool
    ensures { result ≡ list_all (λ x. built.built_expression (expression x)) arguments.now }
{
    for argument in arguments {
        if !built_expression(argument) {
            return false;
        }
    }
    true
}

/// Whether the expressions in bounds have only forms that are built.
#[cycle(expressions)]
pub fn built_bounds(written: &BoundsText) -> bool
    ensures { result ≡ built.built_bounds (bounds written.now) }
{
    match written {
        BoundsText::Count { count, .. } | BoundsText::ByteCount { count, .. } => {
            built_expression(count)
        }
        BoundsText::Unknown { .. } => true,
        BoundsText::Range { low, high, .. } => built_expression(low) && built_expression(high),
    }
}
