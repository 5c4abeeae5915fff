// The strings of expressions and of initial values.

ghost use Rattle.std.specs.Prelude.{◌≡◌, ◌++◌, map, IfOk};
ghost use Rattle.std.specs.Option.{option_map};
ghost use Rattle.ckc_tree.specs.Expressions.{expression};
ghost use Rattle.ckc_tree.specs.Statements.{initializer as initializer_of, on_heap};
ghost use Rattle.ckc_tree.specs.Texts.{text, expression_texts, expressions_texts, optional_texts, initializer_texts};
ghost use Rattle.ckc_tree.specs.Slices.{expressions_of};

use crate::expr::Expr;
use crate::stmt::Initializer;
use crate::text::{Text, push_text};
use ckc_text::fault::NoMemory;
use std::alloc::Global;

/// Puts the strings of an expression behind others, in the order of the source. Where memory runs out, some of them may stand
/// there already.
#[cycle(expressions)]
pub fn push_expression_texts(
    alloc: Global,
    written: &Expr,
    texts: &mut Vec<Text>,
) -> Result<(), NoMemory>
    ensures { IfOk result (λ _. map text texts.new.items ≡ map text texts.old.items ++ expression_texts (expression written.now)) }
{
    match written {
        Expr::Number { .. } | Expr::Character { .. } | Expr::Name { .. } | Expr::SizeOf { .. } =>
            Ok(()),
        Expr::Text { bytes, span } => push_text(alloc, bytes.as_slice(), *span, texts),
        Expr::Call { arguments, .. } => push_arguments_texts(alloc, arguments.as_slice(), texts),
        Expr::Cast { operand, .. } | Expr::Unary { operand, .. } => {
            push_expression_texts(alloc, operand, texts)
        }
        Expr::Malloc { size, .. } => push_expression_texts(alloc, size, texts),
        Expr::Calloc { count, size, .. } => {
            push_expression_texts(alloc, count, texts)?;
            push_expression_texts(alloc, size, texts)
        }
        Expr::Index { base, index, .. } => {
            push_expression_texts(alloc, base, texts)?;
            push_expression_texts(alloc, index, texts)
        }
        Expr::Dot { base, .. } | Expr::Arrow { base, .. } => {
            push_expression_texts(alloc, base, texts)
        }
        Expr::Binary { left, right, .. } => {
            push_expression_texts(alloc, left, texts)?;
            push_expression_texts(alloc, right, texts)
        }
    }
}

// Puts the strings of arguments behind others.
#[cycle(expressions)]
fn push_arguments_texts(
    alloc: Global,
    arguments: &[Expr],
    texts: &mut Vec<Text>,
) -> Result<(), NoMemory>
    ensures { IfOk result (λ _. map text texts.new.items ≡ map text texts.old.items ++ expressions_texts (expressions_of arguments.now)) }
{
    for argument in arguments {
        push_expression_texts(alloc, argument, texts)?;
    }
    Ok(())
}

/// Puts the strings of an expression behind others, if there is one.
pub fn push_optional_texts(
    alloc: Global,
    written: &Option<Box<Expr>>,
    texts: &mut Vec<Text>,
) -> Result<(), NoMemory>
    ensures { IfOk result (λ _. map text texts.new.items ≡ map text texts.old.items ++ optional_texts (option_map on_heap written.now)) }
{
    match written {
        None => Ok(()),
        Some(value) => push_expression_texts(alloc, value, texts),
    }
}

/// Puts the strings of the initial value of a variable behind others, in the order of the source, if it has one. Where memory runs
/// out, some of them may stand there already.
pub fn push_initializer_texts(
    alloc: Global,
    initializer: &Option<Initializer>,
    texts: &mut Vec<Text>,
) -> Result<(), NoMemory>
    ensures { IfOk result (λ _. map text texts.new.items ≡ map text texts.old.items ++ initializer_texts (option_map initializer_of initializer.now)) }
{
    match initializer {
        None | Some(Initializer::List { .. }) => Ok(()),
        Some(Initializer::Value { value }) => push_expression_texts(alloc, value, texts),
    }
}
