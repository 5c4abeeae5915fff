// Printing of expressions and bounds.

ghost use Rattle.std.specs.Prelude.{◌∷◌, [], ◌++◌};
ghost use Rattle.ckc_tree.specs.Types.{type_name as type_name_tree};
ghost use Rattle.ckc_tree.specs.Expressions.{expression, bounds};
ghost use Rattle.ckc_printer.specs.ExpressionPieces.{operand_pieces, expression_pieces, arguments_pieces, bounds_pieces};
ghost use Rattle.ckc_printer.specs.TypePieces.{angled_pieces};
ghost use Rattle.ckc_printer.specs.Parts.{HasAngledType, size_pieces, closed_pieces, limits_pieces, call_pieces, malloc_pieces, calloc_pieces, index_pieces, unary_pieces, binary_pieces};
ghost use Rattle.ckc_printer.specs.Slices.{expressions_of};
ghost use Rattle.ckc_printer.specs.Output.{Puts};
ghost use Rattle.ckc_printer.specs.Spaced.{spaced, spaced_text};

use crate::operands::is_compound;
use crate::operator_texts::{binary_text, calloc_text, cast_text, malloc_text, unary_text};
use crate::output::Output;
use crate::quoted::{put_character, put_string};
use crate::signs::{put, put_if, put_name, put_number};
use crate::types::{angled, type_with_stars};
use ckc_tree::expr::{BinaryOperator, BoundsText, CallocWord, Expr, MallocWord, UnaryOperator};
use ckc_tree::identifier::Identifier;
use ckc_tree::type_form::TypeName;

/// A word, a type in angle brackets and the parenthesis behind them.
fn put_opened(out: &mut Output, word: &[u8], type_name: &TypeName)
    ensures { Puts out.old out.new ((spaced word.now ++ (spaced_text (angled_pieces (type_name_tree type_name.now)) ++ spaced (40 ∷ [])))) }
{
    put(out, word);
    angled(out, type_name);
    put(out, b"(");
}

/// The size of a type.
#[tactic(auto, using(crate::proofs::Texts::spaced_append))]
fn put_size(out: &mut Output, type_name: &TypeName)
    ensures { Puts out.old out.new (spaced_text (size_pieces (type_name_tree type_name.now))) }
{
    put(out, b"sizeof (");
    type_with_stars(out, type_name);
    put(out, b")");
}

/// An expression.
#[cycle(expressions)]
#[tactic(auto, using(crate::proofs::Texts::spaced_append, crate::proofs::Texts::spaced_around))]
pub fn put_expr(out: &mut Output, expr: &Expr)
    ensures { Puts out.old out.new (spaced_text (expression_pieces (expression expr.now))) }
{
    match expr {
        Expr::Number { value, .. } => put_number(out, *value),
        Expr::Character { value, .. } => put_character(out, *value),
        Expr::Text { bytes, .. } => put_string(out, bytes.as_slice()),
        Expr::Name { name } => put_name(out, name),
        Expr::Call {
            callee,
            arguments,
            ..
        } => put_call(out, callee, arguments.as_slice()),
        Expr::SizeOf { type_name, .. } => put_size(out, type_name),
        Expr::Cast { .. } | Expr::Malloc { .. } | Expr::Calloc { .. } => put_with_type(out, expr),
        Expr::Index { base, index, .. } => put_index(out, base, index),
        Expr::Dot { base, member, .. } => put_member(out, base, b".", member),
        Expr::Arrow { base, member, .. } => put_member(out, base, b"->", member),
        Expr::Unary {
            operator,
            operand,
            ..
        } => put_unary(out, *operator, operand),
        Expr::Binary {
            operator,
            left,
            right,
            ..
        } => put_binary(out, *operator, left, right),
    }
}

/// A cast or an allocation: a word with a type in angle brackets behind it.
#[cycle(expressions)]
#[tactic(auto, using(crate::proofs::Texts::spaced_append))]
fn put_with_type(out: &mut Output, expr: &Expr)
    requires { HasAngledType expr.now }
    ensures { Puts out.old out.new (spaced_text (expression_pieces (expression expr.now))) }
{
    match expr {
        Expr::Cast {
            word,
            type_name,
            operand,
            bounds,
            ..
        } => {
            put_opened(out, cast_text(*word), type_name);
            put_expr(out, operand);
            match bounds {
                Some(written) => put_limits(out, written),
                None => put(out, b")"),
            }
        }
        Expr::Malloc {
            word,
            type_name,
            size,
            ..
        } => put_malloc(out, *word, type_name, size),
        Expr::Calloc {
            word,
            type_name,
            count,
            size,
            ..
        } => put_calloc(out, *word, type_name, count, size),
        _ => unreachable!(),
    }
}

/// An allocation of a size.
#[cycle(expressions)]
#[tactic(auto, using(crate::proofs::Texts::spaced_append))]
fn put_malloc(out: &mut Output, word: MallocWord, type_name: &TypeName, size: &Expr)
    ensures { Puts out.old out.new (spaced_text (malloc_pieces word (type_name_tree type_name.now) (expression size.now))) }
{
    put_opened(out, malloc_text(word), type_name);
    put_closed(out, size);
}

/// An allocation of elements.
#[cycle(expressions)]
#[tactic(auto, using(crate::proofs::Texts::spaced_append))]
fn put_calloc(out: &mut Output, word: CallocWord, type_name: &TypeName, count: &Expr, size: &Expr)
    ensures { Puts out.old out.new (spaced_text (calloc_pieces word (type_name_tree type_name.now) (expression count.now) (expression size.now))) }
{
    put_opened(out, calloc_text(word), type_name);
    put_expr(out, count);
    put(out, b",");
    put_closed(out, size);
}

/// An element.
#[cycle(expressions)]
#[tactic(auto, using(crate::proofs::Texts::spaced_append))]
fn put_index(out: &mut Output, base: &Expr, index: &Expr)
    ensures { Puts out.old out.new (spaced_text (index_pieces (expression base.now) (expression index.now))) }
{
    put_operand(out, base);
    put(out, b"[");
    put_expr(out, index);
    put(out, b"]");
}

/// A member, behind this mark.
#[cycle(expressions)]
fn put_member(out: &mut Output, base: &Expr, mark: &[u8], member: &Identifier)
    ensures { Puts out.old out.new (spaced_text (operand_pieces (expression base.now)) ++ (spaced mark.now ++ spaced member.now.name)) }
{
    put_operand(out, base);
    put(out, mark);
    put_name(out, member);
}

/// An operator before its operand.
#[cycle(expressions)]
#[tactic(auto, using(crate::proofs::Texts::spaced_append))]
fn put_unary(out: &mut Output, operator: UnaryOperator, operand: &Expr)
    ensures { Puts out.old out.new (spaced_text (unary_pieces operator (expression operand.now))) }
{
    put(out, unary_text(operator));
    put_operand(out, operand);
}

/// An operator between its operands.
#[cycle(expressions)]
#[tactic(auto, using(crate::proofs::Texts::spaced_append))]
fn put_binary(out: &mut Output, operator: BinaryOperator, left: &Expr, right: &Expr)
    ensures { Puts out.old out.new (spaced_text (binary_pieces operator (expression left.now) (expression right.now))) }
{
    put_operand(out, left);
    put(out, binary_text(operator));
    put_operand(out, right);
}

/// An operand or a base, in parentheses where it is compound.
#[cycle(expressions)]
#[tactic(auto, using(crate::proofs::Texts::spaced_around))]
fn put_operand(out: &mut Output, operand: &Expr)
    ensures { Puts out.old out.new (spaced_text (operand_pieces (expression operand.now))) }
{
    let compound = is_compound(operand);
    put_if(out, compound, b"(");
    put_expr(out, operand);
    put_if(out, compound, b")");
}

/// An expression and the parenthesis behind it.
#[cycle(expressions)]
#[tactic(auto, using(crate::proofs::Texts::spaced_append))]
fn put_closed(out: &mut Output, last: &Expr)
    ensures { Puts out.old out.new (spaced_text (closed_pieces (expression last.now))) }
{
    put_expr(out, last);
    put(out, b")");
}

/// The bounds of a cast, between the comma before them and the parenthesis behind them.
#[cycle(expressions)]
#[tactic(auto, using(crate::proofs::Texts::spaced_append))]
fn put_limits(out: &mut Output, written: &BoundsText)
    ensures { Puts out.old out.new (spaced_text (limits_pieces (bounds written.now))) }
{
    put(out, b",");
    put_bounds(out, written);
    put(out, b")");
}

/// A call.
#[cycle(expressions)]
#[tactic(auto, using(crate::proofs::Texts::spaced_append))]
fn put_call(out: &mut Output, callee: &Identifier, arguments: &[Expr])
    ensures { Puts out.old out.new (spaced_text (call_pieces callee.now (expressions_of arguments.now))) }
{
    put_name(out, callee);
    put(out, b"(");
    put_arguments(out, arguments);
    put(out, b")");
}

/// The arguments of a call, with commas between.
#[cycle(expressions)]
fn put_arguments(out: &mut Output, arguments: &[Expr])
    ensures { Puts out.old out.new (spaced_text (arguments_pieces (expressions_of arguments.now))) }
{
    for (place, argument) in arguments.iter().enumerate() {
        put_if(out, place > 0, b",");
        put_expr(out, argument);
    }
}

/// Bounds.
#[cycle(expressions)]
#[tactic(auto, using(crate::proofs::Texts::spaced_append))]
pub fn put_bounds(out: &mut Output, written: &BoundsText)
    ensures { Puts out.old out.new (spaced_text (bounds_pieces (bounds written.now))) }
{
    match written {
        BoundsText::Count { count, .. } => {
            put(out, b"count (");
            put_closed(out, count);
        }
        BoundsText::ByteCount { count, .. } => {
            put(out, b"byte_count (");
            put_closed(out, count);
        }
        BoundsText::Unknown { .. } => put(out, b"bounds ( unknown )"),
        BoundsText::Range { low, high, .. } => {
            put(out, b"bounds (");
            put_expr(out, low);
            put(out, b",");
            put_closed(out, high);
        }
    }
}
