// Building expressions and bounds from their parts.

ghost use Rattle.std.specs.Prelude.{◌≡◌, ◌≤◌};
ghost use Rattle.ckc_tree.specs.Expressions as trees;
ghost use Rattle.ckc_tree.specs.Expressions.{expression, bounds as bounds_of};
ghost use Rattle.ckc_tree.specs.Types.{type_name as type_name_of};
ghost use Rattle.ckc_tree.specs.Heights.{node, expression_reach};
ghost use Rattle.ckc_parser_grammar.specs.Tokens as words;
ghost use Rattle.ckc_parser.specs.Reaches.{reach_of};
ghost use Rattle.ckc_parser.specs.Readings.{listed, member_of, Builds};

use crate::bounds::ReadBounds;
use crate::expressions::Ended;
use crate::operand::{Operand, Reach};
use crate::primary::{ReadArguments, Typed};
use crate::types::ReadTypeName;
use ckc_parser_grammar::spans::join;
use ckc_parser_grammar::stuck::Stuck;
use ckc_text::on_heap::boxed;
use ckc_text::place::Span;
use ckc_tree::expr::{
    BinaryOperator, BoundsText, CallocWord, CastWord, Expr, MallocWord, UnaryOperator,
};
use ckc_tree::identifier::Identifier;
use std::alloc::Global;

/// An expression with its reach, and with these bytes around it.
fn built(alloc: Global, expr: Expr, outer: Span, reach: Reach) -> Result<Operand, Stuck>
    requires { reach_of reach ≡ expression_reach (expression expr) }
    ensures { Builds (expression expr) outer result }
{
    let expr = boxed(alloc, expr)?;
    Ok(Operand { expr, outer, reach })
}

/// An expression of one token.
pub fn leaf(alloc: Global, expr: Expr, span: Span) -> Result<Operand, Stuck>
    requires { expression_reach (expression expr) ≡ node span.from }
    ensures { Builds (expression expr) span result }
{
    let reach = Reach::nowhere().around(span.from);
    built(alloc, expr, span, reach)
}

/// An operator before its operand.
pub fn unary_with(
    alloc: Global,
    operator: UnaryOperator,
    start: Span,
    operand: Operand,
) -> Result<Operand, Stuck>
    requires { operand.reach.height ≤ 200 }
    ensures { Builds (trees.Unary operator (expression operand.expr.value) (words.join start operand.outer)) (words.join start operand.outer) result }
{
    let span = join(start, operand.outer);
    let reach = operand.reach.around(span.from);
    let expr = Expr::Unary {
        operator,
        operand: operand.expr,
        span,
    };
    built(alloc, expr, span, reach)
}

/// An operator between its operands.
pub fn binary_with(
    alloc: Global,
    operator: BinaryOperator,
    left: Operand,
    right: Operand,
) -> Result<Operand, Stuck>
    requires left { left.reach.height ≤ 200 }
    requires right { right.reach.height ≤ 200 }
    ensures { Builds (trees.Binary operator (expression left.expr.value) (expression right.expr.value) (words.join left.outer right.outer))
        (words.join left.outer right.outer) result }
{
    let span = join(left.outer, right.outer);
    let reach = left.reach.beside(right.reach).around(span.from);
    let expr = Expr::Binary {
        operator,
        left: left.expr,
        right: right.expr,
        span,
    };
    built(alloc, expr, span, reach)
}

/// An element, up to the bracket behind its index.
pub fn index_with(alloc: Global, base: Operand, index: Ended) -> Result<Operand, Stuck>
    requires base { base.reach.height ≤ 200 }
    requires index { index.operand.reach.height ≤ 200 }
    ensures { Builds (trees.Index (expression base.expr.value) (expression index.operand.expr.value) (words.join base.outer index.end))
        (words.join base.outer index.end) result }
{
    let span = join(base.outer, index.end);
    let reach = base.reach.beside(index.operand.reach).around(span.from);
    let expr = Expr::Index {
        base: base.expr,
        index: index.operand.expr,
        span,
    };
    built(alloc, expr, span, reach)
}

/// A member of a struct or, by an arrow, of what a pointer points to.
pub fn member_with(
    alloc: Global,
    base: Operand,
    is_arrow: bool,
    member: Identifier,
) -> Result<Operand, Stuck>
    requires { base.reach.height ≤ 200 }
    ensures { Builds (member_of is_arrow (expression base.expr.value) member (words.join base.outer member.span)) (words.join base.outer member.span) result }
{
    let span = join(base.outer, member.span);
    let reach = base.reach.around(span.from);
    let base = base.expr;
    let expr = if is_arrow {
        Expr::Arrow { base, member, span }
    } else {
        Expr::Dot { base, member, span }
    };
    built(alloc, expr, span, reach)
}

/// A call, up to the parenthesis behind its arguments.
pub fn call_with(
    alloc: Global,
    callee: Identifier,
    arguments: ReadArguments,
    end: Span,
) -> Result<Operand, Stuck>
    requires { arguments.reach.height ≤ 200 }
    ensures { Builds (trees.Call callee (listed arguments.items.items) (words.join callee.span end)) (words.join callee.span end) result }
{
    let span = join(callee.span, end);
    let reach = arguments.reach.around(span.from);
    let expr = Expr::Call {
        callee,
        arguments: arguments.items,
        span,
    };
    built(alloc, expr, span, reach)
}

/// The size of a type.
pub fn size_of_with(alloc: Global, read: ReadTypeName, outer: Span) -> Result<Operand, Stuck>
    requires { read.reach.height ≤ 200 }
    ensures { Builds (trees.SizeOf (type_name_of read.type_name) outer) outer result }
{
    let reach = read.reach.around(outer.from);
    let expr = Expr::SizeOf {
        type_name: read.type_name,
        span: outer,
    };
    built(alloc, expr, outer, reach)
}

/// A cast without bounds.
pub fn cast_with(alloc: Global, word: CastWord, parts: Typed, outer: Span) -> Result<Operand, Stuck>
    requires type_name { parts.read.reach.height ≤ 200 }
    requires operand { parts.operand.reach.height ≤ 200 }
    ensures { Builds (trees.Cast word (type_name_of parts.read.type_name) (expression parts.operand.expr.value) outer) outer result }
{
    let reach = parts.reach().around(outer.from);
    let expr = Expr::Cast {
        word,
        type_name: parts.read.type_name,
        operand: parts.operand.expr,
        bounds: None,
        span: outer,
    };
    built(alloc, expr, outer, reach)
}

/// A cast with bounds.
pub fn bounded_cast_with(
    alloc: Global,
    word: CastWord,
    parts: Typed,
    written: ReadBounds,
    outer: Span,
) -> Result<Operand, Stuck>
    requires type_name { parts.read.reach.height ≤ 200 }
    requires operand { parts.operand.reach.height ≤ 200 }
    requires written { written.reach.height ≤ 200 }
    ensures { Builds (trees.BoundedCast word (type_name_of parts.read.type_name) (expression parts.operand.expr.value)
        (bounds_of written.text) outer) outer result }
{
    let reach = parts.reach().beside(written.reach).around(outer.from);
    let bounds = boxed(alloc, written.text)?;
    let expr = bounded_cast(word, parts, bounds, outer);
    built(alloc, expr, outer, reach)
}

/// The cast with these parts.
fn bounded_cast(word: CastWord, parts: Typed, written: Box<BoundsText>, span: Span) -> Expr
    ensures { expression result ≡ trees.BoundedCast word (type_name_of parts.read.type_name) (expression parts.operand.expr.value)
        (bounds_of written.value) span }
{
    Expr::Cast {
        word,
        type_name: parts.read.type_name,
        operand: parts.operand.expr,
        bounds: Some(written),
        span,
    }
}

/// An allocation of a size.
pub fn malloc_with(
    alloc: Global,
    word: MallocWord,
    parts: Typed,
    outer: Span,
) -> Result<Operand, Stuck>
    requires type_name { parts.read.reach.height ≤ 200 }
    requires size { parts.operand.reach.height ≤ 200 }
    ensures { Builds (trees.Malloc word (type_name_of parts.read.type_name) (expression parts.operand.expr.value) outer) outer result }
{
    let reach = parts.reach().around(outer.from);
    let expr = Expr::Malloc {
        word,
        type_name: parts.read.type_name,
        size: parts.operand.expr,
        span: outer,
    };
    built(alloc, expr, outer, reach)
}

/// An allocation of elements, from its word to the parenthesis behind the size of one.
pub fn calloc_with(
    alloc: Global,
    word: CallocWord,
    parts: Typed,
    size: Ended,
    start: Span,
) -> Result<Operand, Stuck>
    requires type_name { parts.read.reach.height ≤ 200 }
    requires count { parts.operand.reach.height ≤ 200 }
    requires size { size.operand.reach.height ≤ 200 }
    ensures { Builds (trees.Calloc word (type_name_of parts.read.type_name) (expression parts.operand.expr.value)
        (expression size.operand.expr.value) (words.join start size.end)) (words.join start size.end) result }
{
    let span = join(start, size.end);
    let reach = parts.reach().beside(size.operand.reach).around(span.from);
    let expr = Expr::Calloc {
        word,
        type_name: parts.read.type_name,
        count: parts.operand.expr,
        size: size.operand.expr,
        span,
    };
    built(alloc, expr, span, reach)
}
