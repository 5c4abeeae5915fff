// The walk over expressions.

ghost use Rattle.std.specs.Prelude.{◌≡◌, IfOk, map, false};
ghost use Rattle.ckc_text.specs.Places.{place_at};
ghost use Rattle.ckc_tree.specs.Types.{type_name as type_name_of};
ghost use Rattle.ckc_tree.specs.Expressions.{expression as expression_of, bounds as bounds_tree, Binary, Call, Calloc, Cast, BoundedCast, Malloc, Name, Index, Dot, Arrow, Unary};
ghost use Rattle.pointer_modes.specs.Types.{Int};
ghost use Rattle.ckc_core.specs.Core.{Number};
ghost use Rattle.region_typing_rules.specs.Verdicts.{Passes};
ghost use Rattle.region_typing_rules.specs.Operands.{beside, Value, ForNothing, site_at, name_typed, text_typed};
ghost use Rattle.region_typing_rules.specs.Expressions.{constant_typed, typed as typed_of, all_typed as all_typed_of, call_typed as call_typed_of};
ghost use Rattle.region_typing_rules.specs.Strings.{text_at};
ghost use Rattle.region_typing_scope.specs.Answering.{Answers};
ghost use Rattle.region_typing_scope.specs.Strings.{block as block_of};
ghost use Rattle.region_typing_scope.specs.Points.{point as point_of};
ghost use Rattle.region_typing_scope.specs.Views.{scope as scope_of, known_object};
ghost use Rattle.region_typing_scope.specs.OnHeap.{typed as typed_view};
ghost use Rattle.region_typing_scope.specs.Typed.{number_typed, size_typed, typed as inline_typed};
ghost use Rattle.region_typing_expressions.specs.Calls.{argument, called as called_as, called_with};
ghost use Rattle.region_typing_expressions.specs.Unbounded.{block_value, name_verdict, element_verdict, dotted_verdict, arrowed_verdict, unary_verdict};
ghost use Rattle.region_typing_expressions.specs.Slices.{expression_list};

use crate::allocations::{calloc, malloc};
use crate::calls::{Argument, Called, call, with_result};
use crate::casts::{cast, cast_bounds};
use crate::members::{arrowed, dotted};
use crate::operators::{binary, unary};
use crate::places::indexed;
use ckc_core::program;
use ckc_core::program::{CellPlace, Site};
use ckc_text::code::Code;
use ckc_text::fault::NoMemory;
use ckc_text::place::Span;
use ckc_tree::expr::{
    BinaryOperator, BoundsText, CallocWord, CastWord, Expr, MallocWord, UnaryOperator,
};
use ckc_tree::identifier::Identifier;
use ckc_tree::type_form::TypeName;
use pointer_modes::ctype::{CType, Kind, Mode};
use pointer_modes::structs::Structs;
use region_typing_scope::bounds::{array, in_force, row_of, with_bounds, with_cell_bounds};
use region_typing_scope::context::Context;
use region_typing_scope::lookups::KnownObject;
use region_typing_scope::point::Point;
use region_typing_scope::refusals::{CheckError, refusal};
use region_typing_scope::right_operands::{left_truth, told_by};
use region_typing_scope::scope::Scope;
use region_typing_scope::text_blocks::TextBlock;
use region_typing_scope::typed::{Typed, at_local, at_object, plain};
use region_typing_scope::types::{copied, type_named};

// A constant, which is 0 or not.
fn constant(context: &Context, zero: bool, number: i32) -> Result<Box<Typed>, NoMemory>
    ensures { IfOk result (λ t. typed_view t ≡ Value Int zero (Number number) ForNothing) }
{
    let value = context.boxed(program::Expr::Number(number))?;
    context.boxed(Typed::Value {
        ctype: CType::Int,
        zero,
        value,
    })
}

// A number, which has at most 31 bits.
fn number(context: &Context, value: u32, span: Span) -> Result<Box<Typed>, CheckError>
    ensures { Answers typed_view (number_typed value span) result }
{
    match i32::try_from(value) {
        Ok(number) => Ok(constant(context, value == 0, number)?),
        Err(_) => Err(refusal(Code::E04, span)),
    }
}

// A character at a span.
fn character(context: &Context, value: u8) -> Result<Box<Typed>, NoMemory>
    ensures { IfOk result (λ t. (span : Span) → constant_typed value false span ≡ Passes (typed_view t)) }
{
    constant(context, false, value as i32)
}

// The first character of a string, as a pointer to all of them but the zero that ends it.
fn text_value(
    context: &Context,
    structs: &Structs,
    block: TextBlock,
    site: Site,
) -> Result<Box<Typed>, NoMemory>
    ensures { IfOk result (λ t. typed_view t ≡ block_value structs.now site (block_of block)) }
{
    let bounds = in_force(
        structs,
        Kind::Nt,
        &CType::Char,
        Some(row_of(block.length)),
        site,
    );
    let pointed = context.boxed(CType::Char)?;
    let first = CellPlace::Direct {
        object: block.object,
        offset: 0,
    };
    let ctype = CType::Pointer(Mode::Checked, Kind::Nt, pointed);
    plain(
        context,
        ctype,
        program::Expr::AddressOf {
            cell: first,
            bounds,
        },
    )
}

// A string at a span.
fn text(context: &Context, scope: &Scope, span: Span) -> Result<Box<Typed>, CheckError>
    ensures { Answers typed_view (text_typed (scope_of scope.now).structs (text_at (scope_of scope.now).strings span.from)
        (site_at (place_at context.now) span) span) result }
{
    let block = scope.strings.block_at(span)?;
    Ok(text_value(context, &scope.structs, block, context.site(span))?)
}

// The bytes of a type.
fn size_of(context: &Context, scope: &Scope, t: &TypeName) -> Result<Box<Typed>, CheckError>
    ensures { Answers typed_view (size_typed (scope_of scope.now) (type_name_of t.now)) result }
{
    let named = type_named(context, scope, t)?;
    let bytes = scope.structs.size_of(&named);
    Ok(constant(context, false, bytes as i32)?)
}

// What a file-level variable is.
fn object_value(
    context: &Context,
    scope: &Scope,
    object: &KnownObject,
    site: Site,
) -> Result<Box<Typed>, NoMemory>
    ensures { IfOk result (λ t. typed_view t ≡ name_typed (scope_of scope.now) (known_object object.now) site) }
{
    let variable = object.variable;
    let ctype = copied(context, &variable.ctype)?;
    let structs = &scope.structs;
    let value = match variable.length {
        None => at_object(structs, ctype, object.number, variable.bounds, site),
        Some(length) => array(
            context,
            structs,
            object.number,
            ctype,
            length,
            variable.ended,
            site,
        )?,
    };
    context.boxed(value)
}

// What a name stands for.
fn named(
    context: &Context,
    point: &Point<'_>,
    name: usize,
    site: Site,
) -> Result<Box<Typed>, CheckError>
    ensures { Answers typed_view (name_verdict (point_of point.now) name site) result }
{
    let scope = point.scope;
    if let Some(local) = scope.local(name) {
        let ctype = copied(context, local.ctype)?;
        let is_array = scope.is_array(local.number);
        let value = at_local(
            &scope.structs,
            point.flow,
            ctype,
            local.number,
            is_array,
            site,
        );
        return Ok(context.boxed(value)?);
    }
    if let Some(object) = scope.object(name) {
        return Ok(object_value(context, scope, &object, site)?);
    }
    if name == scope.given.null {
        Ok(constant(context, true, 0)?)
    } else {
        Err(CheckError::Unnamed)
    }
}

// A name as an expression.
fn name_value(
    context: &Context,
    point: &Point<'_>,
    name: &Identifier,
) -> Result<Box<Typed>, CheckError>
    ensures { Answers typed_view (typed_of (place_at context.now) (point_of point.now) (Name name.now)) result }
{
    let t = named(context, point, name.number, context.site(name.span))?;
    with_bounds(context, point.scope, t, name.span)
}

// An element.
fn element_of(
    context: &Context,
    scope: &Scope,
    base: Box<Typed>,
    index: Box<Typed>,
    span: Span,
) -> Result<Box<Typed>, CheckError>
    ensures { Answers typed_view (element_verdict (scope_of scope.now) (typed_view base) (typed_view index) (site_at (place_at context.now) span) span) result }
{
    let t = indexed(context, base, index, context.site(span), span)?;
    with_cell_bounds(context, scope, t, span)
}

// What an expression is.
#[cycle(expressions)]
fn typed_at(context: &Context, point: &Point<'_>, e: &Expr) -> Result<Box<Typed>, CheckError>
    ensures { Answers typed_view (typed_of (place_at context.now) (point_of point.now) (expression_of e.now)) result }
{
    match e {
        Expr::Number { value, span } => number(context, *value, *span),
        Expr::Character { value, .. } => Ok(character(context, *value)?),
        Expr::Text { span, .. } => text(context, point.scope, *span),
        Expr::Name { name } => name_value(context, point, name),
        Expr::Call {
            callee,
            arguments,
            span,
        } => call_value(context, point, callee, arguments.as_slice(), *span),
        Expr::SizeOf { type_name, .. } => size_of(context, point.scope, type_name),
        Expr::Index { base, index, span } => element_value(context, point, base, index, *span),
        Expr::Dot { base, member, span } => member_of(context, point, base, member, *span),
        Expr::Arrow { base, member, span } => member_through(context, point, base, member, *span),
        Expr::Unary {
            operator,
            operand,
            span,
        } => unary_of(context, point, *operator, operand, *span),
        Expr::Binary {
            operator,
            left,
            right,
            span,
        } => binary_of(context, point, *operator, left, right, *span),
        Expr::Cast {
            word,
            type_name,
            operand,
            bounds,
            span,
        } => match bounds {
            None => cast_value(context, point, *word, type_name, operand, *span),
            Some(bounds) => {
                bounded_cast(context, point, *word, type_name, operand, bounds, *span)
            }
        },
        Expr::Malloc {
            word,
            type_name,
            size,
            span,
        } => malloc_of(context, point, *word, type_name, size, *span),
        Expr::Calloc {
            word,
            type_name,
            count,
            size,
            span,
        } => calloc_of(context, point, *word, type_name, count, size, *span),
    }
}

// An element, by the expressions of its base and its index.
#[cycle(expressions)]
fn element_value(
    context: &Context,
    point: &Point<'_>,
    base: &Expr,
    index: &Expr,
    span: Span,
) -> Result<Box<Typed>, CheckError>
    ensures { Answers typed_view (typed_of (place_at context.now) (point_of point.now) (Index (expression_of base.now) (expression_of index.now) span)) result }
{
    let base = typed_at(context, point, base)?;
    let index = typed_at(context, point, index)?;
    element_of(context, point.scope, base, index, span)
}

// An operator between its operands.
#[cycle(expressions)]
fn binary_of(
    context: &Context,
    point: &Point<'_>,
    operator: BinaryOperator,
    left: &Expr,
    right: &Expr,
    span: Span,
) -> Result<Box<Typed>, CheckError>
    ensures { Answers typed_view (typed_of (place_at context.now) (point_of point.now)
        (Binary operator (expression_of left.now) (expression_of right.now) span)) result }
{
    let left = typed_at(context, point, left)?;
    let right = right_typed(context, point, operator, right, &left)?;
    binary(context, point.scope, operator, left, right, span)
}

// What the right operand of an operator is: that of `&&` and that of `||` know what the left one told.
#[cycle(expressions)]
fn right_typed(
    context: &Context,
    point: &Point<'_>,
    operator: BinaryOperator,
    right: &Expr,
    left: &Typed,
) -> Result<Box<Typed>, CheckError>
    ensures { Answers typed_view (typed_of (place_at context.now) (beside operator (inline_typed left.now) (point_of point.now))
        (expression_of right.now)) result }
{
    match left_truth(operator) {
        None => typed_at(context, point, right),
        Some(truth) => {
            let flow = told_by(point, left, truth)?;
            let behind = Point {
                scope: point.scope,
                flow: &flow,
            };
            typed_at(context, &behind, right)
        }
    }
}

// The value of a call.
#[cycle(expressions)]
fn call_value(
    context: &Context,
    point: &Point<'_>,
    callee: &Identifier,
    arguments: &[Expr],
    span: Span,
) -> Result<Box<Typed>, CheckError>
    ensures { Answers typed_view (typed_of (place_at context.now) (point_of point.now) (Call callee.now (expression_list arguments.now) span)) result }
{
    let call = called(context, point, callee.number, arguments, span)?;
    with_result(context, call, span)
}

// A cast without bounds.
#[cycle(expressions)]
fn cast_value(
    context: &Context,
    point: &Point<'_>,
    word: CastWord,
    t: &TypeName,
    operand: &Expr,
    span: Span,
) -> Result<Box<Typed>, CheckError>
    ensures { Answers typed_view (typed_of (place_at context.now) (point_of point.now)
        (Cast word (type_name_of t.now) (expression_of operand.now) span)) result }
{
    let to = type_named(context, point.scope, t)?;
    let operand = typed_at(context, point, operand)?;
    cast(context, point.scope, word, to, operand, None, span)
}

// A cast with bounds.
#[cycle(expressions)]
fn bounded_cast(
    context: &Context,
    point: &Point<'_>,
    word: CastWord,
    t: &TypeName,
    operand: &Expr,
    bounds: &BoundsText,
    span: Span,
) -> Result<Box<Typed>, CheckError>
    ensures { Answers typed_view (typed_of (place_at context.now) (point_of point.now)
        (BoundedCast word (type_name_of t.now) (expression_of operand.now) (bounds_tree bounds.now) span)) result }
{
    let to = type_named(context, point.scope, t)?;
    let operand = typed_at(context, point, operand)?;
    let written = cast_bounds(context, point, &to, bounds)?;
    cast(context, point.scope, word, to, operand, written, span)
}

// New memory of a size.
#[cycle(expressions)]
fn malloc_of(
    context: &Context,
    point: &Point<'_>,
    word: MallocWord,
    t: &TypeName,
    size: &Expr,
    span: Span,
) -> Result<Box<Typed>, CheckError>
    ensures { Answers typed_view (typed_of (place_at context.now) (point_of point.now)
        (Malloc word (type_name_of t.now) (expression_of size.now) span)) result }
{
    let t = type_named(context, point.scope, t)?;
    let value = typed_at(context, point, size)?;
    malloc(context, point.scope, word, t, size, value, span)
}

// New memory of a number of elements.
#[cycle(expressions)]
fn calloc_of(
    context: &Context,
    point: &Point<'_>,
    word: CallocWord,
    t: &TypeName,
    count: &Expr,
    size: &Expr,
    span: Span,
) -> Result<Box<Typed>, CheckError>
    ensures { Answers typed_view (typed_of (place_at context.now) (point_of point.now)
        (Calloc word (type_name_of t.now) (expression_of count.now) (expression_of size.now) span)) result }
{
    let t = type_named(context, point.scope, t)?;
    let count = typed_at(context, point, count)?;
    let _size = typed_at(context, point, size)?;
    calloc(context, point.scope, word, t, count, size, span)
}

// A member of a struct, before its bounds are noted.
#[cycle(expressions)]
fn dotted_by(
    context: &Context,
    point: &Point<'_>,
    base: &Expr,
    member: &Identifier,
    span: Span,
) -> Result<Box<Typed>, CheckError>
    ensures { Answers typed_view (dotted_verdict (place_at context.now) (point_of point.now) (expression_of base.now) member.now.number span) result }
{
    let base = typed_at(context, point, base)?;
    let site = context.site(span);
    dotted(context, point.scope, base, member.number, site, span)
}

// A member of a struct.
#[cycle(expressions)]
fn member_of(
    context: &Context,
    point: &Point<'_>,
    base: &Expr,
    member: &Identifier,
    span: Span,
) -> Result<Box<Typed>, CheckError>
    ensures { Answers typed_view (typed_of (place_at context.now) (point_of point.now) (Dot (expression_of base.now) member.now span)) result }
{
    let t = dotted_by(context, point, base, member, span)?;
    with_cell_bounds(context, point.scope, t, span)
}

// A member of the struct that a pointer points to, before its bounds are noted.
#[cycle(expressions)]
fn arrowed_by(
    context: &Context,
    point: &Point<'_>,
    base: &Expr,
    member: &Identifier,
    span: Span,
) -> Result<Box<Typed>, CheckError>
    ensures { Answers typed_view (arrowed_verdict (place_at context.now) (point_of point.now) (expression_of base.now) member.now.number span) result }
{
    let base = typed_at(context, point, base)?;
    let site = context.site(span);
    arrowed(context, point.scope, base, member.number, site, span)
}

// A member of the struct that a pointer points to.
#[cycle(expressions)]
fn member_through(
    context: &Context,
    point: &Point<'_>,
    base: &Expr,
    member: &Identifier,
    span: Span,
) -> Result<Box<Typed>, CheckError>
    ensures { Answers typed_view (typed_of (place_at context.now) (point_of point.now) (Arrow (expression_of base.now) member.now span)) result }
{
    let t = arrowed_by(context, point, base, member, span)?;
    with_cell_bounds(context, point.scope, t, span)
}

// An operator before its operand, before the bounds of what it gives are noted.
#[cycle(expressions)]
fn operated_by(
    context: &Context,
    point: &Point<'_>,
    operator: UnaryOperator,
    operand: &Expr,
    span: Span,
) -> Result<Box<Typed>, CheckError>
    ensures { Answers typed_view (unary_verdict (place_at context.now) (point_of point.now) operator (expression_of operand.now) span) result }
{
    let operand = typed_at(context, point, operand)?;
    unary(context, operator, operand, context.site(span), span)
}

// An operator before its operand.
#[cycle(expressions)]
fn unary_of(
    context: &Context,
    point: &Point<'_>,
    operator: UnaryOperator,
    operand: &Expr,
    span: Span,
) -> Result<Box<Typed>, CheckError>
    ensures { Answers typed_view (typed_of (place_at context.now) (point_of point.now) (Unary operator (expression_of operand.now) span)) result }
{
    let t = operated_by(context, point, operator, operand, span)?;
    with_cell_bounds(context, point.scope, t, span)
}

/// What arguments are, from left to right.
#[cycle(expressions)]
fn all_typed(
    context: &Context,
    point: &Point<'_>,
    arguments: &[Expr],
) -> Result<Vec<Argument>, CheckError>
    ensures { Answers (λ v. map argument v.items) (all_typed_of (place_at context.now) (point_of point.now) (expression_list arguments.now)) result }
{
    let mut built = Vec::new(context.alloc());
    for written in arguments {
        let typed = typed_at(context, point, written)?;
        built.push(Argument {
            typed,
            span: written.span(),
        })?;
    }
    Ok(built)
}

/// A call of a function by its name, with what its arguments are.
#[cycle(expressions)]
fn called(
    context: &Context,
    point: &Point<'_>,
    name: usize,
    arguments: &[Expr],
    span: Span,
) -> Result<Called, CheckError>
    ensures { Answers called_as (called_with (place_at context.now) (point_of point.now) name (expression_list arguments.now) span) result }
{
    let arguments = all_typed(context, point, arguments)?;
    call(context, point, name, arguments, context.site(span), span)
}

/// What an expression is.
pub fn typed(context: &Context, scope: &Scope, e: &Expr) -> Result<Box<Typed>, CheckError>
    ensures { Answers typed_view (typed_of (place_at context.now) (scope_of scope.now) (expression_of e.now)) result }
{
    typed_at(context, &scope.point(), e)
}

// A call that stands alone, at a point.
fn call_at(context: &Context, point: &Point<'_>, e: &Expr) -> Result<Called, CheckError>
    ensures { Answers called_as (call_typed_of (place_at context.now) (point_of point.now) (expression_of e.now)) result }
{
    match e {
        Expr::Call {
            callee,
            arguments,
            span,
        } => {
            let arguments = arguments.as_slice();
            called(context, point, callee.number, arguments, *span)
        }
        _ => Err(refusal(Code::E13, Span { from: 0, to: 0 })),
    }
}

/// A call that stands alone.
pub fn call_typed(context: &Context, scope: &Scope, e: &Expr) -> Result<Called, CheckError>
    ensures { Answers called_as (call_typed_of (place_at context.now) (scope_of scope.now) (expression_of e.now)) result }
{
    call_at(context, &scope.point(), e)
}
