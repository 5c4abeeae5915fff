// New memory.

ghost use Rattle.std.specs.Prelude.{◌≡◌, false, Some, None, IfOk};
ghost use Rattle.std.specs.Option.{option_map};
ghost use Rattle.ckc_text.specs.Places.{place_at};
ghost use Rattle.pointer_modes.specs.Types.{ctype as ctype_of};
ghost use Rattle.ckc_tree.specs.Expressions.{expression as expression_of};
ghost use Rattle.ckc_core.specs.Core.{Expression, expression};
ghost use Rattle.region_typing_rules.specs.Verdicts.{picked};
ghost use Rattle.region_typing_rules.specs.Operands.{site_at};
ghost use Rattle.region_typing_rules.specs.NewMemory.{is_size as size_of_type, factor_beside, elements_in as elements_in_size, row_counted as row_counted_of, allocation as allocation_of, ended_allocation as ended_allocation_of, allocated_in as allocated_in_size, allocated_of as allocated_of_count, ended_of as ended_of_count, malloc_typed, calloc_typed};
ghost use Rattle.region_typing_rules.specs.Statements.{array_kind as array_kind_of};
ghost use Rattle.region_typing_scope.specs.Answering.{Answers};
ghost use Rattle.region_typing_scope.specs.OnHeap.{typed, expression as boxed_expression};
ghost use Rattle.region_typing_scope.specs.Views.{scope as scope_of};
ghost use Rattle.region_typing_expressions.specs.Allocations.{factor_of, factor_in, alone_in, counted as counted_in, memory_of};

use act_words::operator::{ArithmeticOperator, Operator};
use bounds_exprs::expression::constant as constant_term;
use bounds_exprs::term::{Bounds, Term};
use ckc_core::char_cells::has_one_byte;
use ckc_core::program::{Expr, PointerBounds, Site, Terminator};
use ckc_text::code::Code;
use ckc_text::fault::NoMemory;
use ckc_text::place::Span;
use ckc_tree::expr;
use ckc_tree::expr::{BinaryOperator, CallocWord, MallocWord};
use pointer_modes::ctype::{CType, Kind, Mode};
use pointer_modes::structs::Structs;
use region_typing_flow::readings::term;
use region_typing_scope::context::Context;
use region_typing_scope::initial_cells::cells_with;
use region_typing_scope::operands::number;
use region_typing_scope::refusals::{CheckError, needs, refusal};
use region_typing_scope::scope::Scope;
use region_typing_scope::typed::{Typed, plain};
use region_typing_scope::types::{is_number, same_type, type_named};
use std::mem;

/// One of the two factors of a product.
#[derive(Clone, Copy)]
pub enum Factor {
    First,
    Second,
}

// Whether an expression is the size of a type: `sizeof(T)`.
fn is_size(context: &Context, scope: &Scope, t: &CType, e: &expr::Expr) -> Result<bool, NoMemory>
    ensures { IfOk result (λ is. is ≡ size_of_type (scope_of scope.now) (ctype_of t.now) (expression_of e.now)) }
{
    match e {
        expr::Expr::SizeOf { type_name, .. } => match type_named(context, scope, type_name) {
            Ok(named) => Ok(same_type(t, &named)),
            Err(CheckError::NoMemory) => Err(NoMemory),
            Err(CheckError::Source(_) | CheckError::Unnamed) => Ok(false),
        },
        _ => Ok(false),
    }
}

// The factor beside the size of a type, as the size of so many elements is written.
fn beside_size(
    context: &Context,
    scope: &Scope,
    t: &CType,
    size: &expr::Expr,
) -> Result<Option<Factor>, NoMemory>
    ensures { IfOk result (λ factor. (value : Expression) → factor_beside (scope_of scope.now) (ctype_of t.now) (expression_of size.now)
        value ≡ factor_in factor value) }
{
    match size {
        expr::Expr::Binary {
            operator: BinaryOperator::Multiply,
            left,
            right,
            ..
        } => {
            if is_size(context, scope, t, right)? {
                return Ok(Some(Factor::First));
            }
            if is_size(context, scope, t, left)? {
                Ok(Some(Factor::Second))
            } else {
                Ok(None)
            }
        }
        _ => Ok(None),
    }
}

// Leaves a factor of a product in its place, and says whether it was a product.
fn keep_factor(which: Factor, value: &mut Expr) -> bool
    ensures kept { factor_of which (expression value.old) ≡ picked result (Some (expression value.new)) None }
    ensures other { result ≡ false → value.new ≡ value.old }
{
    match value {
        Expr::Arithmetic {
            operator: Operator::Arithmetic(ArithmeticOperator::Multiply),
            left,
            right,
            ..
        } => {
            let factor = match which {
                Factor::First => mem::replace(&mut **left, Expr::Null),
                Factor::Second => mem::replace(&mut **right, Expr::Null),
            };
            *value = factor;
            true
        }
        _ => false,
    }
}

// How many elements a size is that isn't a product with their size: one of that size, and a `char` for each byte.
fn elements_alone(
    context: &Context,
    scope: &Scope,
    t: &CType,
    size: &expr::Expr,
    value: Box<Expr>,
) -> Result<Option<Box<Expr>>, NoMemory>
    ensures { IfOk result (λ count. option_map boxed_expression count ≡ alone_in (scope_of scope.now) (ctype_of t.now)
        (expression_of size.now) (boxed_expression value)) }
{
    if is_size(context, scope, t, size)? {
        let one = context.boxed(Expr::Number(1))?;
        return Ok(Some(one));
    }
    if has_one_byte(t) {
        Ok(Some(value))
    } else {
        Ok(None)
    }
}

// How many elements of a type a size is.
fn elements_in(
    context: &Context,
    scope: &Scope,
    t: &CType,
    size: &expr::Expr,
    mut value: Box<Expr>,
) -> Result<Option<Box<Expr>>, NoMemory>
    ensures { IfOk result (λ count. option_map boxed_expression count ≡ elements_in_size (scope_of scope.now) (ctype_of t.now)
        (expression_of size.now) (boxed_expression value)) }
{
    let beside = beside_size(context, scope, t, size)?;
    match beside {
        Some(which) => {
            if keep_factor(which, &mut value) {
                Ok(Some(value))
            } else {
                elements_alone(context, scope, t, size, value)
            }
        }
        None => elements_alone(context, scope, t, size, value),
    }
}

// So many elements from the pointer on, which a zero ends or not.
fn row_counted(
    structs: &Structs,
    t: &CType,
    terminated: bool,
    count: Option<Term>,
    site: Site,
) -> Option<PointerBounds>
    ensures { result ≡ row_counted_of structs.now (ctype_of t.now) terminated count site }
{
    match count {
        None => None,
        Some(count) => Some(PointerBounds {
            bounds: Bounds {
                base: None,
                lo: constant_term(0),
                hi: count,
            },
            size: structs.size_of(t),
            terminated,
            site,
        }),
    }
}

/// The kind of pointers to the elements of an array, which a zero ends or not.
pub fn array_kind(terminated: bool) -> Kind
    ensures { result ≡ array_kind_of terminated }
{
    if terminated { Kind::Nt } else { Kind::Array }
}

// New memory of so many elements, with these bounds, and a pointer of this kind to it.
fn new_memory(
    context: &Context,
    scope: &Scope,
    t: CType,
    kind: Kind,
    count: Box<Expr>,
    terminator: Terminator,
    bounds: Option<PointerBounds>,
) -> Result<Box<Typed>, NoMemory>
    ensures { IfOk result (λ memory. typed memory ≡ memory_of (scope_of scope.now) (ctype_of t) kind (boxed_expression count) terminator bounds) }
{
    let element = cells_with(context, &scope.structs, &t, 0)?;
    let target = context.boxed(t)?;
    let ctype = CType::Pointer(Mode::Checked, kind, target);
    let value = Expr::Allocate {
        count,
        element,
        terminator,
        bounds,
    };
    plain(context, ctype, value)
}

/// New memory of so many elements.
pub fn allocation(
    context: &Context,
    scope: &Scope,
    t: CType,
    count: Box<Expr>,
    span: Span,
) -> Result<Box<Typed>, CheckError>
    ensures { Answers typed (allocation_of (scope_of scope.now) (ctype_of t) (boxed_expression count) (site_at (place_at context.now) span) span) result }
{
    needs(0 < scope.structs.size_of(&t), Code::E13, span)?;
    let counted = term(scope.locals.as_slice(), &count);
    let site = context.site(span);
    let bounds = row_counted(&scope.structs, &t, false, counted, site);
    Ok(new_memory(
        context,
        scope,
        t,
        Kind::Array,
        count,
        Terminator::Absent,
        bounds,
    )?)
}

/// New memory of so many numbers that a zero ends, and how many stand before it.
pub fn ended_allocation(
    context: &Context,
    scope: &Scope,
    t: CType,
    count: Box<Expr>,
    terminator: Terminator,
    before: Option<Term>,
    span: Span,
) -> Result<Box<Typed>, CheckError>
    ensures { Answers typed (ended_allocation_of (scope_of scope.now) (ctype_of t) (boxed_expression count) terminator before
        (site_at (place_at context.now) span) span) result }
{
    needs(is_number(&t), Code::E13, span)?;
    let site = context.site(span);
    let bounds = row_counted(&scope.structs, &t, true, before, site);
    Ok(new_memory(context, scope, t, Kind::Nt, count, terminator, bounds)?)
}

// New memory of a size.
fn allocated_in(
    context: &Context,
    scope: &Scope,
    t: CType,
    size: &expr::Expr,
    value: Box<Typed>,
    span: Span,
) -> Result<Box<Typed>, CheckError>
    ensures { Answers typed (allocated_in_size (scope_of scope.now) (ctype_of t) (expression_of size.now) (typed value)
        (site_at (place_at context.now) span) span) result }
{
    let value = number(context, value, span)?;
    match elements_in(context, scope, &t, size, value)? {
        None => Err(refusal(Code::E13, span)),
        Some(count) => allocation(context, scope, t, count, span),
    }
}

// A number of elements, with the size of one behind it.
fn counted(
    context: &Context,
    scope: &Scope,
    t: &CType,
    count: Box<Typed>,
    size: &expr::Expr,
    span: Span,
) -> Result<Box<Expr>, CheckError>
    ensures { Answers boxed_expression (counted_in (scope_of scope.now) (ctype_of t.now) (typed count) (expression_of size.now) span) result }
{
    let count = number(context, count, span)?;
    needs(is_size(context, scope, t, size)?, Code::E13, span)?;
    Ok(count)
}

// New memory of a number of elements, with the size of one.
fn allocated_of(
    context: &Context,
    scope: &Scope,
    t: CType,
    count: Box<Typed>,
    size: &expr::Expr,
    span: Span,
) -> Result<Box<Typed>, CheckError>
    ensures { Answers typed (allocated_of_count (scope_of scope.now) (ctype_of t) (typed count) (expression_of size.now)
        (site_at (place_at context.now) span) span) result }
{
    let count = counted(context, scope, &t, count, size, span)?;
    allocation(context, scope, t, count, span)
}

// New memory of a number of elements, with the size of one, and a zero behind them.
fn ended_of(
    context: &Context,
    scope: &Scope,
    t: CType,
    count: Box<Typed>,
    size: &expr::Expr,
    span: Span,
) -> Result<Box<Typed>, CheckError>
    ensures { Answers typed (ended_of_count (scope_of scope.now) (ctype_of t) (typed count) (expression_of size.now)
        (site_at (place_at context.now) span) span) result }
{
    let count = counted(context, scope, &t, count, size, span)?;
    let before = term(scope.locals.as_slice(), &count);
    ended_allocation(context, scope, t, count, Terminator::Behind, before, span)
}

/// New memory of a size, which is written so and has this value.
pub fn malloc(
    context: &Context,
    scope: &Scope,
    word: MallocWord,
    t: CType,
    size: &expr::Expr,
    value: Box<Typed>,
    span: Span,
) -> Result<Box<Typed>, CheckError>
    ensures { Answers typed (malloc_typed word (scope_of scope.now) (ctype_of t) (expression_of size.now) (typed value)
        (site_at (place_at context.now) span) span) result }
{
    match word {
        MallocWord::Malloc => allocated_in(context, scope, t, size, value, span),
        MallocWord::TMalloc => Err(refusal(Code::E13, span)),
    }
}

/// New memory of a number of elements, with the size of one as it is written.
pub fn calloc(
    context: &Context,
    scope: &Scope,
    word: CallocWord,
    t: CType,
    count: Box<Typed>,
    size: &expr::Expr,
    span: Span,
) -> Result<Box<Typed>, CheckError>
    ensures { Answers typed (calloc_typed word (scope_of scope.now) (ctype_of t) (typed count) (expression_of size.now)
        (site_at (place_at context.now) span) span) result }
{
    match word {
        CallocWord::Calloc => allocated_of(context, scope, t, count, size, span),
        CallocWord::NtCalloc => ended_of(context, scope, t, count, size, span),
    }
}
