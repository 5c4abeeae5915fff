// Declarations of local arrays: an array is a pointer to new memory, which each entry of its declaration makes.

ghost use Rattle.std.specs.Prelude.{◌≡◌, ◌<◌, ◌≤◌, pos, Some, length, map, IfOk};
ghost use Rattle.std.specs.Option.{option_map};
ghost use Rattle.ckc_text.specs.Places.{place_at};
ghost use Rattle.ckc_tree.specs.Types.{type_tree};
ghost use Rattle.ckc_tree.specs.Expressions.{expression as expression_tree, bounds as bounds_tree};
ghost use Rattle.ckc_tree.specs.Statements.{Value, initializer as initializer_tree, declarator as declarator_tree};
ghost use Rattle.bounds_exprs.specs.Normal.{constant};
ghost use Rattle.pointer_modes.specs.Types.{ctype as ctype_of};
ghost use Rattle.ckc_core.specs.Core.{Number};
ghost use Rattle.region_typing_rules.specs.Verdicts.{Passes};
ghost use Rattle.region_typing_rules.specs.Operands.{site_at};
ghost use Rattle.region_typing_rules.specs.Statements.{length_of as length_in, first_length as first_length_in, is_ended_array as is_ended_in, row_type, with_array, array_element as array_element_of, array_memory as array_memory_of, array_bounds as array_bounds_in, without_initial as without_initial_in, made_array, array_in, array_local as array_local_of};
ghost use Rattle.region_typing_scope.specs.Answering.{Answers};
ghost use Rattle.region_typing_scope.specs.OnHeap.{expression, statement, typed as typed_on_heap};
ghost use Rattle.region_typing_scope.specs.Views.{scope as scope_of};
ghost use Rattle.region_typing_statements.specs.Walks.{Walks};

use crate::core_forms::both;
use crate::zero_values::set_to_zero;
use bounds_exprs::expression::constant as constant_term;
use bounds_exprs::term::{Bounds, Term};
use ckc_core::program::{Expr, Stmt, Terminator};
use ckc_text::code::Code;
use ckc_text::fault::NoMemory;
use ckc_text::place::Span;
use ckc_tree::expr::{BoundsText, Expr as WrittenExpr};
use ckc_tree::stmt::{ArrayKind, Declarator, Initializer};
use ckc_tree::type_form::TypeForm;
use pointer_modes::ctype::{CType, Mode};
use region_typing_expressions::allocations::{allocation, array_kind, ended_allocation};
use region_typing_expressions::expressions::typed;
use region_typing_scope::context::Context;
use region_typing_scope::conversions::converted;
use region_typing_scope::declared::declared_bounds;
use region_typing_scope::initial_cells::{before_end, is_length};
use region_typing_scope::refusals::{CheckError, needs, refusal};
use region_typing_scope::scope::Scope;
use region_typing_scope::typed::Typed;
use region_typing_scope::types::{copied, may_lead_to, without_stars};

/// How many elements a declarator asks for, where it declares an array.
pub fn length_of(d: &Declarator) -> Option<u32>
    ensures { result ≡ length_in (declarator_tree d.now) }
{
    match d.array {
        None => None,
        Some(array) => Some(array.length),
    }
}

/// How many elements the first of some declarators asks for.
pub fn first_length(ds: &[Declarator]) -> Option<u32>
    ensures { result ≡ first_length_in (map declarator_tree ds.now) }
{
    match ds {
        [] => None,
        [first, ..] => length_of(first),
    }
}

/// Whether a zero ends the array that is declared.
pub fn is_ended_array(d: &Declarator) -> bool
    ensures { result ≡ is_ended_in (declarator_tree d.now) }
{
    match d.array {
        None => false,
        Some(array) => match array.kind {
            ArrayKind::Checked => false,
            ArrayKind::NullTerminated => true,
        },
    }
}

/// The elements of an array, which a zero ends or not: E13 at the type where a zero ends what are no numbers.
pub fn array_element(ended: bool, t: &CType, base: &TypeForm) -> Result<(), CheckError>
    ensures { Answers (λ x. x) (array_element_of ended (ctype_of t.now) (type_tree base.now) (Passes tt)) result }
{
    let kind = array_kind(ended);
    needs(may_lead_to(kind, t), Code::E13, base.span())
}

// A pointer to the first of some elements, which a zero ends or not.
fn row(context: &Context, ended: bool, t: &CType) -> Result<CType, NoMemory>
    ensures { IfOk result (λ row. ctype_of row ≡ row_type ended (ctype_of t.now)) }
{
    let element = copied(context, t)?;
    let target = context.boxed(element)?;
    Ok(CType::Pointer(Mode::Checked, array_kind(ended), target))
}

// An array has no other bounds than those of its elements: E16 where some are written.
fn array_bounds(
    context: &Context,
    scope: &Scope,
    written: &Option<BoundsText>,
) -> Result<Option<Bounds>, CheckError>
    ensures { Answers (λ b. b) (array_bounds_in (scope_of scope.now) (option_map bounds_tree written.now)) result }
{
    let own = scope.locals.len() as u32;
    declared_bounds(context, scope, &CType::Int, own, written)
}

// What is written for an initial value is walked, and refused at the declaration.
fn refused_initial(
    context: &Context,
    scope: &Scope,
    value: &WrittenExpr,
    span: Span,
) -> Result<(), CheckError>
    ensures { Answers (λ x. x) (without_initial_in (place_at context.now) (scope_of scope.now) (Some (Value (expression_tree value.now))) span) result }
{
    typed(context, scope, value)?;
    Err(refusal(Code::E13, span))
}

// An array has no initial value.
fn without_initial(
    context: &Context,
    scope: &Scope,
    written: &Option<Initializer>,
    span: Span,
) -> Result<(), CheckError>
    ensures { Answers (λ x. x) (without_initial_in (place_at context.now) (scope_of scope.now) (option_map initializer_tree written.now) span) result }
{
    match written {
        None => Ok(()),
        Some(Initializer::Value { value }) => refused_initial(context, scope, value, span),
        Some(Initializer::List { .. }) => Err(refusal(Code::E13, span)),
    }
}

// A number of elements, as it is written in code.
fn number_of(context: &Context, elements: u32) -> Result<Box<Expr>, NoMemory>
    requires { elements ≤ 8192 }
    ensures { IfOk result (λ number. expression number ≡ Number (pos elements)) }
{
    context.boxed(Expr::Number(elements as i32))
}

// The same as a term.
fn term_of(elements: u32) -> Term
    ensures { result ≡ constant (pos elements) }
{
    constant_term(elements as i64)
}

// New memory for an array of so many elements, of which the last one may be the zero that ends it.
fn array_memory(
    context: &Context,
    scope: &Scope,
    ended: bool,
    t: CType,
    count: u32,
    span: Span,
) -> Result<Box<Typed>, CheckError>
    requires { count ≤ 8192 }
    ensures { Answers typed_on_heap (array_memory_of (scope_of scope.now) ended (ctype_of t) count (site_at (place_at context.now) span) span) result }
{
    let number = number_of(context, count)?;
    if ended {
        let before = term_of(before_end(true, count));
        ended_allocation(
            context,
            scope,
            t,
            number,
            Terminator::Last,
            Some(before),
            span,
        )
    } else {
        allocation(context, scope, t, number, span)
    }
}

// New memory is what the array is, which is null before.
fn made(
    context: &Context,
    scope: &mut Scope,
    local: u32,
    memory: Box<Typed>,
    t: &CType,
    span: Span,
) -> Result<Box<Stmt>, CheckError>
    ensures { Walks statement (made_array (scope_of scope.old) local (typed_on_heap memory) (ctype_of t.now) span) scope.old result scope.new }
{
    let value = converted(context, memory, t, span)?;
    let made = context.boxed(Stmt::SetLocal { local, value })?;
    let first = set_to_zero(context, local, t)?;
    scope.settle(&made, span)?;
    Ok(both(context, first, made)?)
}

// What a local array is, which is visible already: so many elements of a type, which a zero ends or not.
fn array(
    context: &Context,
    scope: &mut Scope,
    local: u32,
    d: &Declarator,
    t: CType,
    count: u32,
    ended: bool,
    span: Span,
) -> Result<Box<Stmt>, CheckError>
    requires { count ≤ 8192 }
    ensures { Walks statement (array_in (place_at context.now) (scope_of scope.old) local (declarator_tree d.now) (ctype_of t) count ended
        span) scope.old result scope.new }
{
    array_bounds(context, scope, &d.bounds)?;
    without_initial(context, scope, &d.initializer, span)?;
    let row = row(context, ended, &t)?;
    let memory = array_memory(context, scope, ended, t, count, span)?;
    made(context, scope, local, memory, &row, span)
}

// A local array more, of so many elements of a type.
fn add_array(
    context: &Context,
    scope: &mut Scope,
    d: &Declarator,
    t: CType,
    count: u32,
    ended: bool,
    span: Span,
) -> Result<Box<Stmt>, CheckError>
    requires room { length scope.old.locals.items < scope.old.flow.vars }
    requires few { count ≤ 8192 }
    ensures { Walks statement (array_in (place_at context.now) (with_array (declarator_tree d.now).name.number (ctype_of t) count ended
        (scope_of scope.old)) (length (scope_of scope.old).locals) (declarator_tree d.now) (ctype_of t) count ended span) scope.old result
        scope.new }
{
    let local = scope.locals.len() as u32;
    let row = row(context, ended, &t)?;
    scope.add_array(d.name.number, row, count, ended)?;
    array(context, scope, local, d, t, count, ended, span)
}

/// A local array of a declaration, of so many elements: E08 at a span where it has too many, or none, and E13 at its type where
/// a zero ends what are no numbers.
pub fn array_local(
    context: &Context,
    scope: &mut Scope,
    base: &TypeForm,
    t: &CType,
    span: Span,
    d: &Declarator,
    count: u32,
) -> Result<Box<Stmt>, CheckError>
    requires { length scope.old.locals.items < scope.old.flow.vars }
    ensures { Walks statement (array_local_of (place_at context.now) (scope_of scope.old) (type_tree base.now) (ctype_of t.now) span
        (declarator_tree d.now) count (is_ended_in (declarator_tree d.now))) scope.old result scope.new }
{
    needs(is_length(Some(count)), Code::E08, span)?;
    let given = copied(context, t)?;
    let t = without_stars(base, d.stars, given)?;
    let ended = is_ended_array(d);
    array_element(ended, &t, base)?;
    add_array(context, scope, d, t, count, ended, span)
}
