// Calls.

ghost use Rattle.std.specs.Prelude.{◌||◌, ◌≡◌, ◌&&◌, length, map, is_some, IfOk};
ghost use Rattle.std.specs.Option.{option_map};
ghost use Rattle.pointer_modes.specs.Types.{ctype as ctype_of};
ghost use Rattle.ckc_core.specs.Core.{expression, arguments_of, Print, PutByte};
ghost use Rattle.ckc_core.specs.Meaning.{bounds_of as bounds_at_node};
ghost use Rattle.region_typing_rules.specs.Operands.{converted as converted_to};
ghost use Rattle.region_typing_rules.specs.Calls.{with_result as with_result_of, arguments_as as arguments_in, is_text as text_type, text_pointer, length_typed, measures as measures_in, predefined_call as predefined_in, writes, callee_of as callee_in, declared_callee as declared_callee_in, call_bounds as call_bounds_in, call_of as call_in, is_checked_argument as checked_argument, without_checked as without_checked_in, crossing as crossing_in, declared_call as declared_in, called as called_in};
ghost use Rattle.region_typing_rules.specs.Scopes.{function_named};
ghost use Rattle.region_typing_scope.specs.Points.{point as point_of};
ghost use Rattle.region_typing_scope.specs.Views.{scope as scope_of, signature};
ghost use Rattle.region_typing_scope.specs.Answering.{Answers};
ghost use Rattle.region_typing_rules.specs.Verdicts.{Passes};
ghost use Rattle.region_typing_scope.specs.Typed.{typed as inline_typed};
ghost use Rattle.region_typing_scope.specs.OnHeap.{typed, expression as expression_on_heap};
ghost use Rattle.region_typing_expressions.specs.Calls.{argument, called as called_as, converted_call, only_argument as only_argument_in, only_number, reads as reads_in};

use crate::argument_bounds::{bounds_at_call, unless_unmet};
use bounds_exprs::term::Bounds;
use ckc_core::program::{Call, Callee, Expr, PointerBounds, Site, Stmt};
use ckc_names_rules::given::Given;
use ckc_text::code::Code;
use ckc_text::fault::NoMemory;
use ckc_text::place::Span;
use pointer_modes::ctype::{CType, Kind, Mode};
use pointer_modes::structs::Structs;
use region_typing_flow::readings::bounds_of;
use region_typing_scope::bounds::bounds_at;
use region_typing_scope::context::Context;
use region_typing_scope::conversions::converted;
use region_typing_scope::operands::{Operand, value_of};
use region_typing_scope::point::Point;
use region_typing_scope::refusals::{CheckError, needs, refusal};
use region_typing_scope::scope::Scope;
use region_typing_scope::sides::is_import;
use region_typing_scope::signature::Signature;
use region_typing_scope::typed::Typed;
use region_typing_scope::types::copied;
use std::collections::VecDeque;

/// What a call is: a value of a type, or a statement where it has no result.
#[derive(Drop)]
pub enum Called {
    Gives { ctype: CType, value: Box<Expr> },
    GivesNothing { call: Box<Stmt> },
}

/// An argument of a call.
#[derive(Drop)]
pub struct Argument {
    pub typed: Box<Typed>,
    pub span: Span,
}

// The arguments of a call as values of the types of its parameters.
fn arguments_as(
    context: &Context,
    mut arguments: VecDeque<Argument>,
    types: &[CType],
) -> Result<Vec<Expr>, CheckError>
    requires { length arguments.items ≡ length types.now }
    ensures { Answers (λ v. arguments_of v.items) (arguments_in (map argument arguments.items) (map ctype_of types.now)) result }
{
    let mut built = Vec::new(context.alloc());
    while let Some(argument) = arguments.pop_front() {
        let to = &types[built.len()];
        let value = converted(context, argument.typed, to, argument.span)?;
        built.push(Box::into_inner(value))?;
    }
    Ok(built)
}

// The only argument of a call.
fn only_argument(mut arguments: VecDeque<Argument>, span: Span) -> Result<Argument, CheckError>
    ensures { Answers argument (only_argument_in (map argument arguments.items) span) result }
{
    match arguments.pop_front() {
        Some(argument) => {
            needs(arguments.is_empty(), Code::E14, span)?;
            Ok(argument)
        }
        None => Err(refusal(Code::E14, span)),
    }
}

// The only argument of a call, as a number.
fn one_number(
    context: &Context,
    arguments: VecDeque<Argument>,
    span: Span,
) -> Result<Box<Expr>, CheckError>
    ensures { Answers expression_on_heap (only_number (map argument arguments.items) span) result }
{
    let argument = only_argument(arguments, span)?;
    converted(context, argument.typed, &CType::Int, argument.span)
}

// A call of `print_int`.
fn prints(
    context: &Context,
    arguments: VecDeque<Argument>,
    span: Span,
) -> Result<Called, CheckError>
    ensures { Answers called_as (writes Print (map argument arguments.items) span) result }
{
    let value = one_number(context, arguments, span)?;
    let call = context.boxed(Stmt::Print(value))?;
    Ok(Called::GivesNothing { call })
}

// A call of `putchar`.
fn puts_byte(
    context: &Context,
    arguments: VecDeque<Argument>,
    span: Span,
) -> Result<Called, CheckError>
    ensures { Answers called_as (writes PutByte (map argument arguments.items) span) result }
{
    let value = one_number(context, arguments, span)?;
    let call = context.boxed(Stmt::PutByte(value))?;
    Ok(Called::GivesNothing { call })
}

// Whether a type is that of checked null-terminated pointers to `char`s.
fn is_text(t: &CType) -> bool
    ensures { result ≡ text_type (ctype_of t.now) }
{
    match t {
        CType::Pointer(Mode::Checked, Kind::Nt, target) => matches!(**target, CType::Char),
        _ => false,
    }
}

// Whether a value of a type, which is the constant 0 or not, converts to that type.
fn becomes_text(ctype: &CType, zero: bool) -> bool
    ensures { result ≡ (zero || text_type (ctype_of ctype.now)) }
{
    zero || is_text(ctype)
}

// Whether a value of a type is such a pointer with bounds.
fn is_measured(ctype: &CType, value: &Expr) -> bool
    ensures { result ≡ (text_type (ctype_of ctype.now) && is_some (bounds_at_node (expression value.now))) }
{
    is_text(ctype) && bounds_of(value).is_some()
}

// The number of characters before the zero that ends a text.
fn text_length(
    context: &Context,
    text: Argument,
    site: Site,
    span: Span,
) -> Result<Called, CheckError>
    ensures { Answers called_as (converted_to (typed text.typed) text_pointer text.span (λ v. length_typed (typed text.typed) site span)) result }
{
    let Operand {
        ctype,
        zero,
        value: pointer,
    } = value_of(context, text.typed, text.span)?;
    needs(becomes_text(&ctype, zero), Code::E13, text.span)?;
    needs(is_measured(&ctype, &pointer), Code::E13, span)?;
    let value = context.boxed(Expr::Length { pointer, site })?;
    Ok(Called::Gives {
        ctype: CType::Int,
        value,
    })
}

// A call of `strlen`.
fn measures(
    context: &Context,
    arguments: VecDeque<Argument>,
    site: Site,
    span: Span,
) -> Result<Called, CheckError>
    ensures { Answers called_as (measures_in (map argument arguments.items) site span) result }
{
    let argument = only_argument(arguments, span)?;
    text_length(context, argument, site, span)
}

// A call of `next_input`.
fn reads(context: &Context, arguments: VecDeque<Argument>, span: Span) -> Result<Called, CheckError>
    ensures { Answers called_as (reads_in (map argument arguments.items) span) result }
{
    needs(arguments.is_empty(), Code::E14, span)?;
    let value = context.boxed(Expr::NextInput)?;
    Ok(Called::Gives {
        ctype: CType::Int,
        value,
    })
}

// A call of a function that is there before the program.
fn predefined(
    context: &Context,
    given: Given,
    name: usize,
    arguments: VecDeque<Argument>,
    site: Site,
    span: Span,
) -> Result<Called, CheckError>
    ensures { Answers called_as (predefined_in given name (map argument arguments.items) site span) result }
{
    if name == given.next_input {
        return reads(context, arguments, span);
    }
    if name == given.print_int {
        return prints(context, arguments, span);
    }
    if name == given.putchar {
        return puts_byte(context, arguments, span);
    }
    if name == given.strlen {
        return measures(context, arguments, site, span);
    }
    Err(CheckError::Unnamed)
}

// Whom a call enters, by the number of its function.
fn callee_of(import: bool, number: u32, site: Site) -> Callee
    ensures { result ≡ callee_in import number site }
{
    if import {
        Callee::Tainted {
            import: number,
            site,
        }
    } else {
        Callee::Trusted(number)
    }
}

// A declared function as a callee.
fn declared_callee(scope: &Scope, f: &Signature, site: Site) -> Callee
    ensures { result ≡ declared_callee_in (scope_of scope.now) (signature f.now) site }
{
    let import = is_import(f);
    callee_of(import, scope.side_number(import, f.name), site)
}

/// The bounds of a call: those that are declared for its result, or those of its type.
pub fn call_bounds(
    structs: &Structs,
    t: &CType,
    declared: Option<Bounds>,
    site: Site,
) -> Option<PointerBounds>
    ensures { result ≡ call_bounds_in structs.now (ctype_of t.now) declared site }
{
    match t {
        CType::Pointer(_, Kind::Array, target) => match declared {
            None => bounds_at(structs, t, site),
            Some(bounds) => Some(PointerBounds {
                bounds,
                size: structs.size_of(target),
                terminated: false,
                site,
            }),
        },
        CType::Pointer(_, Kind::Nt, target) => match declared {
            None => None,
            Some(bounds) => Some(PointerBounds {
                bounds,
                size: structs.size_of(target),
                terminated: true,
                site,
            }),
        },
        CType::Pointer(_, Kind::One, _) => bounds_at(structs, t, site),
        CType::Int | CType::Char | CType::Struct(_) => bounds_at(structs, t, site),
    }
}

// A call as a value, or as a statement where it has no result.
#[tactic(auto, using(ckc_core::proofs::Rows::call_value))]
fn call_of(
    context: &Context,
    structs: &Structs,
    result_type: &Option<CType>,
    declared: Option<Bounds>,
    call: Call,
    site: Site,
) -> Result<Called, NoMemory>
    ensures { IfOk result (λ c. called_as c ≡ call_in structs.now (option_map ctype_of result_type.now) declared call.callee
        (arguments_of call.arguments.items) site) }
{
    match result_type {
        Some(t) => {
            let bounds = call_bounds(structs, t, declared, site);
            let value = context.boxed(Expr::Call { call, bounds })?;
            let ctype = copied(context, t)?;
            Ok(Called::Gives { ctype, value })
        }
        None => {
            let call = context.boxed(Stmt::CallAlone(call))?;
            Ok(Called::GivesNothing { call })
        }
    }
}

// Whether an argument is a pointer into trusted memory.
fn is_checked_argument(t: &Typed) -> bool
    ensures { result ≡ checked_argument (inline_typed t.now) }
{
    match t {
        Typed::Value { ctype, .. }
        | Typed::Local { ctype, .. }
        | Typed::Cell { ctype, .. }
        | Typed::Bounded { ctype, .. }
        | Typed::Unknown { ctype, .. }
        | Typed::Array { ctype, .. } => ctype.is_checked_pointer(),
        Typed::Struct { .. } => false,
    }
}

// Refuses pointers into trusted memory.
fn without_checked(arguments: &[Argument]) -> Result<(), CheckError>
    ensures { Answers (λ x. x) (without_checked_in (map argument arguments.now) (Passes tt)) result }
{
    for argument in arguments {
        needs(
            !is_checked_argument(&argument.typed),
            Code::E24,
            argument.span,
        )?;
    }
    Ok(())
}

// Refuses arguments that may not cross the boundary, where a function is tainted.
fn crossing(import: bool, arguments: &[Argument]) -> Result<(), CheckError>
    ensures { Answers (λ x. x) (crossing_in import (map argument arguments.now) (Passes tt)) result }
{
    if import {
        without_checked(arguments)
    } else {
        Ok(())
    }
}

// A call of a declared function, where the arguments convert and their bounds are met.
fn call_with(
    context: &Context,
    point: &Point<'_>,
    f: &Signature,
    arguments: Vec<Argument>,
    site: Site,
) -> Result<Called, CheckError>
    requires { length arguments.items ≡ length f.now.parameters.items }
    ensures { Answers called_as (converted_call (point_of point.now) (signature f.now) (map argument arguments.items) site) result }
{
    let asked = bounds_at_call(context, point, f, arguments.as_slice())?;
    let types = f.parameters.as_slice();
    let arguments = arguments_as(context, VecDeque::from_vec(arguments), types)?;
    unless_unmet(asked.unmet)?;
    let callee = declared_callee(point.scope, f, site);
    let call = Call { callee, arguments };
    Ok(call_of(
        context,
        &point.scope.structs,
        &f.result,
        asked.result,
        call,
        site,
    )?)
}

// A call of a declared function.
fn declared(
    context: &Context,
    point: &Point<'_>,
    f: &Signature,
    arguments: Vec<Argument>,
    site: Site,
    span: Span,
) -> Result<Called, CheckError>
    ensures { Answers called_as (declared_in (point_of point.now) (signature f.now) (map argument arguments.items) site span) result }
{
    if f.parameters.len() != arguments.len() {
        return Err(refusal(Code::E14, span));
    }
    crossing(is_import(f), arguments.as_slice())?;
    call_with(context, point, f, arguments, site)
}

/// A call of a function by its name.
pub fn call(
    context: &Context,
    point: &Point<'_>,
    name: usize,
    arguments: Vec<Argument>,
    site: Site,
    span: Span,
) -> Result<Called, CheckError>
    ensures { Answers called_as (called_in (point_of point.now) (function_named (point_of point.now).functions name) name
        (map argument arguments.items) site span) result }
{
    match point.scope.function(name) {
        Some(f) => declared(context, point, f, arguments, site, span),
        None => predefined(
            context,
            point.scope.given,
            name,
            VecDeque::from_vec(arguments),
            site,
            span,
        ),
    }
}

/// The value of a call that has a result.
pub fn with_result(context: &Context, called: Called, span: Span) -> Result<Box<Typed>, CheckError>
    ensures { Answers typed (with_result_of (called_as called) span) result }
{
    match called {
        Called::Gives { ctype, value } => Ok(context.boxed(Typed::Value {
            ctype,
            zero: false,
            value,
        })?),
        Called::GivesNothing { .. } => Err(refusal(Code::E13, span)),
    }
}
