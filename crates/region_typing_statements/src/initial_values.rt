// What a local is given where it is declared.

ghost use Rattle.std.specs.Prelude.{◌≡◌};
ghost use Rattle.std.specs.Option.{option_map};
ghost use Rattle.ckc_text.specs.Places.{place_at};
ghost use Rattle.ckc_tree.specs.Expressions.{expression as expression_tree};
ghost use Rattle.ckc_tree.specs.Statements.{initializer as initializer_tree};
ghost use Rattle.pointer_modes.specs.Types.{ctype as ctype_of};
ghost use Rattle.region_typing_rules.specs.Statements.{initialised as initialised_as};
ghost use Rattle.region_typing_scope.specs.Answering.{Answers};
ghost use Rattle.region_typing_scope.specs.Views.{scope as scope_of};
ghost use Rattle.region_typing_scope.specs.OnHeap.{statement as statement_of};
ghost use Rattle.region_typing_statements.specs.Walks.{Walks, initial_value as initial_value_as, chosen, from_zero as from_zero_as};

use crate::core_forms::{both, nothing};
use crate::zero_values::set_to_zero;
use ckc_core::program::Stmt;
use ckc_text::code::Code;
use ckc_text::place::Span;
use ckc_tree::expr::Expr;
use ckc_tree::stmt::Initializer;
use pointer_modes::ctype::CType;
use region_typing_expressions::expressions::typed;
use region_typing_scope::context::Context;
use region_typing_scope::conversions::fitted;
use region_typing_scope::refusals::{CheckError, needs, refusal};
use region_typing_scope::scope::Scope;
use region_typing_scope::types::is_scalar;

// The value that a local is given.
fn initial_value(
    context: &Context,
    scope: &Scope,
    value: &Expr,
    t: &CType,
    local: u32,
    span: Span,
) -> Result<Box<Stmt>, CheckError>
    ensures { Answers statement_of (initial_value_as (place_at context.now) (scope_of scope.now) (expression_tree value.now)
        (ctype_of t.now) local span) result }
{
    let given = typed(context, scope, value)?;
    let value = fitted(context, scope, &None, given, t, span)?;
    Ok(context.boxed(Stmt::SetLocal { local, value })?)
}

// The initial value of a local, if it has one.
fn initialised(
    context: &Context,
    scope: &Scope,
    written: &Option<Initializer>,
    t: &CType,
    local: u32,
    span: Span,
) -> Result<Box<Stmt>, CheckError>
    ensures { Answers statement_of (initialised_as (place_at context.now) (scope_of scope.now) (option_map initializer_tree written.now)
        (ctype_of t.now) local span) result }
{
    match written {
        None => Ok(nothing(context)?),
        Some(Initializer::Value { value }) => {
            initial_value(context, scope, value, t, local, span)
        }
        Some(Initializer::List { .. }) => Err(refusal(Code::E13, span)),
    }
}

// What a local is given last: its initial value, or zero or null where it has none.
fn last_given<'a>(written: &Option<Initializer>, initial: &'a Stmt, zero: &'a Stmt) -> &'a Stmt
    ensures { result.now ≡ chosen (option_map initializer_tree written.now) initial.now zero.now }
{
    match written {
        None => zero,
        Some(_) => initial,
    }
}

/// What a local is before it is given a value, then its initial value, and what is known behind it.
pub fn from_zero(
    context: &Context,
    scope: &mut Scope,
    written: &Option<Initializer>,
    t: &CType,
    local: u32,
    span: Span,
) -> Result<Box<Stmt>, CheckError>
    ensures { Walks statement_of (from_zero_as (place_at context.now) (scope_of scope.old) (option_map initializer_tree written.now)
        (ctype_of t.now) local span) scope.old result scope.new }
{
    let initial = initialised(context, scope, written, t, local, span)?;
    needs(is_scalar(t), Code::E13, span)?;
    let first = set_to_zero(context, local, t)?;
    scope.settle(last_given(written, &initial, &first), span)?;
    Ok(both(context, first, initial)?)
}
