// Functions.

ghost use Rattle.std.specs.Prelude.{◌≡◌, ◌≤◌, [], Some, length, map, IfOk, OnOk};
ghost use Rattle.std.specs.Option.{option_map};
ghost use Rattle.ckc_text.specs.Places.{place_at};
ghost use Rattle.ckc_tree.specs.Items.{result_form as result_tree, body as body_tree, statement_list};
ghost use Rattle.pointer_modes.specs.Types.{ctype as ctype_of};
ghost use Rattle.ckc_core.specs.Core.{function as function_of, statements_of};
ghost use Rattle.region_typing_rules.specs.Knowing.{knowing};
ghost use Rattle.region_typing_rules.specs.Items.{result_type as result_type_of, with_parameters, with_bounds, inside, first_changed_in, body_scope, function_body as function_body_of};
ghost use Rattle.region_typing_scope.specs.Answering.{Answers};
ghost use Rattle.region_typing_scope.specs.Views.{scope as scope_of, signature};
ghost use Rattle.region_typing.specs.Parameters.{parameter as parameter_of, AreOver};
ghost use Rattle.region_typing.specs.Items.{walk as walk_of, Outside, body_core, changed_in};

use crate::prototype::TypedParameter;
use crate::signatures::copied_signature;
use crate::walk::{Defined, Walk};
use ckc_core::program::{Function, Stmt};
use ckc_text::code::Code;
use ckc_text::fault::NoMemory;
use ckc_text::place::Span;
use ckc_tree::item::{Block, ResultForm};
use ckc_tree::statement_texts::push_body_texts;
use ckc_tree::stmt;
use pointer_modes::ctype::CType;
use region_typing_flow::counts::variables_in;
use region_typing_scope::context::Context;
use region_typing_scope::refusals::{CheckError, needs};
use region_typing_scope::scope::Scope;
use region_typing_scope::signature::{Signature, bounds_in};
use region_typing_scope::types::{copied, starred_type};
use region_typing_statements::changes::first_change;
use region_typing_statements::marks::is_checked;
use region_typing_statements::statements::statements;

/// What a function returns.
pub fn result_type(
    context: &Context,
    scope: &Scope,
    written: &ResultForm,
    stars: usize,
) -> Result<Option<CType>, CheckError>
    ensures { Answers (λ t. option_map ctype_of t) (result_type_of (scope_of scope.now) (result_tree written.now) stars) result }
{
    match written {
        ResultForm::Void { span } => {
            needs(stars == 0, Code::E15, *span)?;
            Ok(None)
        }
        ResultForm::Value { base } => {
            let t = starred_type(context, scope, base, stars)?;
            Ok(Some(t))
        }
    }
}

/// A copy of what a function returns.
pub fn copied_result(context: &Context, t: &Option<CType>) -> Result<Option<CType>, NoMemory>
    ensures { IfOk result (λ copy. option_map ctype_of copy ≡ option_map ctype_of t.now) }
{
    match t {
        None => Ok(None),
        Some(t) => Ok(Some(copied(context, t)?)),
    }
}

// Parameters as the first locals.
fn add_parameters(
    context: &Context,
    scope: &mut Scope,
    parameters: &[TypedParameter],
) -> Result<(), NoMemory>
    requires none { scope.old.locals.items ≡ [] }
    requires few { length parameters.now ≤ scope.old.flow.vars }
    ensures known { OnOk result (scope_of scope.new ≡ with_parameters (map parameter_of parameters.now) (scope_of scope.old)) }
    ensures locals { OnOk result (length scope.new.locals.items ≡ length parameters.now) }
    ensures size { OnOk result (scope.new.flow.vars ≡ scope.old.flow.vars) }
{
    for p in parameters {
        let ctype = copied(context, &p.ctype)?;
        scope.add_local(p.name, ctype)?;
    }
    Ok(())
}

// The bounds that are declared for parameters, which are the first locals.
fn add_bounds(scope: &mut Scope, parameters: &[TypedParameter]) -> Result<(), NoMemory>
    requires there { length scope.old.locals.items ≡ length parameters.now }
    requires below { AreOver scope.old.flow.vars parameters.now }
    ensures { OnOk result (scope_of scope.new ≡ knowing (with_bounds 0 (map parameter_of parameters.now) (scope_of scope.old).flow) (scope_of scope.old)) }
{
    let mut local = 0;
    for p in parameters {
        scope.give_bounds(local, bounds_in(&p.bounds))?;
        local += 1;
    }
    Ok(())
}

// Enters a function with its parameters.
fn enter(
    context: &Context,
    scope: &mut Scope,
    f: &Signature,
    parameters: &[TypedParameter],
    body: &[stmt::Stmt],
) -> Result<(), NoMemory>
    requires few { length parameters.now ≤ 16 }
    requires below { AreOver (length parameters.now) parameters.now }
    ensures { IfOk result (λ _. scope_of scope.new ≡ inside (signature f.now) (map parameter_of parameters.now) (statement_list body.now)
        (scope_of scope.old)) }
{
    let result = copied_result(context, &f.result)?;
    let variables = variables_in(parameters.len() as u32, body);
    scope.enter(context, result, variables)?;
    add_parameters(context, scope, parameters)?;
    add_bounds(scope, parameters)?;
    scope.ask_result(bounds_in(&f.result_bounds));
    Ok(())
}

// A function with its statements.
fn core_function(f: Signature, parameters: usize, locals: Vec<CType>, body: Vec<Stmt>) -> Function
    requires { parameters ≤ 16 }
    ensures { function_of result ≡ record {
      name = f.text;
      parameters = parameters;
      locals = map ctype_of locals.items;
      result = option_map
          ctype_of f.result;
      body = statements_of body.items;
    } }
{
    Function {
        name: f.text,
        parameters: parameters as u32,
        locals,
        result: f.result,
        body,
    }
}

// A function with its statements, and where these first assign a parameter that the bounds of its result name.
#[derive(Drop)]
struct Built {
    function: Function,
    changed: Option<Span>,
}

// The core of a function with a body, whose locals are gone behind it.
fn body_of(
    context: &Context,
    scope: &mut Scope,
    f: &Signature,
    parameters: &[TypedParameter],
    body: &[stmt::Stmt],
) -> Result<Built, CheckError>
    requires few { length parameters.now ≤ 16 }
    requires below { AreOver (length parameters.now) parameters.now }
    requires outside { Outside (scope_of scope.old) }
    ensures core { Answers (λ b. (function_of b.function, scope_of scope.new))
        (body_core (place_at context.now) (scope_of scope.old) (signature f.now) (map parameter_of parameters.now)
        (statement_list body.now)) result }
    ensures changed { IfOk result (λ b. b.changed ≡ changed_in (scope_of scope.old) (signature f.now) (map parameter_of parameters.now)
        (statement_list body.now)) }
{
    enter(context, scope, f, parameters, body)?;
    let changed = first_change(context, scope, body)?;
    let built = statements(context, scope, body)?;
    let locals = scope.exit(context)?;
    let heading = copied_signature(context, f)?;
    let function = core_function(heading, parameters.len(), locals, built);
    Ok(Built { function, changed })
}

// The strings of a body, which are known before it is walked.
fn add_texts(context: &Context, walk: &mut Walk, body: &Block) -> Result<(), NoMemory>
    ensures { OnOk result (walk_of walk.new ≡ record (walk_of walk.old) { scope = body_scope (walk_of walk.old) (body_tree body.now) }) }
{
    walk.scope.strings.taken = walk.taken;
    push_body_texts(context.alloc(), body, &mut walk.scope.strings.texts)?;
    Ok(())
}

// The body of a function, and where it first assigns a parameter that the bounds of the result name.
fn with_body(
    context: &Context,
    walk: &mut Walk,
    f: &Signature,
    parameters: &[TypedParameter],
    body: &Block,
) -> Result<Option<Span>, CheckError>
    requires few { length parameters.now ≤ 16 }
    requires below { AreOver (length parameters.now) parameters.now }
    requires outside { Outside (scope_of walk.old.scope) }
    ensures core { Answers (λ _. walk_of walk.new) (function_body_of (place_at context.now) (walk_of walk.old) (signature f.now)
        (map parameter_of parameters.now) (Some (body_tree body.now))) result }
    ensures changed { IfOk result (λ changed. changed ≡ first_changed_in (scope_of walk.old.scope) (signature f.now)
        (map parameter_of parameters.now) (Some (body_tree body.now))) }
{
    let checked = is_checked(&walk.scope, body.mark);
    add_texts(context, walk, body)?;
    let written = body.statements.as_slice();
    let built = body_of(context, &mut walk.scope, f, parameters, written)?;
    walk.bodies.push(Defined {
        name: f.name,
        function: built.function,
    })?;
    needs(checked, Code::E15, body.span)?;
    Ok(built.changed)
}

/// The body of a function, if it has one, and where it first assigns a parameter that the bounds of the result name.
pub fn function_body(
    context: &Context,
    walk: &mut Walk,
    f: &Signature,
    parameters: &[TypedParameter],
    body: &Option<Block>,
) -> Result<Option<Span>, CheckError>
    requires few { length parameters.now ≤ 16 }
    requires below { AreOver (length parameters.now) parameters.now }
    requires outside { Outside (scope_of walk.old.scope) }
    ensures core { Answers (λ _. walk_of walk.new) (function_body_of (place_at context.now) (walk_of walk.old) (signature f.now)
        (map parameter_of parameters.now) (option_map body_tree body.now)) result }
    ensures changed { IfOk result (λ changed. changed ≡ first_changed_in (scope_of walk.old.scope) (signature f.now)
        (map parameter_of parameters.now) (option_map body_tree body.now)) }
{
    match body {
        None => Ok(None),
        Some(body) => with_body(context, walk, f, parameters, body),
    }
}
