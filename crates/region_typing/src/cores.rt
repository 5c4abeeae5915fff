// The core of a program that breaks no rule.

ghost use Rattle.std.specs.Prelude.{◌≡◌, ◌<◌, ◌∷◌, ◌++◌, [], slice_set, map, length, IfOk};
ghost use Rattle.ckc_core.specs.declared.program.Definition.TheVariants.{Trusted};
ghost use Rattle.ckc_core.specs.Core.{function as function_of, import_of, definition as definition_view, core as core_view};
ghost use Rattle.region_typing_rules.specs.Cores.{without_body as without_body_of, import_of as import_as, definition_of, definitions_of, small_core};
ghost use Rattle.region_typing_scope.specs.Answering.{Answers};
ghost use Rattle.region_typing_scope.specs.Views.{signature};
ghost use Rattle.region_typing.specs.Items.{walk as walk_of, defined};
ghost use Rattle.region_typing.specs.CoreParts.{trusted_place as trusted_place_of};

use crate::functions::copied_result;
use crate::signatures::copied_signature;
use crate::texts::push_texts;
use crate::walk::{Defined, Walk};
use ckc_core::program::{Core, Definition, Function, Import};
use ckc_text::code::Code;
use ckc_text::fault::NoMemory;
use ckc_text::place::Span;
use region_typing_scope::context::Context;
use region_typing_scope::refusals::{CheckError, needs};
use region_typing_scope::scope::Scope;
use region_typing_scope::sides::is_import;
use region_typing_scope::signature::Signature;
use std::mem;

// A function without a body.
fn without_body(context: &Context, f: &Signature) -> Result<Function, NoMemory>
    ensures { IfOk result (λ c. function_of c ≡ without_body_of (signature f.now)) }
{
    let heading = copied_signature(context, f)?;
    Ok(Function {
        name: heading.text,
        parameters: heading.parameters.len() as u32,
        locals: heading.parameters,
        result: heading.result,
        body: Vec::new(context.alloc()),
    })
}

// A tainted function.
fn import(context: &Context, f: &Signature) -> Result<Import, NoMemory>
    ensures { IfOk result (λ i. import_of i ≡ import_as (signature f.now)) }
{
    Ok(Import {
        name: f.text.copy(context.alloc())?,
        parameters: f.parameters.len() as u32,
        result: copied_result(context, &f.result)?,
    })
}

// A function on its side, without its body.
fn definition(context: &Context, f: &Signature) -> Result<Definition, NoMemory>
    ensures { IfOk result (λ d. definition_view d ≡ definition_of [] (signature f.now)) }
{
    if is_import(f) {
        Ok(Definition::Tainted(import(context, f)?))
    } else {
        Ok(Definition::Trusted(without_body(context, f)?))
    }
}

// A function more, without its body.
fn push_definition(
    context: &Context,
    f: &Signature,
    built: &mut Vec<Definition>,
) -> Result<(), NoMemory>
    ensures { IfOk result (λ _. map definition_view built.new.items ≡ map definition_view built.old.items ++ definition_of [] (signature f.now) ∷ []) }
{
    let next = definition(context, f)?;
    built.push(next)?;
    Ok(())
}

// All functions, without their bodies.
fn without_bodies(context: &Context, functions: &[Signature]) -> Result<Vec<Definition>, NoMemory>
    ensures { IfOk result (λ v. map definition_view v.items ≡ definitions_of [] (map signature functions.now)) }
{
    let mut built = Vec::new(context.alloc());
    for f in functions {
        push_definition(context, f, &mut built)?;
    }
    Ok(built)
}

// The place of a trusted function among all.
fn trusted_place(scope: &Scope, name: usize) -> Option<usize>
    ensures { result ≡ trusted_place_of (map signature scope.now.functions.items) name }
{
    let place = scope.function_place(name)?;
    if is_import(&scope.functions[place]) {
        None
    } else {
        Some(place)
    }
}

// Puts a function in the place of another.
fn put(built: &mut Vec<Definition>, place: usize, f: Function)
    requires { place < length built.old.items }
    ensures { built.new.items ≡ slice_set built.old.items place (Trusted f) }
{
    built[place] = Definition::Trusted(f);
}

// Puts a body in the place of its function, where that is trusted.
fn place(built: &mut Vec<Definition>, scope: &Scope, body: Defined)
    requires { length built.old.items ≡ length scope.now.functions.items }
    ensures all { length built.new.items ≡ length built.old.items }
    ensures placed { (bodies : _) → map definition_view built.old.items ≡ definitions_of bodies (map signature scope.now.functions.items)
        → map definition_view built.new.items ≡ definitions_of (defined body ∷ bodies) (map signature scope.now.functions.items) }
{
    match trusted_place(scope, body.name) {
        Some(place) => put(built, place, body.function),
        None => drop(body),
    }
}

// The functions, the trusted ones with their bodies.
fn definitions(
    context: &Context,
    scope: &Scope,
    bodies: &mut Vec<Defined>,
) -> Result<Vec<Definition>, NoMemory>
    ensures { IfOk result (λ v. map definition_view v.items ≡ definitions_of (map defined bodies.old.items) (map signature scope.now.functions.items)) }
{
    let mut built = without_bodies(context, scope.functions.as_slice())?;
    while let Some(body) = bodies.pop() {
        place(&mut built, scope, body);
    }
    Ok(built)
}

/// The core of what was walked, where this is the name of `main`: E08 at the program's span where its variables and strings
/// take too many bytes. The cells and the bodies are moved into it.
pub fn core_of(
    context: &Context,
    walk: &mut Walk,
    entry: usize,
    span: Span,
) -> Result<Core, CheckError>
    ensures { Answers core_view (small_core entry span (walk_of walk.old)) result }
{
    needs(walk.scope.strings.fit_behind(walk.taken), Code::E08, span)?;
    let scope = &walk.scope;
    push_texts(context, scope.strings.texts.as_slice(), &mut walk.objects)?;
    let definitions = definitions(context, scope, &mut walk.bodies)?;
    let main = scope.side_number(false, entry);
    Ok(Core {
        objects: mem::replace(&mut walk.objects, Vec::new(context.alloc())),
        definitions,
        main,
    })
}
