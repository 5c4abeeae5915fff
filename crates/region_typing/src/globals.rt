// Declarations of file-level variables.

ghost use Rattle.std.specs.Prelude.{◌≡◌, ◌<◌, ◌≤◌, true, Some, [], length, map, IfOk, OnOk};
ghost use Rattle.std.specs.Option.{option_map};
ghost use Rattle.ckc_text.specs.Places.{place_at};
ghost use Rattle.ckc_tree.specs.Types.{type_tree};
ghost use Rattle.ckc_tree.specs.Expressions.{bounds as bounds_tree};
ghost use Rattle.ckc_tree.specs.Statements.{initializer as initializer_tree, declarator as declarator_tree};
ghost use Rattle.ckc_tree.specs.Items.{global as global_tree};
ghost use Rattle.pointer_modes.specs.Types.{ctype as ctype_of};
ghost use Rattle.region_typing_rules.specs.Verdicts.{passing};
ghost use Rattle.region_typing_rules.specs.Cells.{is_length as is_length_of};
ghost use Rattle.region_typing_rules.specs.DeclaredBounds.{declared_bounds};
ghost use Rattle.region_typing_rules.specs.Statements.{length_of as length_in};
ghost use Rattle.region_typing_rules.specs.Items.{bounded_type, count_of as count_in, object_bounds as object_bounds_of, with_own, written_as as written_as_of, written_size as written_size_of, room_for as room_in, room_for_first as first_room_in, global as global_of};
ghost use Rattle.region_typing_scope.specs.Answering.{Answers};
ghost use Rattle.region_typing_scope.specs.Views.{scope as scope_of};
ghost use Rattle.region_typing.specs.Initials.{judged as judged_view};
ghost use Rattle.region_typing.specs.Items.{walk as walk_of, with_one, judged_initializer, judged_variable, one_variable, judged_variables, one_object, judged_objects};

use crate::initials::{Judged, cells_of, judged_list, judged_value};
use crate::walk::Walk;
use bounds_exprs::term::Bounds;
use ckc_core::program::Object;
use ckc_text::code::Code;
use ckc_text::fault::NoMemory;
use ckc_text::place::Span;
use ckc_tree::expr::BoundsText;
use ckc_tree::expression_texts::push_initializer_texts;
use ckc_tree::item::Global as Declaration;
use ckc_tree::stmt::{Declarator, Initializer};
use ckc_tree::type_form::TypeForm;
use pointer_modes::ctype::CType;
use region_typing_expressions::expressions::typed;
use region_typing_scope::context::Context;
use region_typing_scope::declared::bounds_at;
use region_typing_scope::initial_cells::is_length;
use region_typing_scope::place::Place;
use region_typing_scope::refusals::{CheckError, meant, needs};
use region_typing_scope::scope::Scope;
use region_typing_scope::signature::bounds_in;
use region_typing_scope::text_blocks::block_bytes;
use region_typing_scope::types::{base_type, copied};
use region_typing_scope::visible::Visible;
use region_typing_statements::local_arrays::{array_element, is_ended_array, length_of};
use std::slice;

/// How many file-level variables a program may have.
const MOST_VARIABLES: usize = 4096;

/// The bytes of a pointer.
const POINTER_BYTES: u32 = 4;

// The bytes of a variable of a type as it is written.
fn written_size(scope: &Scope, base: &TypeForm, stars: usize) -> Result<u32, CheckError>
    ensures bytes { Answers (λ n. n) (written_size_of (scope_of scope.now) (type_tree base.now) stars) result }
    ensures few { IfOk result (λ bytes. bytes ≤ 256) }
{
    if stars > 0 {
        return Ok(POINTER_BYTES);
    }
    match base {
        TypeForm::Int { .. } => Ok(scope.structs.size_of(&CType::Int)),
        TypeForm::Char { .. } => Ok(scope.structs.size_of(&CType::Char)),
        TypeForm::Struct { tag, .. } => {
            let number = meant(scope.struct_number(tag.number))?;
            Ok(scope.structs.size_of(&CType::Struct(number)))
        }
        TypeForm::Pointer { .. } => Ok(POINTER_BYTES),
    }
}

// Of how many values of its type a variable consists.
fn count_of(count: Option<u32>) -> u32
    requires { is_length_of count ≡ true }
    ensures count { result ≡ count_in count }
    ensures few { result ≤ 8192 }
{
    match count {
        None => 1,
        Some(count) => count,
    }
}

// The bytes that are taken with a variable more, where there is room for it.
fn room_for(walk: &Walk, base: &TypeForm, span: Span, d: &Declarator) -> Result<u32, CheckError>
    ensures room { Answers (λ n. n) (room_in (walk_of walk.now) (type_tree base.now) span (declarator_tree d.now)) result }
    ensures few_bytes { IfOk result (λ taken. taken ≤ 32768) }
    ensures few { IfOk result (λ _. length walk.now.scope.variables.items < 4096) }
{
    needs(walk.scope.variables.len() < MOST_VARIABLES, Code::E08, span)?;
    let size = written_size(&walk.scope, base, d.stars)?;
    let count = length_of(d);
    needs(is_length(count), Code::E08, span)?;
    let taken = walk.taken + block_bytes(count_of(count) * size);
    needs(walk.scope.strings.fit_behind(taken), Code::E08, span)?;
    Ok(taken)
}

// The same for the first variable of a declaration.
fn room_for_first(walk: &Walk, d: &Declaration) -> Result<u32, CheckError>
    ensures { Answers (λ n. n) (first_room_in (walk_of walk.now) (global_tree d.now) (global_tree d.now).declarators) result }
{
    match d.declarators.as_slice() {
        [] => Ok(walk.taken),
        [first, ..] => room_for(walk, &d.base, d.span, first),
    }
}

// What is judged of an initialiser.
fn judged_by(context: &Context, scope: &Scope, written: &Initializer) -> Result<Judged, CheckError>
    ensures { Answers judged_view (judged_initializer (place_at context.now) (scope_of scope.now) (Some (initializer_tree written.now))) result }
{
    match written {
        Initializer::Value { value } => {
            let t = typed(context, scope, value)?;
            Ok(judged_value(scope.given, value, &t))
        }
        Initializer::List { constants, .. } => judged_list(context, constants.as_slice()),
    }
}

// What a variable is initialised with.
fn initializer(
    context: &Context,
    scope: &Scope,
    written: &Option<Initializer>,
) -> Result<Judged, CheckError>
    ensures { Answers judged_view (judged_initializer (place_at context.now) (scope_of scope.now) (option_map initializer_tree written.now)) result }
{
    match written {
        None => Ok(Judged::Missing),
        Some(written) => judged_by(context, scope, written),
    }
}

// The bounds of a variable of a type, which may name no other one, so that their ends are constants.
fn own_bounds(
    context: &Context,
    scope: &Scope,
    t: &CType,
    d: &Declarator,
) -> Result<Option<Bounds>, CheckError>
    ensures { Answers (λ b. b) (declared_bounds (with_own (declarator_tree d.now).name.number (ctype_of t.now) (scope_of scope.now))
        (bounded_type (length_in (declarator_tree d.now)) (ctype_of t.now)) 0 (declarator_tree d.now).bounds) result }
{
    let own = Visible {
        name: d.name.number,
        local: 0,
    };
    let place = Place {
        scope,
        locals: slice::from_ref(t),
        visible: slice::from_ref(&own),
    };
    match length_of(d) {
        None => bounds_at(context, &place, t, 0, &d.bounds),
        Some(_) => bounds_at(context, &place, &CType::Int, 0, &d.bounds),
    }
}

// What is written for bounds, where it comes to these.
fn written_as(written: &Option<BoundsText>, bounds: Option<Bounds>) -> Option<Option<Bounds>>
    ensures { result ≡ written_as_of (option_map bounds_tree written.now) bounds }
{
    match written {
        None => None,
        Some(_) => Some(bounds),
    }
}

// What is written for the bounds of a variable of a type.
fn object_bounds(
    context: &Context,
    scope: &Scope,
    t: &CType,
    d: &Declarator,
) -> Result<Option<Option<Bounds>>, CheckError>
    ensures { Answers (λ b. b) (object_bounds_of (scope_of scope.now) (declarator_tree d.now) (ctype_of t.now)) result }
{
    let bounds = own_bounds(context, scope, t, d)?;
    Ok(written_as(&d.bounds, bounds))
}

// A variable more, which is known with the strings of what it is initialised with before this is judged.
fn add_variable(
    context: &Context,
    walk: &mut Walk,
    d: &Declarator,
    t: &CType,
    bounds: Option<Option<Bounds>>,
    taken: u32,
) -> Result<(), NoMemory>
    requires few { length walk.old.scope.variables.items < 4096 }
    requires room { taken ≤ 32768 }
    ensures { OnOk result (walk_of walk.new ≡ with_one taken (declarator_tree d.now) (ctype_of t.now) bounds (walk_of walk.old)) }
{
    let t = copied(context, t)?;
    let count = length_of(d);
    let ended = is_ended_array(d);
    walk.scope
        .add_variable(d.name.number, t, count, ended, bounds)?;
    walk.scope.strings.taken = taken;
    walk.taken = taken;
    push_initializer_texts(
        context.alloc(),
        &d.initializer,
        &mut walk.scope.strings.texts,
    )?;
    Ok(())
}

/// What a variable of a declaration is initialised with, how many elements it has where it is an array, and whether a zero ends
/// these, and what is written for its bounds.
#[derive(Drop)]
pub struct WalkedVariable {
    pub count: Option<u32>,
    pub ended: bool,
    pub bounds: Option<Option<Bounds>>,
    pub initial: Judged,
}

// One variable of a declaration, and what it is initialised with.
fn variable(
    context: &Context,
    walk: &mut Walk,
    base: &TypeForm,
    t: &CType,
    span: Span,
    d: &Declarator,
) -> Result<WalkedVariable, CheckError>
    ensures { Answers (λ v. (walk_of walk.new, judged_variable (ctype_of t.now) v))
        (one_variable (place_at context.now) (walk_of walk.old) (type_tree base.now) (ctype_of t.now) span (declarator_tree d.now)) result }
{
    let taken = room_for(walk, base, span, d)?;
    needs(d.stars == 0, Code::E15, base.span())?;
    let ended = is_ended_array(d);
    array_element(ended, t, base)?;
    let bounds = object_bounds(context, &walk.scope, t, d)?;
    add_variable(context, walk, d, t, bounds, taken)?;
    let initial = initializer(context, &walk.scope, &d.initializer)?;
    Ok(WalkedVariable {
        count: length_of(d),
        ended,
        bounds,
        initial,
    })
}

// The variables of a declaration, and what each is initialised with.
fn variables(
    context: &Context,
    walk: &mut Walk,
    base: &TypeForm,
    t: &CType,
    span: Span,
    ds: &[Declarator],
) -> Result<Vec<WalkedVariable>, CheckError>
    ensures { Answers (λ v. (walk_of walk.new, map (judged_variable (ctype_of t.now)) v.items))
        (judged_variables (place_at context.now) (type_tree base.now) (ctype_of t.now) span (map declarator_tree ds.now)
        (walk_of walk.old, [])) result }
{
    let mut walked = Vec::new(context.alloc());
    for d in ds {
        let next = variable(context, walk, base, t, span, d)?;
        walked.push(next)?;
    }
    Ok(walked)
}

// The cells of a variable: no place leads to a pointer for which bounds are declared.
fn object(
    context: &Context,
    walk: &mut Walk,
    span: Span,
    t: &CType,
    v: &WalkedVariable,
) -> Result<(), CheckError>
    ensures { Answers (λ _. walk_of walk.new) (one_object span (judged_variable (ctype_of t.now) v.now) (walk_of walk.old)) result }
{
    let structs = &walk.scope.structs;
    let cells = cells_of(context, structs, t, v.count, v.ended, &v.initial, span)?;
    let filled = !cells.is_empty();
    walk.objects.push(Object {
        cells,
        zero_ended: v.ended,
        is_sealed: bounds_in(&v.bounds).is_some(),
    })?;
    needs(filled, Code::E10, span)
}

// The cells of variables.
fn objects(
    context: &Context,
    walk: &mut Walk,
    span: Span,
    t: &CType,
    vs: &[WalkedVariable],
) -> Result<(), CheckError>
    ensures { Answers (λ _. walk_of walk.new) (judged_objects span (map (judged_variable (ctype_of t.now)) vs.now) (walk_of walk.old)) result }
{
    for v in vs {
        object(context, walk, span, t, v)?;
    }
    Ok(())
}

// The variables of a declaration of a type, and their cells.
fn declared_variables(
    context: &Context,
    walk: &mut Walk,
    d: &Declaration,
    t: &CType,
) -> Result<(), CheckError>
    ensures { Answers (λ _. walk_of walk.new)
        (passing (judged_variables (place_at context.now) (global_tree d.now).base (ctype_of t.now) d.now.span
        (global_tree d.now).declarators (walk_of walk.old, [])) (λ x. judged_objects d.now.span x.1 x.0)) result }
{
    let vs = variables(context, walk, &d.base, t, d.span, d.declarators.as_slice())?;
    objects(context, walk, d.span, t, vs.as_slice())
}

/// A declaration of file-level variables.
pub fn global(context: &Context, walk: &mut Walk, d: &Declaration) -> Result<(), CheckError>
    ensures { Answers (λ _. walk_of walk.new) (global_of (place_at context.now) (walk_of walk.old) (global_tree d.now)) result }
{
    room_for_first(walk, d)?;
    let t = base_type(context, &walk.scope, &d.base)?;
    declared_variables(context, walk, d, &t)?;
    needs(!walk.scope.is_off, Code::E15, d.span)
}
