// What stands at file level.

ghost use Rattle.std.specs.Prelude.{◌≡◌, ◌<◌, ◌&&◌, ◌||◌, nat_lt, true, is_some, None, length, map};
ghost use Rattle.ckc_text.specs.Places.{place_at};
ghost use Rattle.ckc_tree.specs.Items.{function as function_tree, item as item_tree};
ghost use Rattle.region_typing_rules.specs.Verdicts.{picked};
ghost use Rattle.region_typing_rules.specs.Calls.{is_tainted as tainted_kind};
ghost use Rattle.region_typing_rules.specs.Scopes.{function_named};
ghost use Rattle.region_typing_rules.specs.Items.{is_defined as defined_in, is_off as is_off_of, agrees as agrees_of, all_scalar, scalar_result, function as function_of, item as item_of, items as items_of};
ghost use Rattle.region_typing_scope.specs.Answering.{Answers};
ghost use Rattle.region_typing_scope.specs.Views.{scope as scope_of, signature};
ghost use Rattle.region_typing.specs.Items.{walk as walk_of, Outside, kept_rules, behind_declaration};
ghost use Rattle.region_typing.specs.Signatures.{declared as declared_view};

use crate::definitions::{Listing, defined_names};
use crate::function_rules::keep_function_rules;
use crate::functions::function_body;
use crate::globals::global;
use crate::prototype::Prototype;
use crate::signatures::{agrees, declare, declared, is_scalar_signature};
use crate::structures::structure;
use crate::walk::Walk;
use ckc_text::code::Code;
use ckc_text::place::Span;
use ckc_tree::item::{Function, FunctionKind, Item, Region};
use region_typing_scope::context::Context;
use region_typing_scope::refusals::{CheckError, needs};
use region_typing_scope::scope::Scope;
use region_typing_scope::signature::Signature;
use region_typing_statements::marks::is_checked;

/// How many functions a program may declare.
const MOST_FUNCTIONS: usize = 4096;

// Whether a function has a body where it needs one.
fn has_body(listing: &Listing, d: &Function) -> bool
    ensures { result ≡ picked (tainted_kind d.now.kind) true (defined_in (map item_tree listing.now.items.now) d.now.name.number) }
{
    match d.kind {
        FunctionKind::Tainted => true,
        FunctionKind::Trusted | FunctionKind::Callback => { listing.is_defined(d.name.number) }
    }
}

// Whether a declaration agrees with the first one of its name, and its types are scalars.
fn fits(scope: &Scope, f: &Signature) -> bool
    ensures { result ≡ (agrees_of (function_named (scope_of scope.now).functions f.now.name) (signature f.now)
        && (all_scalar (signature f.now).parameters && scalar_result (signature f.now).result)) }
{
    agrees(scope, f) && is_scalar_signature(f)
}

// The rules of a function whose body was walked.
fn keep_rules(
    listing: &Listing,
    scope: &Scope,
    d: &Function,
    fits: bool,
    changed: Option<Span>,
) -> Result<(), CheckError>
    ensures { Answers (λ x. x) (kept_rules (map item_tree listing.now.items.now) (function_tree d.now) fits changed (scope_of scope.now)) result }
{
    let has_body = has_body(listing, d);
    let is_checked = is_checked(scope, d.mark);
    keep_function_rules(fits, has_body, changed, is_checked, d.span)
}

// Whether a function is known, or there is room for one more.
fn has_room(scope: &Scope, name: usize) -> bool
    ensures { result ≡ (is_some (function_named (scope_of scope.now).functions name) || nat_lt (length (scope_of scope.now).functions) 4096) }
{
    scope.function(name).is_some() || scope.functions.len() < MOST_FUNCTIONS
}

// A function whose declaration is known, where there is room for it.
fn with_prototype(
    context: &Context,
    listing: &Listing,
    walk: &mut Walk,
    known: &Prototype,
    d: &Function,
) -> Result<(), CheckError>
    requires outside { Outside (scope_of walk.old.scope) }
    requires room { function_named (scope_of walk.old.scope).functions known.now.signature.name ≡ None → length walk.old.scope.functions.items < 4096 }
    ensures { Answers (λ _. walk_of walk.new) (behind_declaration (place_at context.now) (map item_tree listing.now.items.now)
        (walk_of walk.old) (function_tree d.now) (declared_view known.now)) result }
{
    let suits = fits(&walk.scope, &known.signature);
    declare(context, &mut walk.scope, &known.signature)?;
    let parameters = known.parameters.as_slice();
    let changed = function_body(context, walk, &known.signature, parameters, &d.body)?;
    keep_rules(listing, &walk.scope, d, suits, changed)
}

// A function.
fn function(
    context: &Context,
    listing: &Listing,
    walk: &mut Walk,
    d: &Function,
) -> Result<(), CheckError>
    requires { Outside (scope_of walk.old.scope) }
    ensures { Answers (λ _. walk_of walk.new) (function_of (place_at context.now) (map item_tree listing.now.items.now) (walk_of walk.old)
        (function_tree d.now)) result }
{
    needs(has_room(&walk.scope, d.name.number), Code::E08, d.span)?;
    let known = declared(context, &walk.scope, d)?;
    with_prototype(context, listing, walk, &known, d)
}

fn is_off(region: Region) -> bool
    ensures { result ≡ is_off_of region }
{
    match region {
        Region::On => false,
        Region::Off => true,
    }
}

// One item of a source.
fn item(
    context: &Context,
    listing: &Listing,
    walk: &mut Walk,
    written: &Item,
) -> Result<(), CheckError>
    requires { Outside (scope_of walk.old.scope) }
    ensures { Answers (λ _. walk_of walk.new) (item_of (place_at context.now) (map item_tree listing.now.items.now) (walk_of walk.old)
        (item_tree written.now)) result }
{
    match written {
        Item::Region { region, .. } => {
            walk.scope.is_off = is_off(*region);
            Ok(())
        }
        Item::Structure { structure: d } => structure(context, walk, d),
        Item::Global { global: d } => global(context, walk, d),
        Item::Function { function: d } => function(context, listing, walk, d),
    }
}

// Each item of a source, in their order.
fn each_item(context: &Context, listing: &Listing, walk: &mut Walk) -> Result<(), CheckError>
    requires { Outside (scope_of walk.old.scope) }
    ensures { Answers (λ _. walk_of walk.new) (items_of (place_at context.now) (map item_tree listing.now.items.now) (walk_of walk.old)
        (map item_tree listing.now.items.now)) result }
{
    let written = listing.items;
    for listed in written {
        item(context, listing, walk, listed)?;
    }
    Ok(())
}

/// The items of a source, in their order.
pub fn items(context: &Context, walk: &mut Walk, written: &[Item]) -> Result<(), CheckError>
    requires { Outside (scope_of walk.old.scope) }
    ensures { Answers (λ _. walk_of walk.new) (items_of (place_at context.now) (map item_tree written.now) (walk_of walk.old)
        (map item_tree written.now)) result }
{
    let listing = Listing {
        items: written,
        defined: defined_names(context, written)?,
    };
    each_item(context, &listing, walk)
}
