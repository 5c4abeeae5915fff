// Parameters of functions with their bounds, and the bounds of results over them.

ghost use Rattle.std.specs.Prelude.{◌≡◌, ◌≤◌, ◌+◌, ◌||◌, ℕ, true, [], List, length, map, reverse, is_some, IfOk, OnOk};
ghost use Rattle.std.specs.Option.{option_map};
ghost use Rattle.ckc_tree.specs.Types.{type_name as type_name_of};
ghost use Rattle.ckc_tree.specs.Expressions.{bounds as bounds_tree};
ghost use Rattle.ckc_tree.specs.Items.{Member, parameter as parameter_tree, parameters as parameters_tree};
ghost use Rattle.pointer_modes.specs.Types.{ctype as ctype_of};
ghost use Rattle.bounds_flow.specs.Conditions.{AreBoundsBelow};
ghost use Rattle.region_typing_rules.specs.Scopes.{bounds_in};
ghost use Rattle.region_typing_rules.specs.Types.{type_named as type_named_of};
ghost use Rattle.region_typing_rules.specs.Items.{declared_as as declared_as_of, listed as listed_of, type_ahead as type_ahead_of, types_ahead as types_ahead_of, seen_parameters as seen_parameters_of, among_parameters as among_parameters_of, parameter_types as parameter_types_of, type_of_result};
ghost use Rattle.region_typing_rules.specs.DeclaredBounds.{declared_bounds as declared_bounds_of};
ghost use Rattle.region_typing_scope.specs.Answering.{Answers};
ghost use Rattle.region_typing_scope.specs.Views.{scope as scope_of, visible as visible_of};
ghost use Rattle.region_typing_scope.specs.DeclaredViews.{place as place_view};
ghost use Rattle.region_typing.specs.Parameters.{parameter as parameter_of, heading as heading_view, AreOver, any_bounds as any_bounds_of, IsAmong};
ghost use Rattle.region_typing.specs.Items.{bounds_written, one_parameter, has_no_base as has_no_base_of, result_written, heading_of};

use crate::prototype::{Heading, TypedParameter};
use bounds_exprs::term::Bounds;
use ckc_text::code::Code;
use ckc_text::fault::NoMemory;
use ckc_tree::expr::BoundsText;
use ckc_tree::item::{Parameter, Parameters};
use pointer_modes::ctype::CType;
use region_typing_scope::context::Context;
use region_typing_scope::declared::bounds_at;
use region_typing_scope::place::Place;
use region_typing_scope::refusals::{CheckError, needs};
use region_typing_scope::scope::Scope;
use region_typing_scope::types::type_named;
use region_typing_scope::visible::Visible;

/// How many parameters a function may have.
const MOST_PARAMETERS: usize = 16;

/// All parameters of a function as they are visible in the bounds of each: their types, as far as these keep the rules, and
/// their names.
#[derive(Drop)]
pub struct Among {
    pub types: Vec<CType>,
    pub visible: Vec<Visible>,
}

// What stands between the parentheses.
fn listed(parameters: &Parameters) -> &[Parameter]
    ensures { map parameter_tree result.now ≡ listed_of (parameters_tree parameters.now) }
{
    match parameters {
        Parameters::Nothing | Parameters::Void => &[],
        Parameters::Listed { parameters } => parameters.as_slice(),
    }
}

// Whether bounds are written for one of the parameters.
fn any_bounds(written: &[Parameter]) -> bool
    ensures { result ≡ any_bounds_of (map parameter_tree written.now) }
{
    for p in written {
        if p.bounds.is_some() {
            return true;
        }
    }
    false
}

// Whether the parameters are asked for in bounds: in those of the result, or in those of one of them.
fn is_asked(all: &[Parameter], bounds: &Option<BoundsText>) -> bool
    ensures { result ≡ (is_some (option_map bounds_tree bounds.now) || any_bounds_of (map parameter_tree all.now)) }
{
    match bounds {
        None => any_bounds(all),
        Some(_) => true,
    }
}

// What bounds may know of the type of a parameter: one that breaks a rule has no place in them, and is refused later.
fn type_ahead(context: &Context, scope: &Scope, written: &Parameter) -> Result<CType, NoMemory>
    ensures { IfOk result (λ t. ctype_of t ≡ type_ahead_of (type_named_of (scope_of scope.now) (type_name_of written.now.type_name))) }
{
    match type_named(context, scope, &written.type_name) {
        Ok(t) => Ok(t),
        Err(CheckError::Source(_) | CheckError::Unnamed) => Ok(CType::Char),
        Err(CheckError::NoMemory) => Err(NoMemory),
    }
}

// What bounds may know of the types of parameters.
fn types_ahead(
    context: &Context,
    scope: &Scope,
    written: &[Parameter],
) -> Result<Vec<CType>, NoMemory>
    ensures { IfOk result (λ v. map ctype_of v.items ≡ types_ahead_of (scope_of scope.now) (map parameter_tree written.now)) }
{
    let mut types = Vec::new(context.alloc());
    for p in written {
        types.push(type_ahead(context, scope, p)?)?;
    }
    Ok(types)
}

// The number behind that of a local; no memory has room for more than 2^32 locals.
fn next_local(local: u32) -> Result<u32, NoMemory>
    ensures { IfOk result (λ next. next ≡ local + 1) }
{
    local.checked_add(1).ok_or(NoMemory)
}

// The names of parameters, of which the first one is the innermost.
fn seen_parameters(context: &Context, written: &[Parameter]) -> Result<Vec<Visible>, NoMemory>
    ensures { IfOk result (λ v. reverse (map visible_of v.items) ≡ seen_parameters_of 0 (map parameter_tree written.now)) }
{
    let mut visible = Vec::new(context.alloc());
    let mut local: u32 = 0;
    for p in written {
        let name = p.name.number;
        visible.push(Visible { name, local })?;
        local = next_local(local)?;
    }
    visible.reverse();
    Ok(visible)
}

// All parameters as they are visible in bounds; none where these aren't asked for.
fn among_parameters(
    context: &Context,
    scope: &Scope,
    written: &[Parameter],
    asked: bool,
) -> Result<Among, NoMemory>
    ensures known { IfOk result (λ a. asked ≡ true → IsAmong (scope_of scope.now) (map parameter_tree written.now) a) }
    ensures few { IfOk result (λ a. length a.types.items ≤ length written.now) }
{
    if asked {
        let types = types_ahead(context, scope, written)?;
        let visible = seen_parameters(context, written)?;
        return Ok(Among { types, visible });
    }
    Ok(Among {
        types: Vec::new(context.alloc()),
        visible: Vec::new(context.alloc()),
    })
}

// What is declared for bounds: what is written, where it comes to these, and else those that the type has.
fn declared_as(written: &Option<BoundsText>, bounds: Option<Bounds>) -> Option<Option<Bounds>>
    ensures { result ≡ declared_as_of (option_map bounds_tree written.now) bounds }
{
    match written {
        None => match bounds {
            None => None,
            Some(_) => Some(bounds),
        },
        Some(_) => Some(bounds),
    }
}

// What is declared for the bounds of a parameter of a type, by its number.
fn written_bounds(
    context: &Context,
    place: &Place,
    t: &CType,
    local: u32,
    written: &Option<BoundsText>,
) -> Result<Option<Option<Bounds>>, CheckError>
    ensures known { Answers (λ b. b) (bounds_written (place_view place.now) (ctype_of t.now) local (option_map bounds_tree written.now)) result }
    ensures below { IfOk result (λ b. AreBoundsBelow (length place.now.locals.now) (bounds_in b)) }
{
    let bounds = bounds_at(context, place, t, local, written)?;
    Ok(declared_as(written, bounds))
}

// A parameter more.
fn push_parameter(
    context: &Context,
    place: &Place,
    written: &Parameter,
    parameters: &mut Vec<TypedParameter>,
) -> Result<(), CheckError>
    ensures types { (all : List Member) → (is_some (parameter_tree written.now).bounds ≡ true
        → place_view place.now ≡ among_parameters_of (scope_of place.now.scope.now) all)
        → Answers (λ _. map parameter_of parameters.new.items) (one_parameter (scope_of place.now.scope.now) all
        (parameter_tree written.now) (map parameter_of parameters.old.items)) result }
    ensures few { OnOk result (length parameters.new.items ≤ 16) }
    ensures more { OnOk result (length parameters.new.items ≡ length parameters.old.items + 1) }
    ensures below { OnOk result ((n : ℕ) → length place.now.locals.now ≤ n → AreOver n parameters.old.items → AreOver n parameters.new.items) }
{
    needs(
        parameters.len() < MOST_PARAMETERS,
        Code::E08,
        written.type_name.base.span(),
    )?;
    parameters.reserve(1)?;
    let local = parameters.len() as u32;
    let name = written.name.number;
    let ctype = type_named(context, place.scope, &written.type_name)?;
    let bounds = written_bounds(context, place, &ctype, local, &written.bounds)?;
    parameters.push_reserved(TypedParameter {
        name,
        ctype,
        bounds,
    });
    Ok(())
}

// Parameters with their types and their bounds, in the place of all where bounds are written for one.
fn parameter_types(
    context: &Context,
    place: &Place,
    all: &[Parameter],
) -> Result<Vec<TypedParameter>, CheckError>
    requires { length place.now.locals.now ≤ length all.now }
    ensures types { (any_bounds_of (map parameter_tree all.now) ≡ true
        → place_view place.now ≡ among_parameters_of (scope_of place.now.scope.now) (map parameter_tree all.now))
        → Answers (λ v. map parameter_of v.items) (parameter_types_of (scope_of place.now.scope.now) (map parameter_tree all.now)
        (map parameter_tree all.now) []) result }
    ensures few { IfOk result (λ v. length v.items ≤ 16) }
    ensures each { IfOk result (λ v. length v.items ≡ length all.now) }
    ensures below { IfOk result (λ v. AreOver (length v.items) v.items) }
{
    let mut parameters = Vec::new(context.alloc());
    for parameter in all {
        push_parameter(context, place, parameter, &mut parameters)?;
    }
    Ok(parameters)
}

// The bounds that are written for the result of a function, which has this number, in a place.
fn bounds_in_place(
    context: &Context,
    place: &Place,
    result_type: &Option<CType>,
    number: u32,
    written: &Option<BoundsText>,
) -> Result<Option<Bounds>, CheckError>
    ensures { Answers (λ b. b) (declared_bounds_of (place_view place.now) (type_of_result (option_map ctype_of result_type.now)) number
        (option_map bounds_tree written.now)) result }
{
    match result_type {
        None => bounds_at(context, place, &CType::Int, number, written),
        Some(t) => bounds_at(context, place, t, number, written),
    }
}

// Whether bounds count from no pointer.
fn has_no_base(bounds: &Option<Bounds>) -> bool
    ensures { result ≡ has_no_base_of bounds.now }
{
    match bounds {
        None => true,
        Some(b) => b.base.is_none(),
    }
}

// What is declared for the bounds of the result of a function, which has this number, in a place.
fn result_bounds(
    context: &Context,
    place: &Place,
    result_type: &Option<CType>,
    number: u32,
    written: &Option<BoundsText>,
) -> Result<Option<Option<Bounds>>, CheckError>
    ensures { Answers (λ b. b) (result_written (place_view place.now) (option_map ctype_of result_type.now) number
        (option_map bounds_tree written.now)) result }
{
    let bounds = bounds_in_place(context, place, result_type, number, written)?;
    match written {
        None => Ok(declared_as(written, bounds)),
        Some(text) => {
            needs(has_no_base(&bounds), Code::E16, text.span())?;
            Ok(Some(bounds))
        }
    }
}

/// Parameters with their types and their bounds, and the bounds of the result, all over the parameters.
///
/// # Errors
///
/// E08 at a parameter too many, what its type and its bounds break, and then what the bounds of the result break, which count
/// from no pointer (E16).
pub fn heading(
    context: &Context,
    scope: &Scope,
    written: &Parameters,
    result_type: &Option<CType>,
    bounds: &Option<BoundsText>,
) -> Result<Heading, CheckError>
    ensures known { Answers heading_view (heading_of (scope_of scope.now) (listed_of (parameters_tree written.now))
        (option_map ctype_of result_type.now) (option_map bounds_tree bounds.now)) result }
    ensures few { IfOk result (λ h. length h.parameters.items ≤ 16) }
    ensures below { IfOk result (λ h. AreOver (length h.parameters.items) h.parameters.items) }
{
    let all = listed(written);
    let asked = is_asked(all, bounds);
    let among = among_parameters(context, scope, all, asked)?;
    let place = Place {
        scope,
        locals: among.types.as_slice(),
        visible: among.visible.as_slice(),
    };
    let parameters = parameter_types(context, &place, all)?;
    let number = parameters.len() as u32;
    let bounds = result_bounds(context, &place, result_type, number, bounds)?;
    Ok(Heading { parameters, bounds })
}
