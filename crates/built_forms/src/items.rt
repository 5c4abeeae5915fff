// Items of built forms.

ghost use Rattle.std.specs.Prelude.{◌≡◌};
ghost use Rattle.std.specs.List.{list_all};
ghost use Rattle.std.specs.Option.{option_map};
ghost use Rattle.ckc_tree.specs.Expressions.{bounds};
ghost use Rattle.ckc_tree.specs.Items.{member, parameter, parameters as parameters_of, result_form, function, structure as structure_of, global as global_of, StructureItem, GlobalItem, item, tree};
ghost use Rattle.built_forms.specs.Built as built;

use crate::expressions::{built_type, is_number_type};
use crate::statements::{built_block, built_declarators, built_optional_bounds};
use ckc_tree::expr::BoundsText;
use ckc_tree::item::{
    Function, FunctionKind, Global, Item, Member, Parameter, Parameters, Program, ResultForm,
    Structure,
};

fn built_member(written: &Member) -> bool
    ensures { result ≡ built.built_member (member written.now) }
{
    built_type(&written.type_name.base) && written.bounds.is_none()
}

// Whether a parameter of a trusted function has only forms that are built: it may have bounds.
fn built_parameter(written: &Parameter) -> bool
    ensures { result ≡ built.built_parameter (parameter written.now) }
{
    built_type(&written.type_name.base) && built_optional_bounds(&written.bounds)
}

fn is_number_parameter(written: &Parameter) -> bool
    ensures { result ≡ built.is_number_parameter (parameter written.now) }
{
    is_number_type(&written.type_name.base)
        && written.type_name.stars == 0
        && written.bounds.is_none()
}

fn all_built(parameters: &[Parameter]) -> bool
    ensures { result ≡ list_all (λ p. built.built_parameter (parameter p)) parameters.now }
{
    parameters.iter().all(|p| built_parameter(p))
}

fn all_numbers(parameters: &[Parameter]) -> bool
    ensures { result ≡ list_all (λ p. built.is_number_parameter (parameter p)) parameters.now }
{
    parameters.iter().all(|p| is_number_parameter(p))
}

fn built_members(members: &[Member]) -> bool
    ensures { result ≡ list_all (λ m. built.built_member (member m)) members.now }
{
    members.iter().all(|m| built_member(m))
}

fn built_items(items: &[Item]) -> bool
    ensures { result ≡ list_all (λ x. built.built_item (item x)) items.now }
{
    items.iter().all(|x| built_item(x))
}

fn built_parameters(written: &Parameters) -> bool
    ensures { result ≡ built.built_parameters built.built_parameter (parameters_of written.now) }
{
    match written {
        Parameters::Nothing | Parameters::Void => true,
        Parameters::Listed { parameters } => all_built(parameters.as_slice()),
    }
}

fn are_number_parameters(written: &Parameters) -> bool
    ensures { result ≡ built.built_parameters built.is_number_parameter (parameters_of written.now) }
{
    match written {
        Parameters::Nothing | Parameters::Void => true,
        Parameters::Listed { parameters } => all_numbers(parameters.as_slice()),
    }
}

fn built_result(written: &ResultForm) -> bool
    ensures { result ≡ built.built_result (result_form written.now) }
{
    match written {
        ResultForm::Void { .. } => true,
        ResultForm::Value { base } => built_type(base),
    }
}

fn is_number_result(written: &ResultForm) -> bool
    ensures { result ≡ built.is_number_result (result_form written.now) }
{
    match written {
        ResultForm::Void { .. } => true,
        ResultForm::Value { base } => is_number_type(base),
    }
}

// Whether a trusted function has only forms that are built.
fn built_trusted(written: &Function) -> bool
    ensures { result ≡ built.built_of_kind FunctionKind.Trusted (function written.now) }
{
    if !built_result(&written.result) || !built_parameters(&written.parameters) {
        return false;
    }
    match &written.body {
        None => true,
        Some(body) => built_block(body.statements.as_slice()),
    }
}

// Whether a tainted function is without a body, and takes and gives numbers.
fn built_tainted(written: &Function) -> bool
    ensures { result ≡ built.built_of_kind FunctionKind.Tainted (function written.now) }
{
    is_number_result(&written.result)
        && written.stars == 0
        && are_number_parameters(&written.parameters)
        && written.body.is_none()
}

// Whether the bounds of a function's result have only forms that are built: that of a trusted function may have bounds.
fn built_result_bounds(kind: FunctionKind, written: &Option<BoundsText>) -> bool
    ensures { result ≡ built.built_result_bounds kind (option_map bounds written.now) }
{
    match kind {
        FunctionKind::Trusted => built_optional_bounds(written),
        FunctionKind::Tainted | FunctionKind::Callback => written.is_none(),
    }
}

fn built_function(written: &Function) -> bool
    ensures { result ≡ built.built_function (function written.now) }
{
    if !built_result_bounds(written.kind, &written.bounds) {
        return false;
    }
    match written.kind {
        FunctionKind::Trusted => built_trusted(written),
        FunctionKind::Tainted => built_tainted(written),
        FunctionKind::Callback => false,
    }
}

fn built_structure(written: &Structure) -> bool
    ensures { result ≡ built.built_item (StructureItem (structure_of written.now)) }
{
    !written.tainted && built_members(written.members.as_slice())
}

fn built_global(written: &Global) -> bool
    ensures { result ≡ built.built_item (GlobalItem (global_of written.now)) }
{
    if written.tainted || !built_type(&written.base) {
        return false;
    }
    built_declarators(written.declarators.as_slice())
}

fn built_item(written: &Item) -> bool
    ensures { result ≡ built.built_item (item written.now) }
{
    match written {
        Item::Region { .. } => true,
        Item::Structure { structure } => built_structure(structure),
        Item::Global { global } => built_global(global),
        Item::Function { function } => built_function(function),
    }
}

/// Whether a program has only forms that are built.
pub fn is_built(program: &Program) -> bool
    ensures { result ≡ built.is_built (tree program.now) }
{
    built_items(program.items.as_slice())
}
