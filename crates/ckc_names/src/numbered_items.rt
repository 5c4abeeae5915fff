// The numbers of the names in what stands at file level.

ghost use Rattle.std.specs.Prelude.{◌≡◌, length, map};
ghost use Rattle.std.specs.Option.{option_map};
ghost use Rattle.ckc_tree.specs.Items.{member as member_of, parameter as parameter_of, structure as structure_of, global as global_of, parameters as parameters_of, result_form as result_of, body as body_of, function as function_of, item as item_of, tree};
ghost use Rattle.ckc_tree.specs.Numbers.{number_member, number_structure, number_global, number_parameters, number_result, number_body, number_function, number_item, numbered};
ghost use Rattle.ckc_names_rules.specs.Given.{number_in};

use crate::name_list::NameList;
use crate::numbered_expressions::{name, optional_bounds, type_form};
use crate::numbered_statements::{declarators, statements};
use ckc_tree::item::{
    Block, Function, Global, Item, Member, Parameter, Parameters, Program, ResultForm, Structure,
};

fn member(names: &NameList, written: &mut Member)
    ensures { member_of written.new ≡ number_member (number_in names.now) (member_of written.old) }
{
    type_form(names, &mut written.type_name.base);
    name(names, &mut written.name);
    optional_bounds(names, &mut written.bounds);
}

fn members(names: &NameList, written: &mut [Member])
    ensures all { length written.new ≡ length written.old }
    ensures walked { map member_of written.new ≡ map (number_member (number_in names.now)) (map member_of written.old) }
{
    for listed in written {
        member(names, listed);
    }
}

fn structure(names: &NameList, written: &mut Structure)
    ensures { structure_of written.new ≡ number_structure (number_in names.now) (structure_of written.old) }
{
    name(names, &mut written.tag);
    members(names, written.members.as_mut_slice());
}

fn global(names: &NameList, written: &mut Global)
    ensures { global_of written.new ≡ number_global (number_in names.now) (global_of written.old) }
{
    type_form(names, &mut written.base);
    declarators(names, written.declarators.as_mut_slice());
}

fn parameter(names: &NameList, written: &mut Parameter)
    ensures { parameter_of written.new ≡ number_member (number_in names.now) (parameter_of written.old) }
{
    type_form(names, &mut written.type_name.base);
    name(names, &mut written.name);
    optional_bounds(names, &mut written.bounds);
}

fn parameters(names: &NameList, written: &mut [Parameter])
    ensures all { length written.new ≡ length written.old }
    ensures walked { map parameter_of written.new ≡ map (number_member (number_in names.now)) (map parameter_of written.old) }
{
    for listed in written {
        parameter(names, listed);
    }
}

fn parameter_list(names: &NameList, written: &mut Parameters)
    ensures { parameters_of written.new ≡ number_parameters (number_in names.now) (parameters_of written.old) }
{
    match written {
        Parameters::Nothing | Parameters::Void => {}
        Parameters::Listed { parameters: inner } => parameters(names, inner.as_mut_slice()),
    }
}

fn result_form(names: &NameList, written: &mut ResultForm)
    ensures { result_of written.new ≡ number_result (number_in names.now) (result_of written.old) }
{
    match written {
        ResultForm::Void { .. } => {}
        ResultForm::Value { base } => type_form(names, base),
    }
}

fn body(names: &NameList, written: &mut Option<Block>)
    ensures { option_map body_of written.new ≡ option_map (number_body (number_in names.now)) (option_map body_of written.old) }
{
    match written {
        None => {}
        Some(block) => statements(names, block.statements.as_mut_slice()),
    }
}

fn function(names: &NameList, written: &mut Function)
    ensures { function_of written.new ≡ number_function (number_in names.now) (function_of written.old) }
{
    result_form(names, &mut written.result);
    name(names, &mut written.name);
    parameter_list(names, &mut written.parameters);
    optional_bounds(names, &mut written.bounds);
    body(names, &mut written.body);
}

fn item(names: &NameList, written: &mut Item)
    ensures { item_of written.new ≡ number_item (number_in names.now) (item_of written.old) }
{
    match written {
        Item::Region { .. } => {}
        Item::Structure { structure: inner } => structure(names, inner),
        Item::Global { global: inner } => global(names, inner),
        Item::Function { function: inner } => function(names, inner),
    }
}

fn items(names: &NameList, written: &mut [Item])
    ensures all { length written.new ≡ length written.old }
    ensures walked { map item_of written.new ≡ map (number_item (number_in names.now)) (map item_of written.old) }
{
    for listed in written {
        item(names, listed);
    }
}

/// Gives the names of a program their numbers, which are their places in a list of names.
pub fn program(names: &NameList, written: &mut Program)
    ensures { tree written.new ≡ numbered (number_in names.now) (tree written.old) }
{
    items(names, written.items.as_mut_slice());
}
