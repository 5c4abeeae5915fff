// The names in what stands at file level.

ghost use Rattle.std.specs.Prelude.{◌++◌, ◌∷◌, [], map};
ghost use Rattle.std.specs.Option.{option_map};
ghost use Rattle.std.specs.List.{flat_map};
ghost use Rattle.ckc_tree.specs.Types.{type_tree};
ghost use Rattle.ckc_tree.specs.Expressions.{bounds as bounds_of};
ghost use Rattle.ckc_tree.specs.Items.{member as member_of, parameter as parameter_of, structure as structure_of, parameters as parameters_of, result_form as result_of, body as body_of, function as function_of, item as item_of};
ghost use Rattle.ckc_names_rules.specs.Mentions.{Reveal, Declare, DeclareTag, optional_mentions, type_mentions, bounds_mentions, in_block, member_mentions, listed_mentions, parameters_mentions, result_mentions, function_mentions, item_mentions};
ghost use Rattle.ckc_names.specs.Slices.{body_mentions};
ghost use Rattle.ckc_names.specs.Progress.{Passes};

use crate::declarations::{declarators, optional_bounds};
use crate::expressions::type_form;
use crate::resolver::Resolver;
use crate::statements::statements;
use ckc_tree::expr::BoundsText;
use ckc_tree::identifier::Identifier;
use ckc_tree::item::{Block, Function, Item, Member, Parameter, Parameters, ResultForm, Structure};
use ckc_tree::type_form::TypeForm;

// The type, the name and the bounds of a member or a parameter.
fn listed(resolver: &mut Resolver, base: &TypeForm, name: &Identifier, bounds: &Option<BoundsText>)
    ensures { Passes (type_mentions (type_tree base.now) ++ Declare name.now ∷ optional_mentions bounds_mentions
        (option_map bounds_of bounds.now)) resolver.old resolver.new }
{
    type_form(resolver, base);
    resolver.declare(name);
    optional_bounds(resolver, bounds);
}

fn reveal_members(resolver: &mut Resolver, members: &[Member])
    ensures { Passes (flat_map (λ x. Reveal (member_of x).name ∷ []) members.now) resolver.old resolver.new }
{
    for member in members {
        resolver.reveal(&member.name);
    }
}

fn declare_members(resolver: &mut Resolver, members: &[Member])
    ensures { Passes (flat_map (λ x. member_mentions (member_of x)) members.now) resolver.old resolver.new }
{
    for member in members {
        listed(
            resolver,
            &member.type_name.base,
            &member.name,
            &member.bounds,
        );
    }
}

fn members(resolver: &mut Resolver, members: &[Member])
    ensures { Passes (listed_mentions (map member_of members.now)) resolver.old resolver.new }
{
    reveal_members(resolver, members);
    declare_members(resolver, members);
}

fn reveal_parameters(resolver: &mut Resolver, parameters: &[Parameter])
    ensures { Passes (flat_map (λ x. Reveal (parameter_of x).name ∷ []) parameters.now) resolver.old resolver.new }
{
    for parameter in parameters {
        resolver.reveal(&parameter.name);
    }
}

fn declare_parameters(resolver: &mut Resolver, parameters: &[Parameter])
    ensures { Passes (flat_map (λ x. member_mentions (parameter_of x)) parameters.now) resolver.old resolver.new }
{
    for parameter in parameters {
        listed(
            resolver,
            &parameter.type_name.base,
            &parameter.name,
            &parameter.bounds,
        );
    }
}

fn parameters(resolver: &mut Resolver, written: &[Parameter])
    ensures { Passes (listed_mentions (map parameter_of written.now)) resolver.old resolver.new }
{
    reveal_parameters(resolver, written);
    declare_parameters(resolver, written);
}

fn parameter_list(resolver: &mut Resolver, written: &Parameters)
    ensures { Passes (parameters_mentions (parameters_of written.now)) resolver.old resolver.new }
{
    match written {
        Parameters::Nothing | Parameters::Void => {}
        Parameters::Listed { parameters: names } => parameters(resolver, names.as_slice()),
    }
}

fn result_form(resolver: &mut Resolver, written: &ResultForm)
    ensures { Passes (result_mentions (result_of written.now)) resolver.old resolver.new }
{
    match written {
        ResultForm::Void { .. } => {}
        ResultForm::Value { base } => type_form(resolver, base),
    }
}

fn body(resolver: &mut Resolver, written: &Option<Block>)
    ensures { Passes (optional_mentions body_mentions (option_map body_of written.now)) resolver.old resolver.new }
{
    match written {
        None => {}
        Some(block) => statements(resolver, block.statements.as_slice()),
    }
}

// The parameters, the result's bounds and the statements of a function.
fn function_block(resolver: &mut Resolver, written: &Function)
    ensures { let f = function_of written.now in Passes (parameters_mentions f.parameters
        ++ (optional_mentions bounds_mentions f.bounds ++ optional_mentions body_mentions f.body)) resolver.old resolver.new }
{
    parameter_list(resolver, &written.parameters);
    optional_bounds(resolver, &written.bounds);
    body(resolver, &written.body);
}

fn function(resolver: &mut Resolver, written: &Function)
    ensures { Passes (function_mentions (function_of written.now)) resolver.old resolver.new }
{
    result_form(resolver, &written.result);
    resolver.declare_function(&written.name, written.body.is_some());
    resolver.open();
    function_block(resolver, written);
    resolver.close();
}

fn structure(resolver: &mut Resolver, written: &Structure)
    ensures { let s = structure_of written.now in Passes (DeclareTag s.tag ∷ in_block (listed_mentions s.members)) resolver.old resolver.new }
{
    resolver.declare_tag(&written.tag);
    resolver.open();
    members(resolver, written.members.as_slice());
    resolver.close();
}

fn item(resolver: &mut Resolver, written: &Item)
    ensures { Passes (item_mentions (item_of written.now)) resolver.old resolver.new }
{
    match written {
        Item::Region { .. } => {}
        Item::Structure { structure: inner } => structure(resolver, inner),
        Item::Global { global } => {
            type_form(resolver, &global.base);
            declarators(resolver, global.declarators.as_slice());
        }
        Item::Function { function: inner } => function(resolver, inner),
    }
}

/// The names in what stands at file level, in its order.
pub fn items(resolver: &mut Resolver, written: &[Item])
    ensures { Passes (flat_map (λ x. item_mentions (item_of x)) written.now) resolver.old resolver.new }
{
    for listed in written {
        item(resolver, listed);
    }
}
