// Which side each function and each file-level variable stands on.

ghost use Rattle.std.specs.Prelude.{◌≡◌, ◌∷◌, ◌++◌, [], IfOk, map};
ghost use Rattle.ckc_core.specs.Core.{core as core_of, definition as definition_of, object};
ghost use Rattle.partitioner.specs.Parts.{parts as parts_view, parts_of, numbers_from, counted_from, is_trusted};

use crate::parts::Parts;
use ckc_core::program::{Core, Definition, Object};
use ckc_text::fault::NoMemory;
use std::alloc::Global;

// Whether a function is trusted.
fn stands_trusted(definition: &Definition) -> bool
    ensures { result ≡ is_trusted (definition_of definition.now) }
{
    match definition {
        Definition::Trusted(_) => true,
        Definition::Tainted(_) => false,
    }
}

// A number more, where its function stands on the side that is asked for.
fn push_number(
    numbers: &mut Vec<usize>,
    number: usize,
    definition: &Definition,
    trusted: bool,
) -> Result<(), NoMemory>
    ensures { IfOk result (λ _. numbers.new.items ≡ numbers.old.items ++ numbers_from number trusted (definition_of definition.now ∷ [])) }
{
    if stands_trusted(definition) == trusted {
        numbers.push(number)?;
    }
    Ok(())
}

// The numbers of the functions of one side.
fn numbers(alloc: Global, definitions: &[Definition], trusted: bool) -> Result<Vec<usize>, NoMemory>
    ensures { IfOk result (λ v. v.items ≡ numbers_from 0 trusted (map definition_of definitions.now)) }
{
    let mut numbers = Vec::new(alloc);
    for (number, definition) in definitions.iter().enumerate() {
        push_number(&mut numbers, number, definition, trusted)?;
    }
    Ok(numbers)
}

// The numbers of all file-level variables.
fn all_numbers(alloc: Global, objects: &[Object]) -> Result<Vec<usize>, NoMemory>
    ensures { IfOk result (λ v. v.items ≡ counted_from 0 (map object objects.now)) }
{
    let mut numbers = Vec::new(alloc);
    for number in 0..objects.len() {
        numbers.push(number)?;
    }
    Ok(numbers)
}

/// Each function and each file-level variable on exactly one side, in the order of the source.
pub fn split(alloc: Global, core: &Core) -> Result<Parts, NoMemory>
    ensures { IfOk result (λ p. parts_view p ≡ parts_of (core_of core.now)) }
{
    Ok(Parts {
        trusted: numbers(alloc, core.definitions.as_slice(), true)?,
        sandbox: numbers(alloc, core.definitions.as_slice(), false)?,
        trusted_objects: all_numbers(alloc, core.objects.as_slice())?,
        sandbox_objects: Vec::new(alloc),
        callbacks: Vec::new(alloc),
    })
}
