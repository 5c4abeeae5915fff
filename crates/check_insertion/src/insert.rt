// A whole program with its checks.

ghost use Rattle.std.specs.Prelude.{◌≡◌, ◌∷◌, ◌++◌, [], map, IfOk};
ghost use Rattle.ckc_core.specs.Programs.{trusted_of};
ghost use Rattle.ckc_core.specs.Core as core;
ghost use Rattle.check_insertion.specs.Erased as erased;
ghost use Rattle.check_insertion.specs.Insert as insert;
ghost use Rattle.check_insertion.specs.Sides.{trusted_at};
ghost use Rattle.partitioner.specs.Parts.{parts as parts_view, parts_of};

use crate::copies::{imports, objects, result_type, types};
use crate::erased::{Erased, Function};
use crate::statements::statements;
use ckc_core::program;
use ckc_core::program::{Core, Definition};
use ckc_text::fault::NoMemory;
use partitioner::parts::Parts;
use std::alloc::Global;

// A trusted function with the checks of its body.
fn function(alloc: Global, f: &program::Function) -> Result<Function, NoMemory>
    ensures { IfOk result (λ g. erased.function g ≡ insert.function (core.function f.now)) }
{
    Ok(Function {
        name: f.name.copy(alloc)?,
        parameters: f.parameters,
        locals: types(alloc, f.locals.as_slice())?,
        result: result_type(alloc, &f.result)?,
        body: statements(alloc, f.body.as_slice())?,
    })
}

// A function more with its checks, where it is trusted.
fn push_trusted(
    alloc: Global,
    definition: &Definition,
    built: &mut Vec<Function>,
) -> Result<(), NoMemory>
    ensures { IfOk result (λ _. map erased.function built.new.items ≡ map erased.function built.old.items ++ map insert.function
        (trusted_of (core.definition definition.now ∷ []))) }
{
    match definition {
        Definition::Trusted(f) => built.push(function(alloc, f)?)?,
        Definition::Tainted(_) => {}
    }
    Ok(())
}

// A function more with its checks, where the one of this number is trusted.
fn push_function(
    alloc: Global,
    definitions: &[Definition],
    number: usize,
    built: &mut Vec<Function>,
) -> Result<(), NoMemory>
    ensures { IfOk result (λ _. map erased.function built.new.items ≡ map erased.function built.old.items ++ map insert.function
        (trusted_at definitions.now (number ∷ []))) }
{
    if let Some(definition) = definitions.get(number) {
        push_trusted(alloc, definition, built)?;
    }
    Ok(())
}

// The functions of these numbers that are trusted, with their checks.
fn functions(
    alloc: Global,
    definitions: &[Definition],
    numbers: &[usize],
) -> Result<Vec<Function>, NoMemory>
    ensures { IfOk result (λ v. map erased.function v.items ≡ map insert.function (trusted_at definitions.now numbers.now)) }
{
    let mut built = Vec::new(alloc);
    for number in numbers {
        push_function(alloc, definitions, *number, &mut built)?;
    }
    Ok(built)
}

/// The program of two sides, as `split` gives them, with the checks that each access needs, and without bounds.
pub fn insert(alloc: Global, program: &Core, parts: &Parts) -> Result<Erased, NoMemory>
    requires { parts_view parts.now ≡ parts_of (core.core program.now) }
    ensures { IfOk result (λ e. erased.erased e ≡ insert.inserted (core.core program.now)) }
{
    let definitions = program.definitions.as_slice();
    Ok(Erased {
        objects: objects(
            alloc,
            program.objects.as_slice(),
            parts.trusted_objects.as_slice(),
        )?,
        imports: imports(alloc, definitions, parts.sandbox.as_slice())?,
        functions: functions(alloc, definitions, parts.trusted.as_slice())?,
        main: program.main,
    })
}
