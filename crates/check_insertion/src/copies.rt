// Copies of the parts of a core that no check is inserted into.

ghost use Rattle.std.specs.Prelude.{◌≡◌, ◌∷◌, ◌++◌, [], map, IfOk};
ghost use Rattle.std.specs.Option.{option_map};
ghost use Rattle.pointer_modes.specs.Types.{ctype as ctype_of};
ghost use Rattle.ckc_core.specs.Core.{initial, object as object_of, definition as definition_of, import_of};
ghost use Rattle.ckc_core.specs.Programs.{tainted_of};
ghost use Rattle.partitioner.specs.Parts.{named};
ghost use Rattle.check_insertion.specs.Sides.{tainted_at};

use ckc_core::program::{Definition, Import, Initial, Object};
use ckc_text::fault::NoMemory;
use pointer_modes::ctype::CType;
use std::alloc::Global;

/// Copies of types.
pub fn types(alloc: Global, types: &[CType]) -> Result<Vec<CType>, NoMemory>
    ensures { IfOk result (λ v. map ctype_of v.items ≡ map ctype_of types.now) }
{
    let mut copies = Vec::new(alloc);
    for t in types {
        copies.push(t.copy(alloc)?)?;
    }
    Ok(copies)
}

/// A copy of the type of a result, if there is one.
pub fn result_type(alloc: Global, t: &Option<CType>) -> Result<Option<CType>, NoMemory>
    ensures { IfOk result (λ copy. option_map ctype_of copy ≡ option_map ctype_of t.now) }
{
    match t {
        None => Ok(None),
        Some(t) => Ok(Some(t.copy(alloc)?)),
    }
}

// A copy of a cell of a file-level variable.
fn cell(alloc: Global, cell: &Initial) -> Result<Initial, NoMemory>
    ensures { IfOk result (λ copy. initial copy ≡ initial cell.now) }
{
    Ok(Initial {
        ctype: cell.ctype.copy(alloc)?,
        stride: cell.stride,
        number: cell.number,
    })
}

// Copies of cells.
pub fn cells(alloc: Global, cells: &[Initial]) -> Result<Vec<Initial>, NoMemory>
    ensures { IfOk result (λ v. map initial v.items ≡ map initial cells.now) }
{
    let mut copies = Vec::new(alloc);
    for c in cells {
        copies.push(cell(alloc, c)?)?;
    }
    Ok(copies)
}

// A copy of a file-level variable.
fn object(alloc: Global, object: &Object) -> Result<Object, NoMemory>
    ensures { IfOk result (λ copy. object_of copy ≡ object_of object.now) }
{
    let cells = cells(alloc, object.cells.as_slice())?;
    Ok(Object {
        cells,
        zero_ended: object.zero_ended,
        is_sealed: object.is_sealed,
    })
}

// A copy more, of the variable of this number.
fn push_object(
    alloc: Global,
    objects: &[Object],
    number: usize,
    copies: &mut Vec<Object>,
) -> Result<(), NoMemory>
    ensures { IfOk result (λ _. map object_of copies.new.items ≡ map object_of copies.old.items ++ map object_of (named objects.now (number ∷ []))) }
{
    if let Some(o) = objects.get(number) {
        copies.push(object(alloc, o)?)?;
    }
    Ok(())
}

/// Copies of the file-level variables of these numbers.
pub fn objects(
    alloc: Global,
    objects: &[Object],
    numbers: &[usize],
) -> Result<Vec<Object>, NoMemory>
    ensures { IfOk result (λ v. map object_of v.items ≡ map object_of (named objects.now numbers.now)) }
{
    let mut copies = Vec::new(alloc);
    for number in numbers {
        push_object(alloc, objects, *number, &mut copies)?;
    }
    Ok(copies)
}

// A copy of a tainted function.
fn import(alloc: Global, import: &Import) -> Result<Import, NoMemory>
    ensures { IfOk result (λ copy. import_of copy ≡ import_of import.now) }
{
    Ok(Import {
        name: import.name.copy(alloc)?,
        parameters: import.parameters,
        result: result_type(alloc, &import.result)?,
    })
}

// A copy more, of a tainted function.
fn push_tainted(
    alloc: Global,
    definition: &Definition,
    copies: &mut Vec<Import>,
) -> Result<(), NoMemory>
    ensures { IfOk result (λ _. map import_of copies.new.items ≡ map import_of copies.old.items ++ tainted_of (definition_of definition.now ∷ [])) }
{
    match definition {
        Definition::Tainted(i) => copies.push(import(alloc, i)?)?,
        Definition::Trusted(_) => {}
    }
    Ok(())
}

// A copy more, where the function of this number is tainted.
fn push_import(
    alloc: Global,
    definitions: &[Definition],
    number: usize,
    copies: &mut Vec<Import>,
) -> Result<(), NoMemory>
    ensures { IfOk result (λ _. map import_of copies.new.items ≡ map import_of copies.old.items ++ tainted_at definitions.now (number ∷ [])) }
{
    if let Some(definition) = definitions.get(number) {
        push_tainted(alloc, definition, copies)?;
    }
    Ok(())
}

/// Copies of the functions of these numbers that are tainted.
pub fn imports(
    alloc: Global,
    definitions: &[Definition],
    numbers: &[usize],
) -> Result<Vec<Import>, NoMemory>
    ensures { IfOk result (λ v. map import_of v.items ≡ tainted_at definitions.now numbers.now) }
{
    let mut copies = Vec::new(alloc);
    for number in numbers {
        push_import(alloc, definitions, *number, &mut copies)?;
    }
    Ok(copies)
}
