// The cells of values before something is stored in them, and how many elements an array may have.

ghost use Rattle.std.specs.Prelude.{◌≡◌, ◌<◌, ◌≤◌, ◌++◌, true, length, map, IfOk, OnOk};
ghost use Rattle.pointer_modes.specs.Types.{ctype as ctype_of, member as member_of};
ghost use Rattle.pointer_modes.specs.Layout.{cells_of as cells_in};
ghost use Rattle.ckc_core.specs.Core.{initial as initial_of};
ghost use Rattle.region_typing_rules.specs.Types.{is_scalar};
ghost use Rattle.region_typing_rules.specs.Cells.{is_length as is_length_of, cells_with as cells_as};
ghost use Rattle.region_typing_rules.specs.Statements.{before_end as before_end_of};
ghost use Rattle.region_typing_scope.specs.CellParts.{IsStructOf, stride_at};

use crate::context::Context;
use crate::types::copied;
use ckc_core::program::Initial;
use ckc_text::fault::NoMemory;
use pointer_modes::ctype::{CType, Member};
use pointer_modes::structs::Structs;

/// How many elements an array may have.
const MOST_ELEMENTS: u32 = 8192;

/// Whether an array may have so many elements.
pub fn is_length(count: Option<u32>) -> bool
    ensures { result ≡ is_length_of count }
{
    match count {
        None => true,
        Some(count) => 0 < count && count <= MOST_ELEMENTS,
    }
}

/// How many elements of so many stand before the zero that ends them, where one does.
pub fn before_end(ended: bool, count: u32) -> u32
    ensures { result ≡ before_end_of ended count }
{
    if ended {
        count.saturating_sub(1)
    } else {
        count
    }
}

// The bytes from a cell of a type to the next one, or to the end.
fn stride(structs: &Structs, t: &CType, cells: u32, i: u32) -> u32
    requires all { cells ≡ length (cells_in structs.now (ctype_of t.now)) }
    requires within { i < cells }
    ensures { result ≡ stride_at structs.now (ctype_of t.now) i }
{
    let end = if i + 1 < cells {
        structs.offset_of_cell(t, i + 1)
    } else {
        structs.size_of(t)
    };
    end.saturating_sub(structs.offset_of_cell(t, i))
}

// Pushes the only cell of a scalar.
fn push_scalar_cell(
    context: &Context,
    structs: &Structs,
    t: &CType,
    number: i32,
    cells: &mut Vec<Initial>,
) -> Result<(), NoMemory>
    requires { is_scalar (ctype_of t.now) ≡ true }
    ensures { OnOk result (map initial_of cells.new.items ≡ map initial_of cells.old.items ++ cells_as structs.now (ctype_of t.now) number) }
{
    let cell = Initial {
        ctype: copied(context, t)?,
        stride: structs.size_of(t),
        number,
    };
    cells.push(cell)?;
    Ok(())
}

// Pushes a cell for each member of a struct.
fn push_member_cells(
    context: &Context,
    structs: &Structs,
    t: &CType,
    members: &[Member],
    number: i32,
    cells: &mut Vec<Initial>,
) -> Result<(), NoMemory>
    requires are { IsStructOf structs.now (ctype_of t.now) (map member_of members.now) }
    requires few { length members.now ≤ 64 }
    ensures { OnOk result (map initial_of cells.new.items ≡ map initial_of cells.old.items ++ cells_as structs.now (ctype_of t.now) number) }
{
    for i in 0..members.len() {
        let ctype = copied(context, &members[i].ctype)?;
        let stride = stride(structs, t, members.len() as u32, i as u32);
        cells.push(Initial {
            ctype,
            stride,
            number,
        })?;
    }
    Ok(())
}

/// Pushes the cells of a value of a type, each with this number.
pub fn push_cells(
    context: &Context,
    structs: &Structs,
    t: &CType,
    number: i32,
    cells: &mut Vec<Initial>,
) -> Result<(), NoMemory>
    ensures { OnOk result (map initial_of cells.new.items ≡ map initial_of cells.old.items ++ cells_as structs.now (ctype_of t.now) number) }
{
    match t {
        CType::Int | CType::Char | CType::Pointer(..) => push_scalar_cell(
            context, structs, t, number, cells,
        ),
        CType::Struct(struct_number) => {
            let members = structs.members(*struct_number);
            push_member_cells(context, structs, t, members, number, cells)
        }
    }
}

/// The cells of a value of a type, each with this number.
pub fn cells_with(
    context: &Context,
    structs: &Structs,
    t: &CType,
    number: i32,
) -> Result<Vec<Initial>, NoMemory>
    ensures { IfOk result (λ v. map initial_of v.items ≡ cells_as structs.now (ctype_of t.now) number) }
{
    let mut cells = Vec::new(context.alloc());
    push_cells(context, structs, t, number, &mut cells)?;
    Ok(cells)
}
