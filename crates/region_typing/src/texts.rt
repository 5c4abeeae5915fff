// The blocks of strings before the run.

ghost use Rattle.std.specs.Prelude.{◌≡◌, ◌∷◌, ◌++◌, [], pos, map, IfOk, OnOk};
ghost use Rattle.ckc_tree.specs.Texts.{text as text_view};
ghost use Rattle.ckc_core.specs.Core.{initial as initial_of, object as object_of};
ghost use Rattle.ckc_core.specs.Steps.{low_byte};
ghost use Rattle.region_typing_rules.specs.Strings.{char_cell, text_cells as text_cells_of, text_object as text_object_of};

use ckc_core::program::{Initial, Object};
use ckc_text::fault::NoMemory;
use ckc_tree::text::Text;
use pointer_modes::ctype::CType;
use region_typing_scope::context::Context;

// A byte as a cell of a character keeps it.
fn character(byte: u8) -> i32
    ensures { result ≡ low_byte (pos byte) }
{
    i32::from(byte)
}

// Pushes the cell of a character.
fn push_character(byte: u8, cells: &mut Vec<Initial>) -> Result<(), NoMemory>
    ensures { OnOk result (map initial_of cells.new.items ≡ map initial_of cells.old.items ++ char_cell byte ∷ []) }
{
    cells.push(Initial {
        ctype: CType::Char,
        stride: 1,
        number: character(byte),
    })?;
    Ok(())
}

// The cells of characters, and of the zero behind them.
fn text_cells(context: &Context, bytes: &[u8]) -> Result<Vec<Initial>, NoMemory>
    ensures { IfOk result (λ v. map initial_of v.items ≡ text_cells_of bytes.now) }
{
    let mut cells = Vec::new(context.alloc());
    for byte in bytes {
        push_character(*byte, &mut cells)?;
    }
    push_character(0, &mut cells)?;
    Ok(cells)
}

// Pushes the block of a string, which a zero ends.
fn push_text(context: &Context, t: &Text, objects: &mut Vec<Object>) -> Result<(), NoMemory>
    ensures { OnOk result (map object_of objects.new.items ≡ map object_of objects.old.items ++ text_object_of (text_view t.now) ∷ []) }
{
    let cells = text_cells(context, t.bytes.as_slice())?;
    objects.push(Object {
        cells,
        zero_ended: true,
        is_sealed: false,
    })?;
    Ok(())
}

/// Pushes the block of each string.
pub fn push_texts(
    context: &Context,
    texts: &[Text],
    objects: &mut Vec<Object>,
) -> Result<(), NoMemory>
    ensures { OnOk result (map object_of objects.new.items ≡ map object_of objects.old.items ++ map text_object_of (map text_view texts.now)) }
{
    for t in texts {
        push_text(context, t, objects)?;
    }
    Ok(())
}
