// The bytes of the cells of file-level variables.

ghost use Rattle.std.specs.Prelude.{◌≡◌, ◌-◌, ◌^◌, ◌<◌, ◌++◌, map, replicate, OnOk};
ghost use Rattle.act_words.specs.Numbers.{word};
ghost use Rattle.ckc_core.specs.Core.{initial};
ghost use Rattle.ckc_core.specs.Pointers.{element_size};
ghost use Rattle.lowering.specs.Images.{width_if, word_bytes_if, cell_bytes};

use ckc_core::char_cells::has_one_byte;
use ckc_core::program::Initial;
use ckc_text::fault::NoMemory;

// So many zeros.
fn put_zeros(bytes: &mut Vec<u8>, count: u32) -> Result<(), NoMemory>
    ensures { OnOk result (bytes.new.items ≡ bytes.old.items ++ replicate count 0) }
{
    for _ in 0..count {
        bytes.push(0)?;
    }
    Ok(())
}

// The word of a number, of one byte or of four.
fn put_word(bytes: &mut Vec<u8>, char: bool, number: i32) -> Result<(), NoMemory>
    ensures { OnOk result (bytes.new.items ≡ bytes.old.items ++ word_bytes_if char (word number)) }
{
    let word = number.cast_unsigned();
    if char {
        bytes.push((word % 256) as u8)?;
    } else {
        bytes.extend_from_slice(&word.to_le_bytes())?;
    }
    Ok(())
}

// How many bytes of a cell stand behind its word.
fn padding(stride: u32, char: bool) -> u32
    ensures { result ≡ stride - width_if char }
{
    if char {
        stride.saturating_sub(1)
    } else {
        stride.saturating_sub(4)
    }
}

/// The bytes of a cell up to the next one: its word, and zeros.
pub fn put_cell(bytes: &mut Vec<u8>, cell: &Initial) -> Result<(), NoMemory>
    ensures { OnOk result (bytes.new.items ≡ bytes.old.items ++ cell_bytes (initial cell.now)) }
{
    let char = has_one_byte(&cell.ctype);
    put_word(bytes, char, cell.number)?;
    put_zeros(bytes, padding(cell.stride, char))
}

/// The bytes of an element.
pub fn element_bytes(element: &[Initial]) -> u32
    requires { element_size (map initial element.now) < 2 ^ 32 }
    ensures { result ≡ element_size (map initial element.now) }
{
    let mut bytes = 0;
    for cell in element {
        bytes += cell.stride;
    }
    bytes
}
