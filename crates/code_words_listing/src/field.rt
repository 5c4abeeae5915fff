// The words of a line, and how they are written.

ghost use Rattle.std.specs.Prelude.{◌≡◌, ◌++◌, ◌∷◌, [], decimal, map, OnOk};
ghost use Rattle.std.specs.Fmt.{signed_decimal};
ghost use Rattle.std.specs.List.{join_with_byte};
ghost use Rattle.hex.specs.Hex.{encode_lower};
ghost use Rattle.code_words_listing.specs.Fields.{place_text};
ghost use Rattle.code_words_listing.specs.Shown.{shown, behind_spaces};

use ckc_text::fault::NoMemory;
use ckc_text::place::Place;
use itoa::Buffer;
use std::alloc::Global;

/// A word of a line: a text, a number, a number or `-`, bytes in hexadecimal, or a place.
#[derive(Clone, Copy)]
pub enum Field<'a> {
    Word(&'a str),
    Named(&'a [u8]),
    Number(u64),
    Signed(i64),
    NumberOrNone(Option<u32>),
    Bytes(&'a [u8]),
    At(Place),
}

/// A line of a word and what stands behind it, with a space between each two.
pub fn put_line(
    alloc: Global,
    out: &mut Vec<u8>,
    word: &str,
    operands: &[Field<'_>],
) -> Result<(), NoMemory>
    ensures { OnOk result (out.new.items ≡ out.old.items ++ (join_with_byte 32 (word.now ∷ map shown operands.now) ++ 10 ∷ [])) }
{
    out.extend_from_slice(word.as_bytes())?;
    put_operands(alloc, out, operands)?;
    Ok(out.push(b'\n')?)
}

// Each word with a space before it.
fn put_operands(alloc: Global, out: &mut Vec<u8>, operands: &[Field<'_>]) -> Result<(), NoMemory>
    ensures { OnOk result (out.new.items ≡ out.old.items ++ behind_spaces (map shown operands.now)) }
{
    for field in operands {
        out.push(b' ')?;
        put_field(alloc, out, *field)?;
    }
    Ok(())
}

// One word.
fn put_field(alloc: Global, out: &mut Vec<u8>, field: Field<'_>) -> Result<(), NoMemory>
    ensures { OnOk result (out.new.items ≡ out.old.items ++ shown field.entry) }
{
    match field {
        Field::Word(word) => Ok(out.extend_from_slice(word.as_bytes())?),
        Field::Named(name) => Ok(out.extend_from_slice(name)?),
        Field::Number(number) => put_number(out, number),
        Field::Signed(number) => put_signed(out, number),
        Field::NumberOrNone(Some(number)) => put_number(out, u64::from(number)),
        Field::NumberOrNone(None) => Ok(out.push(b'-')?),
        Field::Bytes(bytes) => put_bytes(alloc, out, bytes),
        Field::At(place) => put_place(out, place),
    }
}

fn put_number(out: &mut Vec<u8>, number: u64) -> Result<(), NoMemory>
    ensures { OnOk result (out.new.items ≡ out.old.items ++ decimal number) }
{
    let mut buffer = Buffer::new();
    Ok(out.extend_from_slice(buffer.format(number).as_bytes())?)
}

fn put_signed(out: &mut Vec<u8>, number: i64) -> Result<(), NoMemory>
    ensures { OnOk result (out.new.items ≡ out.old.items ++ signed_decimal number) }
{
    let mut buffer = Buffer::new();
    Ok(out.extend_from_slice(buffer.format(number).as_bytes())?)
}

fn put_bytes(alloc: Global, out: &mut Vec<u8>, bytes: &[u8]) -> Result<(), NoMemory>
    ensures { OnOk result (out.new.items ≡ out.old.items ++ encode_lower bytes.now) }
{
    let digits = hex::encode(alloc, bytes)?;
    Ok(out.extend_from_slice(digits.as_bytes())?)
}

// A place, as `@line:col`.
fn put_place(out: &mut Vec<u8>, place: Place) -> Result<(), NoMemory>
    ensures { OnOk result (out.new.items ≡ out.old.items ++ place_text place) }
{
    out.push(b'@')?;
    put_number(out, u64::from(place.line))?;
    out.push(b':')?;
    put_number(out, u64::from(place.col))
}
