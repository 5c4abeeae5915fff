// Each form of a line, as it is written.

ghost use Rattle.std.specs.Prelude.{◌≡◌, ◌++◌, ◌∷◌, [], map, length, OnOk};
ghost use Rattle.code_words_listing.specs.Lines.{StaticBlock, TaintedFunction, Entry, Parameter, Begin, Instruction};
ghost use Rattle.code_words_listing.specs.Listings.{lines_text};
ghost use Rattle.code_words_listing.specs.Lines as words;
ghost use Rattle.code_words_listing.specs.Fields.{Signed64, Size, At, word_of};
ghost use Rattle.std.specs.List.{join_with_byte};
ghost use Rattle.marshalling.specs.declared.kind.WordKind.TheVariants.{Pointer};
ghost use Rattle.std.specs.Prelude.{Some, None};

use crate::field::{Field, put_line};
use crate::instruction_words::instruction_word;
use ckc_text::fault::NoMemory;
use ckc_text::place::Place;
use code_words::image::{Callback, Func, Import};
use code_words::op::Op;
use marshalling::kind::WordKind;
use marshalling::signature::{Param, Region};
use std::alloc::Global;

/// The word of what is passed or returned.
pub fn kind_word(kind: WordKind) -> &'static str
    ensures { result.now ≡ words.kind_word kind }
{
    match kind {
        WordKind::Int => "int",
        WordKind::Char => "char",
        WordKind::Pointer => "pointer",
        WordKind::Void => "void",
    }
}

/// The line of a static block.
pub fn put_block(
    alloc: Global,
    out: &mut Vec<u8>,
    number: usize,
    bytes: &[u8],
) -> Result<(), NoMemory>
    ensures { OnOk result (out.new.items ≡ out.old.items ++ lines_text (StaticBlock number bytes.now ∷ [])) }
{
    let operands = [
        Field::Number(number as u64),
        Field::Number(bytes.len() as u64),
        Field::Bytes(bytes),
    ];
    put_line(alloc, out, "block", &operands)
}

/// The line of a tainted function.
pub fn put_import(alloc: Global, out: &mut Vec<u8>, import: &Import) -> Result<(), NoMemory>
    ensures { OnOk result (out.new.items ≡ out.old.items ++ lines_text (TaintedFunction import.now ∷ [])) }
{
    let operands = [
        Field::Number(u64::from(import.number())),
        Field::Named(import.name().as_bytes()),
        Field::Word("args"),
        Field::Number(u64::from(import.args())),
        Field::Word("result"),
        Field::Word(kind_word(import.result())),
    ];
    put_line(alloc, out, "import", &operands)
}

/// The first line of a callback.
pub fn put_callback(alloc: Global, out: &mut Vec<u8>, callback: &Callback) -> Result<(), NoMemory>
    ensures { OnOk result (out.new.items ≡ out.old.items
        ++ lines_text (Entry callback.now.number callback.now.fun (length callback.now.signature) callback.now.result ∷ [])) }
{
    let operands = [
        Field::Number(u64::from(callback.number)),
        Field::Word("fun"),
        Field::Number(u64::from(callback.fun)),
        Field::Word("args"),
        Field::Number(callback.signature.as_slice().len() as u64),
        Field::Word("result"),
        Field::Word(kind_word(callback.result)),
    ];
    put_line(alloc, out, "callback", &operands)
}

/// The line of a parameter.
pub fn put_parameter(alloc: Global, out: &mut Vec<u8>, param: Param) -> Result<(), NoMemory>
    ensures { OnOk result (out.new.items ≡ out.old.items ++ lines_text (Parameter param ∷ [])) }
{
    match param.region {
        Some(region) => put_region(alloc, out, region, param.place),
        None => put_line(
            alloc,
            out,
            "arg",
            &[Field::Word(kind_word(param.kind)), Field::At(param.place)],
        ),
    }
}

// The line of a pointer with bounds.
fn put_region(
    alloc: Global,
    out: &mut Vec<u8>,
    region: Region,
    place: Place,
) -> Result<(), NoMemory>
    ensures { OnOk result (out.new.items ≡ out.old.items ++ lines_text (Parameter (record { kind = Pointer; place = place; region = Some region }) ∷ [])) }
{
    let operands = [
        Field::Word("region"),
        Field::Number(u64::from(region.base)),
        Field::NumberOrNone(region.lo_var),
        Field::Signed(region.lo_plus),
        Field::NumberOrNone(region.hi_var),
        Field::Signed(region.hi_plus),
        Field::Number(u64::from(region.size)),
        Field::Number(u64::from(region.more)),
        Field::At(place),
    ];
    put_line(alloc, out, "arg", &operands)
}

/// The first line of a function.
pub fn put_begin(alloc: Global, out: &mut Vec<u8>, f: &Func) -> Result<(), NoMemory>
    ensures { OnOk result (out.new.items ≡ out.old.items
        ++ lines_text (Begin f.now.number f.now.name f.now.args f.now.slots f.now.stack f.now.result ∷ [])) }
{
    let operands = [
        Field::Number(u64::from(f.number())),
        Field::Named(f.name().as_bytes()),
        Field::Word("args"),
        Field::Number(u64::from(f.args())),
        Field::Word("slots"),
        Field::Number(u64::from(f.slots())),
        Field::Word("stack"),
        Field::Number(u64::from(f.stack())),
        Field::Word("result"),
        Field::Word(kind_word(f.result())),
    ];
    put_line(alloc, out, "fun", &operands)
}

/// The line of an instruction.
pub fn put_instruction(alloc: Global, out: &mut Vec<u8>, op: Op) -> Result<(), NoMemory>
    ensures { OnOk result (out.new.items ≡ out.old.items ++ lines_text (Instruction op ∷ [])) }
{
    let word = instruction_word(op);
    match op {
        Op::Const(n) => put_line(alloc, out, word, &[Field::Signed(i64::from(n))]),
        Op::Local(n)
        | Op::Set(n)
        | Op::BlockAddress(n)
        | Op::BlockOffset(n)
        | Op::Jump(n)
        | Op::JumpIfZero(n)
        | Op::Call(n)
        | Op::CallBack(n)
        | Op::Index { size: n }
        | Op::Alloc { size: n }
        | Op::AllocTerminated { size: n }
        | Op::SandboxAlloc { size: n } => put_line(
            alloc,
            out,
            word,
            &[Field::Number(u64::from(n))],
        ),
        Op::Arithmetic { place, .. } | Op::Neg { place } | Op::NonNull { place } => {
            put_line(alloc, out, word, &[Field::At(place)])
        }
        Op::TaintedCall { import, place } => {
            put_line(
                alloc,
                out,
                word,
                &[Field::Number(u64::from(import)), Field::At(place)],
            )
        }
        Op::Range { offset, len, place } => {
            let operands = [
                Field::Number(u64::from(offset)),
                Field::Number(u64::from(len)),
                Field::At(place),
            ];
            put_line(alloc, out, word, &operands)
        }
        Op::In {
            low,
            high,
            size,
            place,
        } => put_ends(alloc, out, word, low, high, size, place),
        Op::UpTo {
            low,
            high,
            size,
            place,
        } => put_ends(alloc, out, word, low, high, size, place),
        Op::Term { high, size, place } => {
            let operands = [
                Field::Signed(high),
                Field::Number(u64::from(size)),
                Field::At(place),
            ];
            put_line(alloc, out, word, &operands)
        }
        Op::Contain {
            old_low,
            old_high,
            new_low,
            new_high,
            size,
            place,
        } => {
            let operands = [
                Field::Signed(old_low),
                Field::Signed(old_high),
                Field::Signed(new_low),
                Field::Signed(new_high),
                Field::Number(u64::from(size)),
                Field::At(place),
            ];
            put_line(alloc, out, word, &operands)
        }
        Op::Lies {
            low,
            high,
            size,
            more,
            place,
        } => {
            let operands = [
                Field::Signed(low),
                Field::Signed(high),
                Field::Number(u64::from(size)),
                Field::Number(u64::from(more)),
                Field::At(place),
            ];
            put_line(alloc, out, word, &operands)
        }
        Op::Discard
        | Op::Duplicate
        | Op::WrapAdd
        | Op::WrapSub
        | Op::WrapMul
        | Op::WrapNeg
        | Op::WrapShl
        | Op::WrapShr
        | Op::WrapDiv
        | Op::WrapRem
        | Op::Bitwise(_)
        | Op::Not
        | Op::Compare(_)
        | Op::UnsignedLess
        | Op::UnsignedLessEqual
        | Op::UnsignedGreater
        | Op::UnsignedGreaterEqual
        | Op::Zero
        | Op::Byte
        | Op::Load1
        | Op::Load4
        | Op::Store1
        | Op::Store4
        | Op::TouchLoad1
        | Op::TouchLoad4
        | Op::TouchStore1
        | Op::TouchStore4
        | Op::Return
        | Op::ReturnNothing
        | Op::Tick
        | Op::NextInput
        | Op::Print
        | Op::PutByte
        | Op::TextLength => put_line(alloc, out, word, &[]),
    }
}

// The line of a check of an access or a sum.
fn put_ends(
    alloc: Global,
    out: &mut Vec<u8>,
    word: &str,
    low: i64,
    high: i64,
    size: u32,
    place: Place,
) -> Result<(), NoMemory>
    ensures { OnOk result (out.new.items ≡ out.old.items
        ++ (join_with_byte 32 (word.now ∷ map word_of (Signed64 low ∷ Signed64 high ∷ Size size ∷ At place ∷ [])) ++ 10 ∷ [])) }
{
    let operands = [
        Field::Signed(low),
        Field::Signed(high),
        Field::Number(u64::from(size)),
        Field::At(place),
    ];
    put_line(alloc, out, word, &operands)
}
