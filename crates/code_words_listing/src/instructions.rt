// The instruction that words spell.

ghost use Rattle.std.specs.Prelude.{◌≡◌, ℕ, find, option_map};
ghost use Rattle.std.proofs.Common.{ℤ};
ghost use Rattle.std.specs.Str.{bytes_eq};
ghost use Rattle.ckc_text.specs.declared.place.Place as places;
ghost use Rattle.code_words.specs.declared.op.Op.TheVariants as ops;
ghost use Rattle.code_words_listing.specs.Instructions as table;
ghost use Rattle.code_words_listing.specs.Left.{words_left};
ghost use Rattle.code_words_listing.specs.Lines.{Instruction};
ghost use Rattle.code_words_listing.specs.Reading.{done};
ghost use Rattle.code_words_listing.specs.ReadInstructions.{samples, with_operands, instruction_of};

use crate::instruction_words::instruction_word;
use crate::line_words::Words;
use act_words::operator::{ArithmeticOperator, BitwiseOperator, Comparison};
use ckc_text::place::Place;
use code_words::op::Op;

const NOWHERE: Place = Place { line: 0, col: 0 };

// One instruction of each word.
static SAMPLES: [Op; 70] = [
    Op::Discard,
    Op::Duplicate,
    Op::WrapAdd,
    Op::WrapSub,
    Op::WrapMul,
    Op::WrapNeg,
    Op::WrapShl,
    Op::WrapShr,
    Op::WrapDiv,
    Op::WrapRem,
    Op::Not,
    Op::UnsignedLess,
    Op::UnsignedLessEqual,
    Op::UnsignedGreater,
    Op::UnsignedGreaterEqual,
    Op::Zero,
    Op::Byte,
    Op::Load1,
    Op::Load4,
    Op::Store1,
    Op::Store4,
    Op::TouchLoad1,
    Op::TouchLoad4,
    Op::TouchStore1,
    Op::TouchStore4,
    Op::Return,
    Op::ReturnNothing,
    Op::Tick,
    Op::NextInput,
    Op::Print,
    Op::PutByte,
    Op::TextLength,
    Op::Bitwise(BitwiseOperator::And),
    Op::Bitwise(BitwiseOperator::Or),
    Op::Bitwise(BitwiseOperator::Xor),
    Op::Compare(Comparison::Equal),
    Op::Compare(Comparison::NotEqual),
    Op::Compare(Comparison::Less),
    Op::Compare(Comparison::LessEqual),
    Op::Compare(Comparison::Greater),
    Op::Compare(Comparison::GreaterEqual),
    Op::Arithmetic {
        operator: ArithmeticOperator::Add,
        place: NOWHERE,
    },
    Op::Arithmetic {
        operator: ArithmeticOperator::Subtract,
        place: NOWHERE,
    },
    Op::Arithmetic {
        operator: ArithmeticOperator::Multiply,
        place: NOWHERE,
    },
    Op::Arithmetic {
        operator: ArithmeticOperator::Divide,
        place: NOWHERE,
    },
    Op::Arithmetic {
        operator: ArithmeticOperator::Remainder,
        place: NOWHERE,
    },
    Op::Arithmetic {
        operator: ArithmeticOperator::ShiftLeft,
        place: NOWHERE,
    },
    Op::Arithmetic {
        operator: ArithmeticOperator::ShiftRight,
        place: NOWHERE,
    },
    Op::Const(0),
    Op::Local(0),
    Op::Set(0),
    Op::BlockAddress(0),
    Op::BlockOffset(0),
    Op::Neg { place: NOWHERE },
    Op::Index { size: 1 },
    Op::NonNull { place: NOWHERE },
    Op::In {
        low: 0,
        high: 0,
        size: 1,
        place: NOWHERE,
    },
    Op::UpTo {
        low: 0,
        high: 0,
        size: 1,
        place: NOWHERE,
    },
    Op::Term {
        high: 0,
        size: 1,
        place: NOWHERE,
    },
    Op::Contain {
        old_low: 0,
        old_high: 0,
        new_low: 0,
        new_high: 0,
        size: 1,
        place: NOWHERE,
    },
    Op::Lies {
        low: 0,
        high: 0,
        size: 1,
        more: 0,
        place: NOWHERE,
    },
    Op::Range {
        offset: 0,
        len: 0,
        place: NOWHERE,
    },
    Op::Jump(0),
    Op::JumpIfZero(0),
    Op::Call(0),
    Op::TaintedCall {
        import: 0,
        place: NOWHERE,
    },
    Op::CallBack(0),
    Op::Alloc { size: 1 },
    Op::AllocTerminated { size: 1 },
    Op::SandboxAlloc { size: 1 },
];

// The sample of a word.
fn sample(word: &[u8]) -> Option<Op>
    ensures { result ≡ find (λ op. bytes_eq (table.instruction_word op) word.now) samples }
{
    SAMPLES
        .iter()
        .copied()
        .find(|op| instruction_word(*op).as_bytes() == word)
}

// The check of an access.
fn read_in(words: Words<'_>) -> Option<Op>
    ensures { (a b : ℤ) (c : ℕ) (d : places.Place) → option_map Instruction result ≡ with_operands (ops.In a b c d) (words_left words.entry) }
{
    let mut words = words;
    let low = words.signed_64()?;
    let high = words.signed_64()?;
    let size = words.size()?;
    let place = words.last_place()?;
    Some(Op::In {
        low,
        high,
        size,
        place,
    })
}

// The check of a sum.
fn read_up_to(words: Words<'_>) -> Option<Op>
    ensures { (a b : ℤ) (c : ℕ) (d : places.Place) → option_map Instruction result ≡ with_operands (ops.UpTo a b c d) (words_left words.entry) }
{
    let mut words = words;
    let low = words.signed_64()?;
    let high = words.signed_64()?;
    let size = words.size()?;
    let place = words.last_place()?;
    Some(Op::UpTo {
        low,
        high,
        size,
        place,
    })
}

// The check of a terminator.
fn read_term(words: Words<'_>) -> Option<Op>
    ensures { (a : ℤ) (b : ℕ) (c : places.Place) → option_map Instruction result ≡ with_operands (ops.Term a b c) (words_left words.entry) }
{
    let mut words = words;
    let high = words.signed_64()?;
    let size = words.size()?;
    let place = words.last_place()?;
    Some(Op::Term { high, size, place })
}

// The check of a dynamic cast.
fn read_contain(words: Words<'_>) -> Option<Op>
    ensures { (a b c d : ℤ) (e : ℕ) (f : places.Place) → option_map Instruction result ≡ with_operands (ops.Contain a b c d e f) (words_left words.entry) }
{
    let mut words = words;
    let old_low = words.signed_64()?;
    let old_high = words.signed_64()?;
    let new_low = words.signed_64()?;
    let new_high = words.signed_64()?;
    let size = words.size()?;
    let place = words.last_place()?;
    Some(Op::Contain {
        old_low,
        old_high,
        new_low,
        new_high,
        size,
        place,
    })
}

// The check of tainted bounds.
fn read_lies(words: Words<'_>) -> Option<Op>
    ensures { (a b : ℤ) (c d : ℕ) (e : places.Place) → option_map Instruction result ≡ with_operands (ops.Lies a b c d e) (words_left words.entry) }
{
    let mut words = words;
    let low = words.signed_64()?;
    let high = words.signed_64()?;
    let size = words.size()?;
    let more = words.number()?;
    let place = words.last_place()?;
    Some(Op::Lies {
        low,
        high,
        size,
        more,
        place,
    })
}

// The check of a place in the sandbox.
fn read_range(words: Words<'_>) -> Option<Op>
    ensures { (a b : ℕ) (c : places.Place) → option_map Instruction result ≡ with_operands (ops.Range a b c) (words_left words.entry) }
{
    let mut words = words;
    let offset = words.number()?;
    let len = words.number()?;
    let place = words.last_place()?;
    Some(Op::Range { offset, len, place })
}

// The call of a tainted function.
fn read_tainted_call(words: Words<'_>) -> Option<Op>
    ensures { (a : ℕ) (b : places.Place) → option_map Instruction result ≡ with_operands (ops.TaintedCall a b) (words_left words.entry) }
{
    let mut words = words;
    let import = words.number()?;
    let place = words.place()?;
    words.end()?;
    Some(Op::TaintedCall { import, place })
}

// The instruction of a sample's word with the operands that words spell.
fn with_operands(sample: Op, words: Words<'_>) -> Option<Op>
    ensures { option_map Instruction result ≡ with_operands sample (words_left words.entry) }
{
    match sample {
        Op::Const(_) => Some(Op::Const(words.last_signed_32()?)),
        Op::Local(_) => Some(Op::Local(words.last_number()?)),
        Op::Set(_) => Some(Op::Set(words.last_number()?)),
        Op::BlockAddress(_) => Some(Op::BlockAddress(words.last_number()?)),
        Op::BlockOffset(_) => Some(Op::BlockOffset(words.last_number()?)),
        Op::Jump(_) => Some(Op::Jump(words.last_number()?)),
        Op::JumpIfZero(_) => Some(Op::JumpIfZero(words.last_number()?)),
        Op::Call(_) => Some(Op::Call(words.last_number()?)),
        Op::CallBack(_) => Some(Op::CallBack(words.last_number()?)),
        Op::Index { .. } => Some(Op::Index {
            size: words.last_size()?,
        }),
        Op::Alloc { .. } => Some(Op::Alloc {
            size: words.last_size()?,
        }),
        Op::AllocTerminated { .. } => Some(Op::AllocTerminated {
            size: words.last_size()?,
        }),
        Op::SandboxAlloc { .. } => Some(Op::SandboxAlloc {
            size: words.last_size()?,
        }),
        Op::Arithmetic { operator, .. } => Some(Op::Arithmetic {
            operator,
            place: words.last_place()?,
        }),
        Op::Neg { .. } => Some(Op::Neg {
            place: words.last_place()?,
        }),
        Op::NonNull { .. } => Some(Op::NonNull {
            place: words.last_place()?,
        }),
        Op::In { .. } => read_in(words),
        Op::UpTo { .. } => read_up_to(words),
        Op::Term { .. } => read_term(words),
        Op::Contain { .. } => read_contain(words),
        Op::Lies { .. } => read_lies(words),
        Op::Range { .. } => read_range(words),
        Op::TaintedCall { .. } => read_tainted_call(words),
        Op::Discard
        | Op::Duplicate
        | Op::WrapAdd
        | Op::WrapSub
        | Op::WrapMul
        | Op::WrapNeg
        | Op::WrapShl
        | Op::WrapShr
        | Op::WrapDiv
        | Op::WrapRem
        | Op::Not
        | Op::UnsignedLess
        | Op::UnsignedLessEqual
        | Op::UnsignedGreater
        | Op::UnsignedGreaterEqual
        | Op::Zero
        | Op::Byte
        | Op::Load1
        | Op::Load4
        | Op::Store1
        | Op::Store4
        | Op::TouchLoad1
        | Op::TouchLoad4
        | Op::TouchStore1
        | Op::TouchStore4
        | Op::Return
        | Op::ReturnNothing
        | Op::Tick
        | Op::NextInput
        | Op::Print
        | Op::PutByte
        | Op::TextLength
        | Op::Bitwise(_)
        | Op::Compare(_) => plain(sample, words),
    }
}

// An instruction without operands.
fn plain(sample: Op, words: Words<'_>) -> Option<Op>
    ensures { option_map Instruction result ≡ done (Instruction sample) (words_left words.entry) }
{
    words.end()?;
    Some(sample)
}

/// The instruction that a word and the words behind it spell.
pub fn read_instruction(word: &[u8], words: Words<'_>) -> Option<Op>
    ensures { option_map Instruction result ≡ instruction_of word.now (words_left words.entry) }
{
    let sample = sample(word)?;
    with_operands(sample, words)
}
