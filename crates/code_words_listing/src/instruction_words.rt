// The word of each instruction.

ghost use Rattle.std.specs.Prelude.{◌≡◌};
ghost use Rattle.code_words_listing.specs.Instructions as words;

use act_words::operator::{ArithmeticOperator, BitwiseOperator, Comparison};
use code_words::op::Op;

fn arithmetic_word(operator: ArithmeticOperator) -> &'static str
    ensures { result.now ≡ words.arithmetic_word operator }
{
    match operator {
        ArithmeticOperator::Add => "add",
        ArithmeticOperator::Subtract => "sub",
        ArithmeticOperator::Multiply => "mul",
        ArithmeticOperator::Divide => "div",
        ArithmeticOperator::Remainder => "rem",
        ArithmeticOperator::ShiftLeft => "shl",
        ArithmeticOperator::ShiftRight => "shr",
    }
}

fn bitwise_word(operator: BitwiseOperator) -> &'static str
    ensures { result.now ≡ words.bitwise_word operator }
{
    match operator {
        BitwiseOperator::And => "and",
        BitwiseOperator::Or => "or",
        BitwiseOperator::Xor => "xor",
    }
}

fn comparison_word(comparison: Comparison) -> &'static str
    ensures { result.now ≡ words.comparison_word comparison }
{
    match comparison {
        Comparison::Equal => "eq",
        Comparison::NotEqual => "ne",
        Comparison::Less => "lt",
        Comparison::LessEqual => "le",
        Comparison::Greater => "gt",
        Comparison::GreaterEqual => "ge",
    }
}

/// The word of an instruction.
pub fn instruction_word(op: Op) -> &'static str
    ensures { result.now ≡ words.instruction_word op }
{
    match op {
        Op::Const(_) => "const",
        Op::Local(_) => "local",
        Op::Set(_) => "set",
        Op::Discard => "drop",
        Op::Duplicate => "dup",
        Op::BlockAddress(_) => "gaddr",
        Op::BlockOffset(_) => "saddr",
        Op::Arithmetic { operator, .. } => arithmetic_word(operator),
        Op::Neg { .. } => "neg",
        Op::WrapAdd => "wadd",
        Op::WrapSub => "wsub",
        Op::WrapMul => "wmul",
        Op::WrapNeg => "wneg",
        Op::WrapShl => "wshl",
        Op::WrapShr => "wshr",
        Op::WrapDiv => "wdiv",
        Op::WrapRem => "wrem",
        Op::Bitwise(operator) => bitwise_word(operator),
        Op::Not => "not",
        Op::Compare(comparison) => comparison_word(comparison),
        Op::UnsignedLess => "ult",
        Op::UnsignedLessEqual => "ule",
        Op::UnsignedGreater => "ugt",
        Op::UnsignedGreaterEqual => "uge",
        Op::Zero => "zero",
        Op::Byte => "byte",
        Op::Index { .. } => "index",
        Op::NonNull { .. } => "nonnull",
        Op::In { .. } => "in",
        Op::UpTo { .. } => "upto",
        Op::Term { .. } => "term",
        Op::Contain { .. } => "contain",
        Op::Lies { .. } => "lies",
        Op::Range { .. } => "range",
        Op::Load1 => "ld1",
        Op::Load4 => "ld4",
        Op::Store1 => "st1",
        Op::Store4 => "st4",
        Op::TouchLoad1 => "tld1",
        Op::TouchLoad4 => "tld4",
        Op::TouchStore1 => "tst1",
        Op::TouchStore4 => "tst4",
        Op::Jump(_) => "jump",
        Op::JumpIfZero(_) => "jzero",
        Op::Call(_) => "call",
        Op::TaintedCall { .. } => "tcall",
        Op::CallBack(_) => "ccall",
        Op::Return => "ret",
        Op::ReturnNothing => "retv",
        Op::Tick => "tick",
        Op::NextInput => "next",
        Op::Print => "print",
        Op::PutByte => "putc",
        Op::Alloc { .. } => "alloc",
        Op::AllocTerminated { .. } => "ntalloc",
        Op::SandboxAlloc { .. } => "salloc",
        Op::TextLength => "len",
    }
}
