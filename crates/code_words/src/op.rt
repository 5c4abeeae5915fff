// The instructions of the machine.

use act_words::operator::{ArithmeticOperator, BitwiseOperator, Comparison};
use ckc_text::place::Place;

/// An instruction. Words have 32 bits, and are pushed to and popped from the frame's stack; `a` stands for the word
/// below the topmost one, `b` for the topmost. A place is where a failed check stands in the source.
#[derive(Clone, Copy)]
pub enum Op {
    /// Pushes a number.
    Const(i32),
    /// Pushes the word of a slot.
    Local(u32),
    /// Pops a word into a slot.
    Set(u32),
    /// Pops a word.
    Discard,
    /// Pushes the topmost word again.
    Duplicate,
    /// Pushes the address of a static block of trusted memory.
    BlockAddress(u32),
    /// Pushes the offset of a static block of sandbox memory.
    BlockOffset(u32),
    /// An arithmetic operator on `a` and `b` (C6, C7, C8).
    Arithmetic {
        operator: ArithmeticOperator,
        place: Place,
    },
    /// `-b` (C6).
    Neg {
        place: Place,
    },
    /// Arithmetic modulo 2^32; shifts take their count modulo 32.
    WrapAdd,
    WrapSub,
    WrapMul,
    WrapNeg,
    WrapShl,
    WrapShr,
    /// In sandbox code: a zero divisor makes the act `stop`.
    WrapDiv,
    WrapRem,
    /// A bitwise operator on `a` and `b`.
    Bitwise(BitwiseOperator),
    /// Each bit of `b` turned.
    Not,
    /// A comparison of `a` and `b` with a sign: 1 or 0.
    Compare(Comparison),
    /// Comparisons of words without a sign: 1 or 0.
    UnsignedLess,
    UnsignedLessEqual,
    UnsignedGreater,
    UnsignedGreaterEqual,
    /// 1 where `b` is 0, and else 0.
    Zero,
    /// `b` modulo 256.
    Byte,
    /// The address `a` plus `b` elements of a size.
    Index {
        size: u32,
    },
    /// `b` isn't 0 (C1). It stays.
    NonNull {
        place: Place,
    },
    /// Pops an upper end, a lower end, a base, an index and a pointer: the element lies between the ends (C2).
    In {
        low: i64,
        high: i64,
        size: u32,
        place: Place,
    },
    /// The same, where it may also be at the upper end.
    UpTo {
        low: i64,
        high: i64,
        size: u32,
        place: Place,
    },
    /// Pops a value, an upper end, a base, an index and a pointer: at the upper end the value is 0 (C3).
    Term {
        high: i64,
        size: u32,
        place: Place,
    },
    /// Pops new ends with their base, and old ones with theirs: the new ones lie within the old ones, unless the pointer
    /// below is null or the new ends are turned (C5).
    Contain {
        old_low: i64,
        old_high: i64,
        new_low: i64,
        new_high: i64,
        size: u32,
        place: Place,
    },
    /// Pops ends with their base: they lie in sandbox memory, with so many bytes more, unless the pointer below is null
    /// or the ends are turned (C5).
    Lies {
        low: i64,
        high: i64,
        size: u32,
        more: u32,
        place: Place,
    },
    /// The bytes from `b` plus an offset on lie in sandbox memory (C4). `b` stays.
    Range {
        offset: u32,
        len: u32,
        place: Place,
    },
    /// Pops an address, and pushes the byte or the word there.
    Load1,
    Load4,
    /// Pops a value and an address, and stores its lowest byte or all of it there.
    Store1,
    Store4,
    /// The same as touches of sandbox memory.
    TouchLoad1,
    TouchLoad4,
    TouchStore1,
    TouchStore4,
    /// Goes on at an instruction of this function.
    Jump(u32),
    /// Pops a word, and goes on there where it is 0.
    JumpIfZero(u32),
    /// Pops the arguments of a function of the same side, the last on top, and calls it (S2).
    Call(u32),
    /// Pops the arguments of a tainted function, the last on top, calls it, and pushes its reply (S2, C9).
    TaintedCall {
        import: u32,
        place: Place,
    },
    /// In sandbox code: pops the arguments of a callback, calls it, and pushes its reply.
    CallBack(u32),
    /// Returns the topmost word.
    Return,
    /// Returns nothing.
    ReturnNothing,
    /// Spends a tick (S1).
    Tick,
    /// Pushes the next input number, and 0 behind the last.
    NextInput,
    /// Pops a number, and writes it in decimal with a line feed.
    Print,
    /// Pops a word, and writes its lowest byte.
    PutByte,
    /// Pops a count, makes so many elements of trusted memory, and pushes their address, or 0 where there are none.
    Alloc {
        size: u32,
    },
    /// The same with one element more.
    AllocTerminated {
        size: u32,
    },
    /// The same as the first, in sandbox memory.
    SandboxAlloc {
        size: u32,
    },
    /// Pops an address, and pushes how many bytes stand before the first 0 from there; each byte spends a tick.
    TextLength,
}
