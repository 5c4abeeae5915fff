// Bounds as they are written, with names resolved.

use ckc_text::place::Span;

/// An expression in bounds.
#[derive(Drop)]
pub enum SumForm {
    Number(i64),
    /// An `int` variable that may stand in these bounds.
    Variable { var: u32 },
    /// A pointer variable that may stand in these bounds, of the same mode and element; `None` is the pointer that the
    /// bounds are for.
    Pointer { var: Option<u32> },
    /// `sizeof`: the bytes, 0 where the type is the struct that is being declared, and whether the type is the element
    /// that the bounds count.
    Size { bytes: u32, element: bool },
    Plus(Box<SumForm>, Box<SumForm>),
    Minus(Box<SumForm>, Box<SumForm>),
    Times(Box<SumForm>, Box<SumForm>),
    /// Anything else.
    Other,
}

/// What is written for bounds.
#[derive(Drop)]
pub enum BoundsHow {
    /// `count(e)`
    Count(SumForm),
    /// `byte_count(e)`
    ByteCount(SumForm),
    /// `bounds(lo, hi)`
    Pair(SumForm, SumForm),
    /// `bounds(unknown)`
    Unknown,
}

/// Bounds, and the bytes that they stand on.
#[derive(Drop)]
pub struct BoundsForm {
    pub span: Span,
    pub how: BoundsHow,
}
