// The texts of operators and words of expressions.

ghost use Rattle.std.specs.Prelude.{◌≡◌};
ghost use Rattle.ckc_printer.specs.Pieces.{kind_text, sign_text};
ghost use Rattle.ckc_printer.specs.ExpressionPieces.{unary_kind, binary_sign, cast_kind, malloc_kind, calloc_kind};

use ckc_tree::expr::{BinaryOperator, CallocWord, CastWord, MallocWord, UnaryOperator};

/// An operator before its operand.
pub fn unary_text(operator: UnaryOperator) -> &'static [u8]
    ensures { result.now ≡ kind_text (unary_kind operator) }
{
    match operator {
        UnaryOperator::Deref => b"*",
        UnaryOperator::AddressOf => b"&",
        UnaryOperator::Negate => b"-",
        UnaryOperator::Not => b"!",
        UnaryOperator::Complement => b"~",
    }
}

/// Each operator between its operands, in their order.
static BINARY_TEXTS: [&[u8]; 18] = [
    b"||", b"&&", b"|", b"^", b"&", b"==", b"!=", b"<", b"<=", b">", b">=", b"<<", b">>", b"+",
    b"-", b"*", b"/", b"%",
];

/// An operator between its operands.
pub fn binary_text(operator: BinaryOperator) -> &'static [u8]
    ensures { result.now ≡ sign_text (binary_sign operator) }
{
    BINARY_TEXTS[operator as usize]
}

/// The word of a cast.
pub fn cast_text(word: CastWord) -> &'static [u8]
    ensures { result.now ≡ kind_text (cast_kind word) }
{
    match word {
        CastWord::Dynamic => b"_Dynamic_bounds_cast",
        CastWord::Assume => b"_Assume_bounds_cast",
    }
}

/// The word of an allocation of a size.
pub fn malloc_text(word: MallocWord) -> &'static [u8]
    ensures { result.now ≡ kind_text (malloc_kind word) }
{
    match word {
        MallocWord::Malloc => b"malloc",
        MallocWord::TMalloc => b"t_malloc",
    }
}

/// The word of an allocation of elements.
pub fn calloc_text(word: CallocWord) -> &'static [u8]
    ensures { result.now ≡ kind_text (calloc_kind word) }
{
    match word {
        CallocWord::Calloc => b"calloc",
        CallocWord::NtCalloc => b"nt_calloc",
    }
}
