// What tokens say that say one thing each.

ghost use Rattle.std.specs.Prelude.{◌≡◌};
ghost use Rattle.ckc_parser_grammar.specs.Tokens as words;

use ckc_lexer::keyword::Keyword;
use ckc_lexer::token::TokenKind;
use ckc_tree::expr::{CallocWord, CastWord, MallocWord, UnaryOperator};
use ckc_tree::stmt::{ArrayKind, Constant, Mark, StepOperator, StoreOperator};
use ckc_tree::type_form::{PointerKind, PointerMode, PointerWord};

/// What a pointer word says.
pub fn pointer_word(kind: &TokenKind) -> Option<PointerWord>
    ensures { result ≡ words.pointer_word_of kind.now }
{
    let (mode, kind) = match kind {
        TokenKind::Keyword(Keyword::Ptr) => (PointerMode::Checked, PointerKind::One),
        TokenKind::Keyword(Keyword::ArrayPtr) => (PointerMode::Checked, PointerKind::Array),
        TokenKind::Keyword(Keyword::NtArrayPtr) => (
            PointerMode::Checked,
            PointerKind::NullTerminated,
        ),
        TokenKind::Keyword(Keyword::TPtr) => (PointerMode::Tainted, PointerKind::One),
        TokenKind::Keyword(Keyword::TArrayPtr) => (PointerMode::Tainted, PointerKind::Array),
        TokenKind::Keyword(Keyword::TNtArrayPtr) => (
            PointerMode::Tainted,
            PointerKind::NullTerminated,
        ),
        _ => return None,
    };
    Some(PointerWord { mode, kind })
}

/// The operator that a token is before an operand.
pub fn unary_operator(kind: &TokenKind) -> Option<UnaryOperator>
    ensures { result ≡ words.unary_operator_of kind.now }
{
    match kind {
        TokenKind::Star => Some(UnaryOperator::Deref),
        TokenKind::Ampersand => Some(UnaryOperator::AddressOf),
        TokenKind::Minus => Some(UnaryOperator::Negate),
        TokenKind::Not => Some(UnaryOperator::Not),
        TokenKind::Tilde => Some(UnaryOperator::Complement),
        _ => None,
    }
}

/// The cast that a word begins.
pub fn cast_word(kind: &TokenKind) -> Option<CastWord>
    ensures { result ≡ words.cast_word_of kind.now }
{
    match kind {
        TokenKind::Keyword(Keyword::DynamicBoundsCast) => Some(CastWord::Dynamic),
        TokenKind::Keyword(Keyword::AssumeBoundsCast) => Some(CastWord::Assume),
        _ => None,
    }
}

/// The allocation of one size that a word begins.
pub fn malloc_word(kind: &TokenKind) -> Option<MallocWord>
    ensures { result ≡ words.malloc_word_of kind.now }
{
    match kind {
        TokenKind::Keyword(Keyword::Malloc) => Some(MallocWord::Malloc),
        TokenKind::Keyword(Keyword::TMalloc) => Some(MallocWord::TMalloc),
        _ => None,
    }
}

/// The allocation of a count and a size that a word begins.
pub fn calloc_word(kind: &TokenKind) -> Option<CallocWord>
    ensures { result ≡ words.calloc_word_of kind.now }
{
    match kind {
        TokenKind::Keyword(Keyword::Calloc) => Some(CallocWord::Calloc),
        TokenKind::Keyword(Keyword::NtCalloc) => Some(CallocWord::NtCalloc),
        _ => None,
    }
}

/// What a word makes of a block or a function.
pub fn mark(kind: &TokenKind) -> Option<Mark>
    ensures { result ≡ words.mark_of kind.now }
{
    match kind {
        TokenKind::Keyword(Keyword::Checked) => Some(Mark::Checked),
        TokenKind::Keyword(Keyword::Unchecked) => Some(Mark::Unchecked),
        _ => None,
    }
}

/// The array that a word makes of a variable.
pub fn array_kind(kind: &TokenKind) -> Option<ArrayKind>
    ensures { result ≡ words.array_kind_of kind.now }
{
    match kind {
        TokenKind::Keyword(Keyword::Checked) => Some(ArrayKind::Checked),
        TokenKind::Keyword(Keyword::NtChecked) => Some(ArrayKind::NullTerminated),
        _ => None,
    }
}

/// The operator that a mark is between a target and a value.
pub fn store_operator(kind: &TokenKind) -> Option<StoreOperator>
    ensures { result ≡ words.store_operator_of kind.now }
{
    match kind {
        TokenKind::Equal => Some(StoreOperator::Set),
        TokenKind::PlusEqual => Some(StoreOperator::Add),
        TokenKind::MinusEqual => Some(StoreOperator::Subtract),
        _ => None,
    }
}

/// The operator that a mark is before or behind a target.
pub fn step_operator(kind: &TokenKind) -> Option<StepOperator>
    ensures { result ≡ words.step_operator_of kind.now }
{
    match kind {
        TokenKind::PlusPlus => Some(StepOperator::Increment),
        TokenKind::MinusMinus => Some(StepOperator::Decrement),
        _ => None,
    }
}

/// The value of a number.
pub fn number(kind: &TokenKind) -> Option<u32>
    ensures { result ≡ words.number_of kind.now }
{
    match kind {
        TokenKind::Number(number) => Some(*number),
        _ => None,
    }
}

/// The value of a number or a character constant.
pub fn constant(kind: &TokenKind) -> Option<Constant>
    ensures { result ≡ words.constant_of kind.now }
{
    match kind {
        TokenKind::Number(number) => Some(Constant::Number(*number)),
        TokenKind::Character(byte) => Some(Constant::Character(*byte)),
        _ => None,
    }
}
