// Operations on numbers and words.

ghost use Rattle.std.specs.Prelude.{◌≡◌, ◌+◌, ◌*◌};
ghost use Rattle.act_words.specs.Arithmetic.{sum, difference, product, quotient as quotient_of, remainder as remainder_of, negation, shifted_left, shifted_right, wrapping_negation as negation_of, wrapping_shift_right as shift_right_of, wrapped};
ghost use Rattle.act_words.specs.Numbers.{signed};
ghost use Rattle.act_words.specs.Operators.{arithmetic_result, bitwise_result, holds_of_words};
ghost use Rattle.two_memory_machine_memory.specs.CheckedNumbers.{checked_of};

use act_words::ending::Ending;
use act_words::operator::{ArithmeticOperator, BitwiseOperator, Comparison};
use ckc_text::code::Code;
use ckc_text::place::Place;

/// What an arithmetic operator makes of two numbers (C6, C7, C8).
#[inline(always)]
pub fn compute(
    operator: ArithmeticOperator,
    place: Place,
    left: u32,
    right: u32,
) -> Result<i32, Ending>
    ensures { checked_of result ≡ arithmetic_result operator place (signed left) (signed right) }
{
    match operator {
        ArithmeticOperator::Add => add(place, left, right),
        ArithmeticOperator::Subtract => subtract(place, left, right),
        ArithmeticOperator::Multiply => multiply(place, left, right),
        ArithmeticOperator::Divide => divide(place, left, right),
        ArithmeticOperator::Remainder => remainder(place, left, right),
        ArithmeticOperator::ShiftLeft => shift_left(place, left, right),
        ArithmeticOperator::ShiftRight => shift_right(place, left, right),
    }
}

/// The bits that a bitwise operator makes of those of two words.
#[inline(always)]
pub fn combine(operator: BitwiseOperator, left: u32, right: u32) -> u32
    ensures { result ≡ bitwise_result operator left right }
{
    match operator {
        BitwiseOperator::And => left & right,
        BitwiseOperator::Or => left | right,
        BitwiseOperator::Xor => left ^ right,
    }
}

/// Whether a comparison holds of two words, which are read with a sign.
#[inline(always)]
pub fn compare(comparison: Comparison, left: u32, right: u32) -> bool
    ensures { result ≡ holds_of_words comparison left right }
{
    match comparison {
        Comparison::Equal => left == right,
        Comparison::NotEqual => left != right,
        Comparison::Less => left.cast_signed() < right.cast_signed(),
        Comparison::LessEqual => left.cast_signed() <= right.cast_signed(),
        Comparison::Greater => left.cast_signed() > right.cast_signed(),
        Comparison::GreaterEqual => left.cast_signed() >= right.cast_signed(),
    }
}

// The sum (C6).
#[inline(always)]
fn add(place: Place, left: u32, right: u32) -> Result<i32, Ending>
    ensures { checked_of result ≡ sum place (signed left) (signed right) }
{
    left.cast_signed()
        .checked_add(right.cast_signed())
        .ok_or(Ending::Check {
            code: Code::C6,
            place,
        })
}

// The difference (C6).
#[inline(always)]
fn subtract(place: Place, left: u32, right: u32) -> Result<i32, Ending>
    ensures { checked_of result ≡ difference place (signed left) (signed right) }
{
    left.cast_signed()
        .checked_sub(right.cast_signed())
        .ok_or(Ending::Check {
            code: Code::C6,
            place,
        })
}

// The product (C6).
#[inline(always)]
fn multiply(place: Place, left: u32, right: u32) -> Result<i32, Ending>
    ensures { checked_of result ≡ product place (signed left) (signed right) }
{
    left.cast_signed()
        .checked_mul(right.cast_signed())
        .ok_or(Ending::Check {
            code: Code::C6,
            place,
        })
}

/// The negated number (C6).
pub fn negate(place: Place, right: u32) -> Result<i32, Ending>
    ensures { checked_of result ≡ negation place (signed right) }
{
    right.cast_signed().checked_neg().ok_or(Ending::Check {
        code: Code::C6,
        place,
    })
}

// The quotient, rounded toward zero (C7, C6).
#[inline(always)]
fn divide(place: Place, left: u32, right: u32) -> Result<i32, Ending>
    ensures { checked_of result ≡ quotient_of place (signed left) (signed right) }
{
    if right == 0 {
        return Err(Ending::Check {
            code: Code::C7,
            place,
        });
    }
    left.cast_signed()
        .checked_div(right.cast_signed())
        .ok_or(Ending::Check {
            code: Code::C6,
            place,
        })
}

// The remainder modulo a number, with the sign of the left number (C7, C6).
#[inline(always)]
fn remainder(place: Place, left: u32, modulus: u32) -> Result<i32, Ending>
    ensures { checked_of result ≡ remainder_of place (signed left) (signed modulus) }
{
    if modulus == 0 {
        return Err(Ending::Check {
            code: Code::C7,
            place,
        });
    }
    left.cast_signed()
        .checked_rem(modulus.cast_signed())
        .ok_or(Ending::Check {
            code: Code::C6,
            place,
        })
}

// The left number times two as often (C8).
#[inline(always)]
fn shift_left(place: Place, left: u32, count: u32) -> Result<i32, Ending>
    ensures { checked_of result ≡ shifted_left place (signed left) (signed count) }
{
    let left = left.cast_signed();
    let fault = Ending::Check {
        code: Code::C8,
        place,
    };
    if left < 0 || count > 31 {
        return Err(fault);
    }
    let shifted = i64::from(left) << count;
    i32::try_from(shifted).or(Err(fault))
}

// The left number divided by two as often, rounded down (C8).
#[inline(always)]
fn shift_right(place: Place, left: u32, count: u32) -> Result<i32, Ending>
    ensures { checked_of result ≡ shifted_right place (signed left) (signed count) }
{
    if count > 31 {
        return Err(Ending::Check {
            code: Code::C8,
            place,
        });
    }
    Ok(left.cast_signed() >> count)
}

/// The negated word, modulo 2^32.
pub fn wrapping_negate(right: u32) -> u32
    ensures { result ≡ negation_of right }
{
    right.wrapping_neg()
}

/// The word shifted right by a count modulo 32; its sign is kept.
pub fn wrapping_shift_right(left: u32, right: u32) -> u32
    ensures { result ≡ shift_right_of left right }
{
    (left.cast_signed() >> (right % 32)).cast_unsigned()
}

/// The address of an element, modulo 2^32.
pub fn element(pointer: u32, index: u32, size: u32) -> u32
    ensures { result ≡ wrapped (pointer + index * size) }
{
    pointer.wrapping_add(index.wrapping_mul(size))
}
