// Instructions that pop words and push what they come to.

ghost use Rattle.std.specs.Prelude.{◌≡◌, ◌<◌};
ghost use Rattle.act_words.specs.Arithmetic.{wrapping_quotient as quotient_of, wrapping_remainder as remainder_of};
ghost use Rattle.sandbox_actor_code.specs.Codes.{Does, IsReady};

use crate::code_actor::CodeActor;
use act_words::act::Act;
use act_words::operator::{BitwiseOperator, Comparison};
use code_words::op::Op;
use two_memory_machine_memory::arithmetic;

impl<'a> CodeActor<'a> {
    /// Pushes the topmost word again.
    pub(crate) fn duplicate(&mut self) -> Option<Act>
        requires { IsReady self.old }
        ensures { Does Op.Duplicate self.old result self.new }
    {
        let Some(word) = self.word() else {
            return self.stop();
        };
        self.push(0, word)
    }

    /// Pops a word.
    pub(crate) fn discard(&mut self) -> Option<Act>
        requires { IsReady self.old }
        ensures { Does Op.Discard self.old result self.new }
    {
        let Some(_) = self.word() else {
            return self.stop();
        };
        self.go_on(1)
    }

    /// Pops a word, and pushes the negated word.
    pub(crate) fn wrapping_negate(&mut self) -> Option<Act>
        requires { IsReady self.old }
        ensures { Does Op.WrapNeg self.old result self.new }
    {
        let Some(word) = self.word() else {
            return self.stop();
        };
        self.push(1, arithmetic::wrapping_negate(word))
    }

    /// Pops a word, and pushes the word with each bit turned.
    pub(crate) fn complement(&mut self) -> Option<Act>
        requires { IsReady self.old }
        ensures { Does Op.Not self.old result self.new }
    {
        let Some(word) = self.word() else {
            return self.stop();
        };
        self.push(1, !word)
    }

    /// Pops a word, and pushes whether it is 0.
    pub(crate) fn is_zero(&mut self) -> Option<Act>
        requires { IsReady self.old }
        ensures { Does Op.Zero self.old result self.new }
    {
        let Some(word) = self.word() else {
            return self.stop();
        };
        self.push(1, u32::from(word == 0))
    }

    /// Pops a word, and pushes its lowest byte.
    pub(crate) fn low_byte(&mut self) -> Option<Act>
        requires { IsReady self.old }
        ensures { Does Op.Byte self.old result self.new }
    {
        let Some(word) = self.word() else {
            return self.stop();
        };
        self.push(1, word % 256)
    }

    /// Pops two words, and pushes their sum modulo 2^32.
    pub(crate) fn wrapping_add(&mut self) -> Option<Act>
        requires { IsReady self.old }
        ensures { Does Op.WrapAdd self.old result self.new }
    {
        let Some((left, right)) = self.two_words() else {
            return self.stop();
        };
        self.push(2, left.wrapping_add(right))
    }

    /// Pops two words, and pushes their difference modulo 2^32.
    pub(crate) fn wrapping_subtract(&mut self) -> Option<Act>
        requires { IsReady self.old }
        ensures { Does Op.WrapSub self.old result self.new }
    {
        let Some((left, right)) = self.two_words() else {
            return self.stop();
        };
        self.push(2, left.wrapping_sub(right))
    }

    /// Pops two words, and pushes their product modulo 2^32.
    pub(crate) fn wrapping_multiply(&mut self) -> Option<Act>
        requires { IsReady self.old }
        ensures { Does Op.WrapMul self.old result self.new }
    {
        let Some((left, right)) = self.two_words() else {
            return self.stop();
        };
        self.push(2, left.wrapping_mul(right))
    }

    /// Pops two words, and pushes the lower one shifted left.
    pub(crate) fn wrapping_shift_left(&mut self) -> Option<Act>
        requires { IsReady self.old }
        ensures { Does Op.WrapShl self.old result self.new }
    {
        let Some((left, right)) = self.two_words() else {
            return self.stop();
        };
        self.push(2, left.wrapping_shl(right))
    }

    /// Pops two words, and pushes the lower one shifted right.
    pub(crate) fn wrapping_shift_right(&mut self) -> Option<Act>
        requires { IsReady self.old }
        ensures { Does Op.WrapShr self.old result self.new }
    {
        let Some((left, right)) = self.two_words() else {
            return self.stop();
        };
        self.push(2, arithmetic::wrapping_shift_right(left, right))
    }

    /// Pops two words, and pushes what a bitwise operator makes of them.
    pub(crate) fn combine(&mut self, operator: BitwiseOperator) -> Option<Act>
        requires { IsReady self.old }
        ensures { Does (Op.Bitwise operator) self.old result self.new }
    {
        let Some((left, right)) = self.two_words() else {
            return self.stop();
        };
        self.push(2, arithmetic::combine(operator, left, right))
    }

    /// Pops two words, and pushes whether a comparison with a sign holds of them.
    pub(crate) fn compare(&mut self, comparison: Comparison) -> Option<Act>
        requires { IsReady self.old }
        ensures { Does (Op.Compare comparison) self.old result self.new }
    {
        let Some((left, right)) = self.two_words() else {
            return self.stop();
        };
        self.push(2, u32::from(arithmetic::compare(comparison, left, right)))
    }

    /// Pops two words, and pushes whether the lower word is the less.
    pub(crate) fn unsigned_less(&mut self) -> Option<Act>
        requires { IsReady self.old }
        ensures { Does Op.UnsignedLess self.old result self.new }
    {
        let Some((left, right)) = self.two_words() else {
            return self.stop();
        };
        self.push(2, u32::from(left < right))
    }

    /// Pops two words, and pushes whether the lower word is no more.
    pub(crate) fn unsigned_less_equal(&mut self) -> Option<Act>
        requires { IsReady self.old }
        ensures { Does Op.UnsignedLessEqual self.old result self.new }
    {
        let Some((left, right)) = self.two_words() else {
            return self.stop();
        };
        self.push(2, u32::from(left <= right))
    }

    /// Pops two words, and pushes whether the lower word is the greater.
    pub(crate) fn unsigned_greater(&mut self) -> Option<Act>
        requires { IsReady self.old }
        ensures { Does Op.UnsignedGreater self.old result self.new }
    {
        let Some((left, right)) = self.two_words() else {
            return self.stop();
        };
        self.push(2, u32::from(left > right))
    }

    /// Pops two words, and pushes whether the lower word is no less.
    pub(crate) fn unsigned_greater_equal(&mut self) -> Option<Act>
        requires { IsReady self.old }
        ensures { Does Op.UnsignedGreaterEqual self.old result self.new }
    {
        let Some((left, right)) = self.two_words() else {
            return self.stop();
        };
        self.push(2, u32::from(left >= right))
    }

    /// Pops two words, and pushes the address of an element.
    pub(crate) fn index(&mut self, size: u32) -> Option<Act>
        requires { IsReady self.old }
        ensures { Does (Op.Index size) self.old result self.new }
    {
        let Some((left, right)) = self.two_words() else {
            return self.stop();
        };
        self.push(2, arithmetic::element(left, right, size))
    }

    /// Pops two words, and pushes their quotient with a sign. It stops at a zero divisor.
    #[tactic(auto, using(std::proofs::lemmas::Bool::Decides::nat_tests))]
    pub(crate) fn wrapping_divide(&mut self) -> Option<Act>
        requires { IsReady self.old }
        ensures { Does Op.WrapDiv self.old result self.new }
    {
        let Some((left, divisor)) = self.two_words() else {
            return self.stop();
        };
        if divisor == 0 {
            return self.stop();
        }
        self.push(2, wrapping_quotient(left, divisor))
    }

    /// Pops two words, and pushes the remainder with the sign of the lower one. It stops at a zero divisor.
    #[tactic(auto, using(std::proofs::lemmas::Bool::Decides::nat_tests))]
    pub(crate) fn wrapping_remain(&mut self) -> Option<Act>
        requires { IsReady self.old }
        ensures { Does Op.WrapRem self.old result self.new }
    {
        let Some((left, modulus)) = self.two_words() else {
            return self.stop();
        };
        if modulus == 0 {
            return self.stop();
        }
        self.push(2, wrapping_remainder(left, modulus))
    }

    /// Pops a word, and goes on at an instruction where it is 0.
    #[tactic(auto, using(std::proofs::lemmas::Bool::Decides::nat_tests))]
    pub(crate) fn jump_if_zero(&mut self, target: u32) -> Option<Act>
        requires { IsReady self.old }
        ensures { Does (Op.JumpIfZero target) self.old result self.new }
    {
        let Some(word) = self.word() else {
            return self.stop();
        };
        if word != 0 {
            return self.go_on(1);
        }
        self.jump(1, target)
    }
}

// The quotient of two words that are read with a sign, rounded toward zero.
fn wrapping_quotient(left: u32, right: u32) -> u32
    requires { 0 < right }
    ensures { result ≡ quotient_of left right }
{
    left.cast_signed()
        .wrapping_div(right.cast_signed())
        .cast_unsigned()
}

// The remainder of two words that are read with a sign, with that of the left one.
fn wrapping_remainder(left: u32, right: u32) -> u32
    requires { 0 < right }
    ensures { result ≡ remainder_of left right }
{
    left.cast_signed()
        .wrapping_rem(right.cast_signed())
        .cast_unsigned()
}
