// What the definitions of tokens say: a source has one list of tokens or one fault, the tokens stand in order,
// and worked examples.

ghost use Rattle.std.specs.Prelude.{◌≡◌, ◌≤◌, ℕ, List, ◌∷◌, ◌++◌, [], codes, length, Result};
ghost use Rattle.ckc_text.specs.declared.code.Code.TheVariants.{E02, E03, E04, E05};
ghost use Rattle.ckc_text.specs.declared.fault.SourceFault.{SourceFault};
ghost use Rattle.ckc_lexer.specs.Tokens.{Lexes, AreTokens, HasFault, InOrder, token_at, fault_at};
ghost use Rattle.ckc_lexer.specs.declared.token.Token.{Token};
ghost use Rattle.ckc_lexer.specs.declared.token.TokenKind.TheVariants.{Name, Number, Minus, LessEqual, Greater, GreaterEqual};

/// A source has one list of tokens or one fault, and never both.
pub fn one_cut()
    ensures some_cut { (src : List ℕ) → (answer : Result (List Token) SourceFault) × Lexes src answer }
    ensures one_cut { (src : List ℕ) (answer other : Result (List Token) SourceFault)
        → Lexes src answer → Lexes src other → answer ≡ other }
{}

/// The tokens of a source stand one behind the other and within it, each with a byte at least. Only behind
/// a minus may one stand on the same bytes, as the number of a definition does.
pub fn in_order()
    ensures { (src : List ℕ) (tokens : List Token) → AreTokens src tokens → InOrder tokens (length src) }
{}

/// A source has 200,000 tokens at most.
pub fn few_tokens()
    ensures { (src : List ℕ) (tokens : List Token) → AreTokens src tokens → length tokens ≤ 200000 }
{}

/// The longest mark is taken, but a right shift is two marks that touch. A name that is defined stands for
/// its number.
pub fn examples_of_tokens()
    ensures longest { AreTokens (codes "a<=b")
        (token_at 0 1 (Name (codes "a")) ∷ token_at 1 3 LessEqual ∷ token_at 3 4 (Name (codes "b")) ∷ []) }
    ensures right_shift { AreTokens (codes "a >>= b")
        (token_at 0 1 (Name (codes "a")) ∷ token_at 2 3 Greater ∷ token_at 3 5 GreaterEqual
        ∷ token_at 6 7 (Name (codes "b")) ∷ []) }
    ensures defined { AreTokens (codes "#define N -4" ++ 10 ∷ codes "N")
        (token_at 13 14 Minus ∷ token_at 13 14 (Number 4) ∷ []) }
{}

/// Faults: a number that a digit follows, a comment that isn't closed, a number that is too great, a second
/// definition with another number, and a `pop` of nothing.
pub fn examples_of_faults()
    ensures leading_zero { HasFault (codes "int x = 08; int main(void) { return 0; }") (fault_at E02 8) }
    ensures open_comment { HasFault (codes "a/*") (fault_at E03 1) }
    ensures great { HasFault (codes "2147483648") (fault_at E04 0) }
    ensures two_definitions { HasFault (codes "#define N 4" ++ 10 ∷ codes "#define N 5") (fault_at E05 12) }
    ensures pop_of_nothing { HasFault (codes "#pragma CHECKED_SCOPE pop") (fault_at E05 0) }
{}
