// Numbers of a source.

ghost use Rattle.std.specs.Prelude.{◌≡◌, ◌≤◌};
ghost use Rattle.std.specs.List.{list_all};
ghost use Rattle.std.specs.Char.{digit_value};
ghost use Rattle.std.specs.Str.Parse.{digits_value};
ghost use Rattle.ckc_text.specs.Names.{is_digit};
ghost use Rattle.ckc_lexer.specs.Bytes.{is_hexadecimal_digit};
ghost use Rattle.ckc_lexer.specs.Words.{is_decimal, is_hexadecimal, limited, number_of};

use ckc_text::code::Code;

/// The greatest value of a number.
const MAX_NUMBER: u64 = 2_147_483_647;

fn are_digits(bytes: &[u8]) -> bool
    ensures { result ≡ list_all is_digit bytes.now }
{
    for b in bytes {
        if !b.is_ascii_digit() {
            return false;
        }
    }
    true
}

fn are_hexadecimal_digits(bytes: &[u8]) -> bool
    ensures { result ≡ list_all is_hexadecimal_digit bytes.now }
{
    for b in bytes {
        if !b.is_ascii_hexdigit() {
            return false;
        }
    }
    true
}

#[tactic(auto, using(crate::proofs::Numerals::is_decimal_digits))]
fn is_decimal(word: &[u8]) -> bool
    ensures { result ≡ is_decimal word.now }
{
    match word {
        [] => false,
        [b'0', _, ..] => false,
        _ => are_digits(word),
    }
}

fn is_hexadecimal(word: &[u8]) -> bool
    ensures { result ≡ is_hexadecimal word.now }
{
    match word {
        [b'0', b'x' | b'X', digits @ ..] => !digits.is_empty() && are_hexadecimal_digits(digits),
        _ => false,
    }
}

/// The value of a digit or a letter, from 0 for `0` to 35 for `z`, and 36 for another byte.
pub fn digit_value(b: u8) -> u8
    ensures { result ≡ digit_value b }
{
    match b {
        b'0'..=b'9' => b - 48,
        b'A'..=b'Z' => b - 55,
        b'a'..=b'z' => b - 87,
        _ => 36,
    }
}

/// The value of digits, unless it is too great for a number.
fn number_value(radix: u8, digits: &[u8]) -> Result<u32, Code>
    requires { 1 ≤ radix }
    ensures { result ≡ limited (digits_value radix digits.now) }
{
    let mut value = 0;
    for digit in digits {
        value = u64::from(radix) * value + u64::from(digit_value(*digit));
        if value > MAX_NUMBER {
            return Err(Code::E04);
        }
    }
    Ok(value as u32)
}

/// The value of letters and digits.
pub fn number_of(word: &[u8]) -> Result<u32, Code>
    ensures { result ≡ number_of word.now }
{
    if is_decimal(word) {
        number_value(10, word)
    } else if is_hexadecimal(word) {
        number_value(16, &word[2..])
    } else {
        Err(Code::E02)
    }
}
