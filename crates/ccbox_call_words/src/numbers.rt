// Numbers in words.

ghost use Rattle.std.specs.Prelude.{◌≡◌, ◌≤◌};
ghost use Rattle.std.specs.List.{list_all};
ghost use Rattle.ccbox_call_words.specs.Requests.{is_digit, number_from, base_from, input_number, negative};

// The least address that a memory may begin at.
const MIN_BASE: u32 = 16;

// The greatest address that a memory may begin at.
const MAX_BASE: u32 = 4_026_531_840;

// The greatest size of a number of 32 bits below zero.
const MAX_BELOW_ZERO: u32 = 2_147_483_648;

// The greatest number of 32 bits.
const MAX_NUMBER: u32 = 2_147_483_647;

/// The number that a text spells in plain digits, if it lies from one to another.
pub fn number_from(least: u32, most: u32, text: &str) -> Option<u32>
    ensures { result ≡ number_from least most text.now }
{
    if !are_digits(text.as_bytes()) {
        return None;
    }
    let number = text.parse().ok()?;
    if (least..=most).contains(&number) {
        Some(number)
    } else {
        None
    }
}

fn are_digits(bytes: &[u8]) -> bool
    ensures { result ≡ list_all is_digit bytes.now }
{
    bytes.iter().all(|b| b.is_ascii_digit())
}

/// The address that a text spells, if a memory may begin there.
pub fn base_from(text: &str) -> Option<u32>
    ensures { result ≡ base_from text.now }
{
    let address = number_from(MIN_BASE, MAX_BASE, text)?;
    if address % 16 == 0 {
        Some(address)
    } else {
        None
    }
}

/// The number of 32 bits that a text spells, with a minus before its digits or without.
pub fn input_number(text: &str) -> Option<i32>
    ensures { result ≡ input_number text.now }
{
    match text.strip_prefix("-") {
        Some(digits) => {
            let size = number_from(0, MAX_BELOW_ZERO, digits)?;
            Some(negated(size))
        }
        None => {
            let number = number_from(0, MAX_NUMBER, text)?;
            Some(number as i32)
        }
    }
}

// The number below zero, or zero, of this size.
fn negated(size: u32) -> i32
    requires { size ≤ 2147483648 }
    ensures { result ≡ negative size }
{
    (0 - i64::from(size)) as i32
}
