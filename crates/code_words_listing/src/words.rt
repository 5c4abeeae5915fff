// The values that single words spell.

ghost use Rattle.std.specs.Prelude.{◌≡◌, ◌==◌, ◌&&◌, length, IfOk, MatchOption, Some, None};
ghost use Rattle.std.specs.List.{prefix_len, list_all};
ghost use Rattle.std.specs.Int.{w32, w64};
ghost use Rattle.ckc_text.specs.Names as names;
ghost use Rattle.code_words_listing.specs.ReadLines.{kind_in, parameter_kind_in};
ghost use Rattle.code_words_listing.specs.Reading.{number_in, size_in, signed_in, number_or_none_in, bytes_in, place_in};

use crate::bytes::first;
use crate::lines::kind_word;
use ckc_text::fault::NoMemory;
use ckc_text::place::Place;
use hex::FromHexError;
use itoa::Buffer;
use marshalling::kind::WordKind;
use std::alloc::Global;

/// A number of 32 bits, in decimal as it is written.
pub fn number(word: &[u8]) -> Option<u32>
    ensures { result ≡ number_in word.now }
{
    let text = std::str::from_utf8(word).ok()?;
    let number = text.parse::<u32>().ok()?;
    let mut buffer = Buffer::new();
    if buffer.format(number).as_bytes() == word {
        Some(number)
    } else {
        None
    }
}

/// A number that isn't 0.
pub fn size(word: &[u8]) -> Option<u32>
    ensures { result ≡ size_in word.now }
{
    let size = number(word)?;
    if size >= 1 { Some(size) } else { None }
}

/// A number of 32 bits with a sign.
pub fn signed_32(word: &[u8]) -> Option<i32>
    ensures { result ≡ signed_in w32 word.now }
{
    let text = std::str::from_utf8(word).ok()?;
    let number = text.parse::<i32>().ok()?;
    let mut buffer = Buffer::new();
    if buffer.format(number).as_bytes() == word {
        Some(number)
    } else {
        None
    }
}

/// A number of 64 bits with a sign.
pub fn signed_64(word: &[u8]) -> Option<i64>
    ensures { result ≡ signed_in w64 word.now }
{
    let text = std::str::from_utf8(word).ok()?;
    let number = text.parse::<i64>().ok()?;
    let mut buffer = Buffer::new();
    if buffer.format(number).as_bytes() == word {
        Some(number)
    } else {
        None
    }
}

/// A number, or `-` for none.
pub fn number_or_none(word: &[u8]) -> Option<Option<u32>>
    ensures { result ≡ number_or_none_in word.now }
{
    if word == b"-".as_slice() {
        return Some(None);
    }
    let number = number(word)?;
    Some(Some(number))
}

/// Whether the word is a name.
pub fn is_name(word: &[u8]) -> bool
    ensures { result ≡ (names.begins_with names.is_letter word.now && prefix_len names.is_word_byte word.now == length word.now) }
{
    starts(word) && are_word_bytes(word)
}

// Whether the word begins with a letter or `_`.
fn starts(word: &[u8]) -> bool
    ensures { result ≡ names.begins_with names.is_letter word.now }
{
    match word.split_first() {
        Some((first, _)) => is_letter(*first),
        None => false,
    }
}

// Whether the word has nothing but letters, `_` and digits.
fn are_word_bytes(word: &[u8]) -> bool
    ensures { result ≡ list_all names.is_word_byte word.now }
{
    word.iter().all(|b| is_letter(*b) || b.is_ascii_digit())
}

// A letter or `_`.
fn is_letter(b: u8) -> bool
    ensures { result ≡ names.is_letter b }
{
    b.is_ascii_lowercase() || b.is_ascii_uppercase() || b == b'_'
}

/// A place, as `@line:col`.
pub fn place(word: &[u8]) -> Option<Place>
    ensures { result ≡ place_in word.now }
{
    let (at, rest) = word.split_first()?;
    let colon = first(rest, b':')?;
    let line = number(&rest[..colon])?;
    let col = number(&rest[colon + 1..])?;
    if *at == b'@' {
        Some(Place { line, col })
    } else {
        None
    }
}

static KINDS: [WordKind; 4] = [
    WordKind::Int,
    WordKind::Char,
    WordKind::Pointer,
    WordKind::Void,
];

/// What a function returns.
pub fn kind(word: &[u8]) -> Option<WordKind>
    ensures { result ≡ kind_in word.now }
{
    KINDS
        .iter()
        .copied()
        .find(|kind| kind_word(*kind).as_bytes() == word)
}

static PASSED: [WordKind; 3] = [WordKind::Int, WordKind::Char, WordKind::Pointer];

/// What is passed.
pub fn parameter_kind(word: &[u8]) -> Option<WordKind>
    ensures { result ≡ parameter_kind_in word.now }
{
    PASSED
        .iter()
        .copied()
        .find(|kind| kind_word(*kind).as_bytes() == word)
}

/// Bytes, with two hexadecimal digits in lower case each.
pub fn bytes(alloc: Global, word: &[u8]) -> Result<Option<Vec<u8>>, NoMemory>
    ensures { IfOk result (λ found. MatchOption found (bytes_in word.now ≡ None) (λ bytes. bytes_in word.now ≡ Some bytes.items)) }
{
    match hex::decode(alloc, word) {
        Ok(bytes) => {
            let text = hex::encode(alloc, bytes.as_slice())?;
            if text.as_bytes() == word {
                Ok(Some(bytes))
            } else {
                Ok(None)
            }
        }
        Err(FromHexError::OutOfMemory) => Err(NoMemory),
        Err(_) => Ok(None),
    }
}
