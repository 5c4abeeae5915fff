// Arguments of calls.

ghost use Rattle.std.specs.Prelude.{◌≡◌, ◌≤◌, length, slice_get, unwrap_or};
ghost use Rattle.act_words.specs.Numbers.{signed};
ghost use Rattle.marshalling.specs.Crossing.{added, region_lies, fault_at, fault_from, unless_fault, unpacked_arguments};

use crate::ends::Ends;
use crate::fault::MarshalFault;
use crate::kind::WordKind;
use crate::signature::{Param, Region, Signature};
use act_words::row::Words;

/// The words of a call, which passes at most 16.
#[inline]
pub fn pack(words: &[u32]) -> Words
    requires { length words.now ≤ 16 }
    ensures { result ≡ words.now }
{
    Words::from_slice(words).unwrap()
}

/// Whether words that the sandbox passes may cross to a callback, where its memory has this size: the first fault where
/// they may not. Another count than that of the parameters comes first (S5), then from left to right a `char` of more
/// than 8 bits (C9) and bounds that don't lie in the sandbox's memory (C4).
pub fn unpack_args(sig: &Signature, words: &Words, size: u32) -> Result<(), MarshalFault>
    ensures { result ≡ unpacked_arguments sig.now words.now size }
{
    let params = sig.as_slice();
    let words = words.as_slice();
    if words.len() != params.len() {
        return Err(MarshalFault::Count);
    }
    check_arguments(params, words, size)
}

// Whether each word may stand for its parameter, from left to right.
fn check_arguments(params: &[Param], words: &[u32], size: u32) -> Result<(), MarshalFault>
    requires few { length params.now ≤ 16 }
    requires count { length words.now ≡ length params.now }
    ensures { result ≡ unless_fault (fault_from 0 size words.now params.now words.now) }
{
    for (i, param) in params.iter().enumerate() {
        check_argument(i as u32, param, words[i], words, size)?;
    }
    Ok(())
}

// Whether a word may stand for the parameter of a number: a `char` has 8 bits, and the bounds of a pointer, which the other
// words may add to, lie in the sandbox's memory.
fn check_argument(
    number: u32,
    param: &Param,
    word: u32,
    words: &[u32],
    size: u32,
) -> Result<(), MarshalFault>
    ensures { result ≡ unless_fault (fault_at number size words.now param.now word None) }
{
    if let WordKind::Char = param.kind {
        if word > 255 {
            return Err(MarshalFault::Char { param: number });
        }
    }
    match param.region {
        Some(region) if !lies(&region, word, words, size) => {
            Err(MarshalFault::Range { param: number })
        }
        _ => Ok(()),
    }
}

// Whether the bounds of a pointer lie in a memory of a size.
fn lies(region: &Region, pointer: u32, words: &[u32], size: u32) -> bool
    ensures { result ≡ region_lies size words.now pointer region.now }
{
    let ends = Ends {
        base: word_of(words, region.base),
        low: word_added(words, region.lo_var),
        low_plus: region.lo_plus,
        high: word_added(words, region.hi_var),
        high_plus: region.hi_plus,
        size: region.size,
    };
    ends.lie_in(size, pointer, region.more)
}

// The word of a parameter that adds to an end, or 0 where none does.
fn word_added(words: &[u32], param: Option<u32>) -> u32
    ensures { signed result ≡ added param words.now }
{
    match param {
        Some(param) => word_of(words, param),
        None => 0,
    }
}

// The word of a parameter, or 0 where there is none.
fn word_of(words: &[u32], param: u32) -> u32
    ensures { result ≡ unwrap_or (slice_get words.now param) 0 }
{
    words.get(param as usize).copied().unwrap_or(0)
}
