// Words of bytes, and the trusted memory.

ghost use Rattle.std.specs.Prelude.{◌≡◌, ◌<◌, ◌≤◌, ◌%◌};

use crate::rows::expect;
use ckc_text::listed::Listed;
use flat_bytes::words::{fits, get1, get4, put1, put4};
use std::alloc::Global;
use std::test::Fail;
use trusted_memory::memory::Trusted;

// Whether words at both ends are read so.
fn reads(bytes: &[u8; 6]) -> bool {
    get1(bytes, 0) == 1
        && get1(bytes, 5) == 6
        && get4(bytes, 0) == 0x04030201
        && get4(bytes, 2) == 0x06050403
}

// Whether bytes with a word stored are these.
fn has_after1(bytes: &mut [u8; 6], at: u32, v: u32, expected: &[u8; 6]) -> bool
    requires { at < 6 }
{
    put1(bytes, at, v);
    bytes.as_slice() == expected.as_slice()
}

fn has_after4(bytes: &mut [u8; 6], at: u32, v: u32, expected: &[u8; 6]) -> bool
    requires { at ≤ 2 }
{
    put4(bytes, at, v);
    bytes.as_slice() == expected.as_slice()
}

// Whether words are read and written at both ends.
fn has_words() -> bool {
    let mut bytes = [1u8, 2, 3, 4, 5, 6];
    reads(&bytes)
        && has_after4(&mut bytes, 2, 0xfffefdfc, &[1, 2, 0xfc, 0xfd, 0xfe, 0xff])
        && has_after1(&mut bytes, 5, 0x1234, &[1, 2, 0xfc, 0xfd, 0xfe, 0x34])
        && has_after1(
            &mut bytes,
            0,
            0xffffffff,
            &[0xff, 2, 0xfc, 0xfd, 0xfe, 0x34],
        )
        && has_after4(&mut bytes, 0, 7, &[7, 0, 0, 0, 0xfe, 0x34])
}

// Whether a range fits by whole numbers.
fn fits_so() -> bool {
    fits(0, 4, 4)
        && !fits(1, 4, 4)
        && fits(4, 0, 4)
        && !fits(5, 0, 4)
        && !fits(u32::MAX, 1, u32::MAX)
        && fits(u32::MAX - 1, 1, u32::MAX)
        && !fits(u32::MAX, u32::MAX, 0)
}

// How many bytes a block is asked for, and its address.
struct Block(u32, u32);

static BLOCKS: [Block; 8] = [
    Block(0, 0),
    Block(4, 1048592),
    Block(4, 1048624),
    Block(17, 1048656),
    Block(65505, 0),
    Block(u32::MAX, 0),
    Block(65392, 1048704),
    Block(1, 0),
];

static WHOLE_BLOCKS: [Block; 3] = [Block(65505, 0), Block(65504, 32), Block(1, 0)];

// Whether a memory makes these blocks.
fn makes(memory: &mut Trusted, blocks: &[Block]) -> bool {
    for Block(bytes, address) in blocks {
        if memory.make(*bytes) != *address {
            return false;
        }
    }
    true
}

// Whether a memory of 65,536 bytes at an address makes these blocks.
fn makes_from(alloc: Global, base: u32, blocks: &[Block]) -> bool
    requires some { 16 ≤ base }
    requires few { base ≤ 1048576 }
    requires aligned { base % 16 ≡ 0 }
{
    match Trusted::start(alloc, 65536, base) {
        Ok(mut memory) => makes(&mut memory, blocks),
        Err(_) => false,
    }
}

// Whether blocks are made while there is room.
fn makes_blocks(alloc: Global) -> bool {
    makes_from(alloc, 1048576, &BLOCKS) && makes_from(alloc, 16, &WHOLE_BLOCKS)
}

// Stores a word and reads it again, where its bytes are in the memory.
fn stored(memory: &mut Trusted, at: u32, len: u32, v: u32) -> Option<u32> {
    if len != 1 && len != 4 || !memory.in_range(at, len) {
        return None;
    }
    memory.store(at, len, v);
    if memory.in_range(at, len) {
        Some(memory.load(at, len))
    } else {
        None
    }
}

// An address, the length of a word, the word, and what is read, where it is in the memory.
struct Word(u32, u32, u32, Option<u32>);

static STORED: [Word; 9] = [
    Word(65536, 4, 0x87654321, Some(0x87654321)),
    Word(65539, 1, 0x1ff, Some(0xff)),
    Word(131068, 4, 7, Some(7)),
    Word(131071, 1, 256, Some(0)),
    Word(65535, 1, 1, None),
    Word(65535, 4, 1, None),
    Word(131069, 4, 1, None),
    Word(131072, 1, 1, None),
    Word(u32::MAX, 4, 1, None),
];

// Whether words that are stored one after another are read so.
fn stores(memory: &mut Trusted, words: &[Word]) -> bool {
    for Word(at, len, v, read) in words {
        if stored(memory, *at, *len, *v) != *read {
            return false;
        }
    }
    true
}

// Whether a memory has its words and its size.
fn holds(memory: &mut Trusted) -> bool {
    stores(memory, &STORED) && memory.in_range(65536, 65536) && !memory.in_range(65536, 65537)
}

// Whether words are stored at both ends of a memory.
fn stores_at_both_ends(alloc: Global) -> bool {
    match Trusted::start(alloc, 65536, 65536) {
        Ok(mut memory) => holds(&mut memory),
        Err(_) => false,
    }
}

// Whether these are the numbers of the vector.
fn are_numbers(numbers: &[u8]) -> bool {
    matches!(numbers, [3, 1, 2])
}

// Whether a vector is listed as it is, and given back.
fn is_given_back(numbers: Vec<u8>) -> bool {
    let list = Listed::from_vec(numbers);
    let same = are_numbers(list.as_slice());
    let numbers = list.into_vec();
    same && are_numbers(numbers.as_slice())
}

// Whether a list gives its vector back.
fn lists_vector(alloc: Global) -> bool {
    match vec![in alloc; 3u8, 1, 2] {
        Ok(numbers) => is_given_back(numbers),
        Err(_) => false,
    }
}

/// Fails unless words of bytes and memories are as they must be.
pub fn memories(alloc: Global) -> Result<(), Fail> {
    expect(
        "words and lists",
        has_words() && fits_so() && lists_vector(alloc),
    )?;
    expect("blocks", makes_blocks(alloc) && stores_at_both_ends(alloc))
}
