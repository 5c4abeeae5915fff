// A memory at a base address, with counted room for blocks.

ghost use Rattle.std.specs.Prelude.{◌≡◌, ◌+◌, ◌-◌, ◌^◌, ◌<◌, ◌≤◌, ◌⊎◌, ◌↔◌, IfOk, IfSome, IsTrue, length, vec_len};
ghost use Rattle.flat_bytes.specs.Words.{word_at, with_word};
ghost use Rattle.trusted_memory.specs.Memories.{AreAllowed, Refuses, Holds, started, made, address_made, byte_of};

use ckc_text::fault::NoMemory;
use flat_bytes::blocks::{self, FIRST_OFFSET};
use flat_bytes::words;
use std::alloc::Global;
use std::marker::Model;

/// The trusted memory. Its bytes have the addresses from its base on.
#[derive(Drop)]
pub struct Trusted {
    bytes: Vec<u8>,
    base: u32,
    counter: u32,
}

impl Model for Trusted {
    ghost use Rattle.trusted_memory.specs.Memories.{Memory};

    ghost Value = { Memory };

    ghost use Rattle.trusted_memory.specs.Insides.{memory, IsConsistent};

    ghost view = { memory };

    ghost invariant = { IsConsistent };
}

impl Trusted {
    /// A memory of `size` bytes from the address `base` on, all zero and without blocks. No other call takes memory.
    pub fn start(alloc: Global, size: u32, base: u32) -> Result<Trusted, NoMemory>
        requires { AreAllowed size base }
        ensures { IfOk result (λ memory. memory ≡ started size base) }
    {
        let mut bytes = Vec::with_capacity(alloc, size as usize)?;
        bytes.resize(size as usize, 0)?;
        Ok(Trusted {
            bytes,
            base,
            counter: FIRST_OFFSET,
        })
    }

    /// A memory of these bytes, the first of which has the address `base`. Its blocks end before the offset `counter`.
    pub fn from_bytes(bytes: Vec<u8>, base: u32, counter: u32) -> Trusted
        requires not_null { 0 < base }
        requires addresses { base + vec_len bytes < 2 ^ 32 }
        requires counted { counter ≤ vec_len bytes }
        ensures { result ≡ record { bytes = bytes.items; base = base; counter = counter } }
    {
        Trusted {
            bytes,
            base,
            counter,
        }
    }

    /// How many bytes the memory has.
    pub fn size(&self) -> u32
        ensures { result ≡ length self.now.bytes }
    {
        self.bytes.len() as u32
    }

    /// The byte at an address, or None outside the memory.
    pub fn byte(&self, at: u32) -> Option<u8>
        ensures byte { result ≡ byte_of self.now at }
        ensures before_end { IfSome result (λ _. at + 1 < 2 ^ 32) }
    {
        let offset = at.checked_sub(self.base)?;
        self.bytes.get(offset as usize).copied()
    }

    /// The offset at which the next block will stand.
    pub fn counter(&self) -> u32
        ensures { result ≡ self.now.counter }
    {
        self.counter
    }

    /// Makes a block of some bytes, and gives its address. A block without bytes and one that the room is too small
    /// for are refused, with 0; then nothing has changed.
    pub fn make(&mut self, bytes: u32) -> u32
        ensures address { result ≡ address_made self.old bytes }
        ensures after { self.new ≡ made self.old bytes }
        ensures refused { (result ≡ 0) ↔ Refuses self.old bytes }
    {
        let grown = blocks::grown(u64::from(self.counter), u64::from(bytes));
        if bytes == 0 || grown > self.bytes.len() as u64 {
            return 0;
        }
        let address = self.base + self.counter;
        self.counter = grown as u32;
        address
    }

    /// Whether the `len` bytes from the address `at` on are bytes of the memory.
    pub fn in_range(&self, at: u32, len: u32) -> bool
        ensures { IsTrue result ↔ Holds self.now at len }
    {
        at >= self.base && words::fits(at - self.base, len, self.bytes.len() as u32)
    }

    /// The word of the `len` bytes, 1 or 4, from the address `at` on.
    pub fn load(&self, at: u32, len: u32) -> u32
        requires width { (len ≡ 1) ⊎ (len ≡ 4) }
        requires inside { Holds self.now at len }
        ensures { result ≡ word_at len self.now.bytes (at - self.now.base) }
    {
        let offset = at - self.base;
        if len == 1 {
            words::get1(self.bytes.as_slice(), offset)
        } else {
            words::get4(self.bytes.as_slice(), offset)
        }
    }

    /// Stores `v` in the `len` bytes, 1 or 4, from the address `at` on: one byte keeps `v` modulo 256.
    pub fn store(&mut self, at: u32, len: u32, v: u32)
        requires width { (len ≡ 1) ⊎ (len ≡ 4) }
        requires inside { Holds self.old at len }
        ensures { self.new
            ≡ record self.old { bytes = with_word len self.old.bytes (at - self.old.base) v } }
    {
        let offset = at - self.base;
        if len == 1 {
            words::put1(self.bytes.as_mut_slice(), offset, v);
        } else {
            words::put4(self.bytes.as_mut_slice(), offset, v);
        }
    }
}
