// What the sandbox does, and what it is shown.

ghost use Rattle.std.specs.Prelude.{◌≤◌, length};

use crate::row::{Octets, Words};

/// Whose turn it is.
#[derive(Clone, Copy, PartialEq, Eq)]
pub enum Turn {
    Trusted,
    Sandbox,
}

/// A count of bytes, from 1 to 64. An enum keeps no fact about its fields, so this field of `Act` is a type of its own.
#[derive(Clone, Copy)]
pub struct ByteCount {
    pub number: u32,
    pub ghost in_range: { (1 ≤ number) × (number ≤ 64) },
}

impl ByteCount {
    ghost use Rattle.std.specs.Prelude.{◌≡◌, ◌↔◌, IsSome, IfSome};

    /// This count; None exactly where it isn't 1 to 64.
    pub fn new(number: u32) -> Option<ByteCount>
        ensures fits { IsSome result ↔ ((1 ≤ number) × (number ≤ 64)) }
        ensures number { IfSome result (λ count. count.number ≡ number) }
    {
        if (1..=64).contains(&number) {
            Some(ByteCount { number })
        } else {
            None
        }
    }
}

/// From 1 to 64 bytes: a type of its own for the reason that `ByteCount` is.
#[derive(Clone, Copy)]
pub struct SomeOctets {
    pub octets: Octets,
    pub ghost not_empty: { 1 ≤ length octets },
}

impl SomeOctets {
    ghost use Rattle.std.specs.Prelude.{◌≡◌, ◌↔◌, IsSome, IfSome};

    /// These bytes; None exactly where they aren't 1 to 64.
    pub fn from_slice(bytes: &[u8]) -> Option<SomeOctets>
        ensures fits { IsSome result ↔ ((1 ≤ length bytes.now) × (length bytes.now ≤ 64)) }
        ensures bytes { IfSome result (λ some. some.octets ≡ bytes.now) }
    {
        if bytes.is_empty() {
            return None;
        }
        let octets = Octets::from_slice(bytes)?;
        Some(SomeOctets { octets })
    }
}

/// One act of the sandbox. Offsets are in its memory, and words have 32 bits without a sign.
#[derive(Clone, Copy)]
pub enum Act {
    /// Let the trusted side make its next touch.
    Go,
    /// Look at bytes of the sandbox memory.
    Read { at: u32, len: ByteCount },
    /// Change bytes of the sandbox memory.
    Write { at: u32, bytes: SomeOctets },
    /// Call a callback by its number.
    Call { fun: u32, args: Words },
    /// Return from the innermost tainted call.
    Return { value: u32 },
    /// End the sandbox.
    Stop,
}

/// What the sandbox is shown.
#[derive(Clone, Copy)]
pub enum Seen {
    /// The bytes that it looked at.
    Bytes { at: u32, bytes: Octets },
    /// A tainted function was called, by its number.
    Called { fun: u32, args: Words },
    /// A callback returned.
    Replied { value: u32 },
}

/// A touch: what the trusted side gave away.
#[derive(Clone, Copy)]
pub enum Release {
    /// It loaded from the sandbox memory.
    Looked,
    /// It stored these bytes there.
    Wrote { at: u32, bytes: Octets },
    /// It called a tainted function, by its number.
    Passed { fun: u32, args: Words },
    /// A callback of it returned.
    Replied { value: u32 },
}
