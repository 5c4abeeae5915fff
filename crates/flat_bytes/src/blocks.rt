// Where blocks stand in a memory.

ghost use Rattle.std.specs.Prelude.{◌≡◌, ◌^◌, ◌<◌};
ghost use Rattle.flat_bytes.specs.Blocks.{grown as grown_by};

/// The counter of a memory without blocks, which is the offset of its first block.
pub const FIRST_OFFSET: u32 = 16;

/// The counter behind a block of some bytes that stands at the counter: the bytes are rounded up to 16, and 16 more follow.
pub fn grown(counter: u64, bytes: u64) -> u64
    requires { grown_by counter bytes < 2 ^ 64 }
    ensures { result ≡ grown_by counter bytes }
{
    counter + bytes.div_ceil(16) * 16 + 16
}
