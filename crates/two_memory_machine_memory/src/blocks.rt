// Blocks of trusted memory.

ghost use Rattle.std.specs.Prelude.{◌≡◌, ◌+◌, ◌^◌, ◌<◌};

/// A block of trusted memory: its offset, and how many bytes it has.
#[derive(Clone, Copy)]
pub struct BlockRow {
    pub offset: u32,
    pub bytes: u32,
}

impl BlockRow {
    /// The address and the length of the block, in a memory from a base address on.
    pub fn placed(&self, base: u32) -> (u32, u32)
        requires { base + self.now.offset < 2 ^ 32 }
        ensures { result ≡ (base + self.now.offset, self.now.bytes) }
    {
        (base + self.offset, self.bytes)
    }
}
