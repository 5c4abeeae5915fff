// Words of one and of four bytes.

ghost use Rattle.std.specs.Prelude.{◌≡◌, ◌+◌, ◌≤◌, ◌↔◌, IsTrue, length};
ghost use Rattle.flat_bytes.specs.Words.{word_at, with_word};

/// Whether `len` bytes from `at` on lie in `size` bytes. The sum is one of whole numbers, and can't wrap.
pub fn fits(at: u32, len: u32, size: u32) -> bool
    ensures { IsTrue result ↔ at + len ≤ size }
{
    u64::from(at) + u64::from(len) <= u64::from(size)
}

/// The byte at `at`.
pub fn get1(b: &[u8], at: u32) -> u32
    requires { at + 1 ≤ length b.now }
    ensures { result ≡ word_at 1 b.now at }
{
    u32::from(b[at as usize])
}

/// The word of the four bytes from `at` on, of which the first is the lowest.
pub fn get4(b: &[u8], at: u32) -> u32
    requires { at + 4 ≤ length b.now }
    ensures { result ≡ word_at 4 b.now at }
{
    let at = at as usize;
    u32::from_le_bytes([b[at], b[at + 1], b[at + 2], b[at + 3]])
}

/// Stores `v` modulo 256 in the byte at `at`.
pub fn put1(b: &mut [u8], at: u32, v: u32)
    requires { at + 1 ≤ length b.old }
    ensures { b.new ≡ with_word 1 b.old at v }
{
    b[at as usize] = (v % 256) as u8;
}

/// Stores `v` in the four bytes from `at` on, of which the first becomes the lowest.
pub fn put4(b: &mut [u8], at: u32, v: u32)
    requires { at + 4 ≤ length b.old }
    ensures { b.new ≡ with_word 4 b.old at v }
{
    let at = at as usize;
    b[at..at + 4].copy_from_slice(&v.to_le_bytes());
}
